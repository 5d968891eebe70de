//! What a command gave, from the text behind `ok`.
ghost use Rattle.std.specs.Prelude.{◌≡◌, ◌++◌, IfOk, None, OnOk, filter, map, not, option_map};
ghost use Rattle.std.specs.Option.{option_copied};
ghost use Rattle.afr_plan.specs.Data.{hex_bytes};
ghost use Rattle.afr_trace_read.specs.Contents as read;
ghost use Rattle.afr_trace_build.specs.Given.{as_bytes, as_names, as_stat, as_value, by_any, by_command, good_from, is_listed, is_told, names_in_text, unlisted, with_entries};

use afr_base::{Gfid, NameId, NoMemory, What};
use afr_lines::Good;
use afr_object::{Chunk, Entry, NameList};
use afr_plan::{Command, Plan};
use afr_plan_line::{hex_byte, is_same};
use afr_trace_read::{digits_given, name_behind, stat_given, value_given};
use std::alloc::Global;

// ---- names with their entries

fn is_told(names: &[NameId], name: NameId) -> bool
    ensures { result ≡ is_told names.now name }
{
    names.iter().any(|x| x.0 == name.0)
}

fn is_listed(listed: &[(NameId, Entry)], name: NameId) -> bool
    ensures { result ≡ is_listed listed.now name }
{
    listed.iter().any(|x| x.0.0 == name.0)
}

fn add_listed(
    out: &mut Vec<(NameId, Entry)>,
    listed: &[(NameId, Entry)],
    names: &[NameId],
) -> Result<(), NoMemory>
    ensures ok { OnOk result (out.new.items ≡ out.old.items ++ filter (λ x. is_told names.now x.0) listed.now) }
{
    let mut rest = listed;
    while let [x, more @ ..] = rest {
        if is_told(names, x.0) {
            out.push(*x)?;
        }
        rest = more;
    }
    Ok(())
}

fn add_unlisted(
    out: &mut Vec<(NameId, Entry)>,
    listed: &[(NameId, Entry)],
    names: &[NameId],
) -> Result<(), NoMemory>
    ensures ok { OnOk result (out.new.items ≡ out.old.items ++ map unlisted (filter (λ name. not (is_listed listed.now name)) names.now)) }
{
    let mut rest = names;
    while let [name, more @ ..] = rest {
        if !is_listed(listed, *name) {
            out.push(unlisted(*name))?;
        }
        rest = more;
    }
    Ok(())
}

fn unlisted(name: NameId) -> (NameId, Entry)
    ensures { result ≡ unlisted name }
{
    (
        name,
        Entry {
            gfid: Gfid(0),
            what: What::File,
        },
    )
}

fn with_entries(
    alloc: Global,
    listed: &[(NameId, Entry)],
    names: &[NameId],
) -> Result<NameList, NoMemory>
    ensures ok { IfOk result (λ list. list ≡ with_entries listed.now names.now) }
{
    let mut out = Vec::new(alloc);
    add_listed(&mut out, listed, names)?;
    add_unlisted(&mut out, listed, names)?;
    Ok(NameList::from_vec(out))
}

// ---- the forms

/// The bytes of pairs of digits.
fn decoded(alloc: Global, digits: &[u8]) -> Result<Vec<u8>, NoMemory>
    ensures ok { IfOk result (λ v. v.items ≡ hex_bytes digits.now) }
{
    let mut bytes = Vec::with_capacity(alloc, digits.len() / 2)?;
    let mut rest = digits;
    while let [high, low, more @ ..] = rest {
        bytes.push(hex_byte(*high, *low))?;
        rest = more;
    }
    Ok(bytes)
}

fn as_bytes(alloc: Global, text: &[u8]) -> Result<Option<Good>, NoMemory>
    ensures ok { IfOk result (λ given. given ≡ as_bytes text.now) }
{
    let Some(digits) = digits_given(text) else {
        return Ok(None);
    };
    let bytes = decoded(alloc, digits)?;
    let chunk = Chunk::from_vec(bytes)?;
    Ok(Some(Good::Bytes(chunk)))
}

fn as_value(plan: &Plan, text: &[u8]) -> Option<Good>
    ensures { result ≡ as_value plan.now text.now }
{
    let value = value_given(plan, text)?;
    Some(Good::Value(value))
}

fn as_stat(text: &[u8]) -> Option<Good>
    ensures { result ≡ as_stat text.now }
{
    let (entry, len) = stat_given(text)?;
    Some(Good::Stat { entry, len })
}

/// The names of a list, each behind a space.
#[tactic(auto, using(crate::proofs::NameLaws::told_start, crate::proofs::NameLaws::told_more, crate::proofs::NameLaws::told_none, crate::proofs::NameLaws::told_end, afr_trace_read::proofs::NamesLaws::shorter))]
fn names_told(alloc: Global, plan: &Plan, text: &[u8]) -> Result<Option<Vec<NameId>>, NoMemory>
    ensures ok { IfOk result (λ names. option_map (λ list. list.items) names ≡ read.names_told plan.now None text.now) }
{
    let mut names: Vec<NameId> = Vec::new(alloc);
    let mut last: Option<NameId> = None;
    let mut rest = text;
    while !rest.is_empty() {
        let Some((name, more)) = name_behind(plan, last, rest) else {
            return Ok(None);
        };
        names.push(name)?;
        last = Some(name);
        rest = more;
    }
    Ok(Some(names))
}

fn names_in_text(alloc: Global, plan: &Plan, text: &[u8]) -> Result<Option<Vec<NameId>>, NoMemory>
    ensures ok { IfOk result (λ names. option_map (λ list. list.items) names ≡ names_in_text plan.now text.now) }
{
    if is_same(text, b" -") {
        return Ok(Some(Vec::new(alloc)));
    }
    names_told(alloc, plan, text)
}

fn as_names(
    alloc: Global,
    plan: &Plan,
    listed: &[(NameId, Entry)],
    text: &[u8],
) -> Result<Option<Good>, NoMemory>
    ensures ok { IfOk result (λ given. given ≡ as_names plan.now listed.now text.now) }
{
    let Some(names) = names_in_text(alloc, plan, text)? else {
        return Ok(None);
    };
    let list = with_entries(alloc, listed, names.as_slice())?;
    Ok(Some(Good::Names(list)))
}

/// What a text stands for, if it has the form of what the command gives.
fn by_command(
    alloc: Global,
    plan: &Plan,
    command: Option<&Command>,
    listed: &[(NameId, Entry)],
    text: &[u8],
) -> Result<Option<Good>, NoMemory>
    ensures ok { IfOk result (λ given. given ≡ by_command plan.now (option_copied command.entry) listed.now text.now) }
{
    match command {
        Some(Command::Ls { .. }) => as_names(alloc, plan, listed, text),
        Some(Command::Stat { .. }) => Ok(as_stat(text)),
        Some(Command::GetAttr { .. }) => Ok(as_value(plan, text)),
        _ => as_bytes(alloc, text),
    }
}

/// What a text stands for by the first form that it has.
fn by_any(
    alloc: Global,
    plan: &Plan,
    listed: &[(NameId, Entry)],
    text: &[u8],
) -> Result<Option<Good>, NoMemory>
    ensures ok { IfOk result (λ given. given ≡ by_any plan.now listed.now text.now) }
{
    if let Some(given) = as_bytes(alloc, text)? {
        return Ok(Some(given));
    }
    if let Some(given) = as_value(plan, text) {
        return Ok(Some(given));
    }
    if let Some(given) = as_stat(text) {
        return Ok(Some(given));
    }
    as_names(alloc, plan, listed, text)
}

/// What stands behind `ok`, by the actor's present command where the text has the form of what that gives.
pub(crate) fn good_from(
    alloc: Global,
    plan: &Plan,
    command: Option<&Command>,
    listed: &[(NameId, Entry)],
    text: &[u8],
) -> Result<Good, NoMemory>
    ensures ok { IfOk result (λ given. given ≡ good_from plan.now (option_copied command.entry) listed.now text.now) }
{
    if text.is_empty() {
        return Ok(Good::Done);
    }
    if let Some(given) = by_command(alloc, plan, command, listed, text)? {
        return Ok(given);
    }
    match by_any(alloc, plan, listed, text)? {
        Some(given) => Ok(given),
        None => Ok(Good::Done),
    }
}
