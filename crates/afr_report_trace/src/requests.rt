//! The texts of requests.
ghost use Rattle.std.specs.Prelude.{◌≡◌, ◌++◌, OnOk, codes, decimal, string_bytes};
ghost use Rattle.afr_model.specs.ReportReplies.{kind_text};
ghost use Rattle.afr_report_trace.specs.Numbers.{bricks_text};
ghost use Rattle.afr_report_trace.specs.Objects.{area_text, key_text, name_text, object_text};
ghost use Rattle.afr_report_trace.specs.Repairs.{marks_text};
ghost use Rattle.afr_report_trace.specs.Requests.{domain_text, request_text};

use crate::numbers::push_bricks;
use crate::objects::{push_area, push_key, push_name, push_object, push_range};
use crate::repairs::{push_marks, push_repair};
use afr_base::{BrickSet, Gfid, KeyId, Kind, Marks, NameId, NoMemory};
use afr_lines::{Area, Domain, Request};
use afr_plan::Plan;
use afr_report_words::{kind_word, push_number, push_word};

/// Adds a request: its word, and what it is about.
pub fn push_request(out: &mut String, plan: &Plan, request: &Request) -> Result<(), NoMemory>
    ensures ok { OnOk result (string_bytes out.new ≡ string_bytes out.old ++ request_text plan.now request.now) }
{
    match request {
        Request::Lock { domain, area } => push_covered(out, plan, lock_word(*domain), *area),
        Request::Unlock { domain, area } => push_covered(out, plan, unlock_word(*domain), *area),
        Request::Look { gfid } => push_about(out, plan, "look ", *gfid),
        Request::ReadBytes { gfid, at, len } => push_read(out, plan, *gfid, *at, *len),
        Request::ReadName { gfid, name } => push_read_name(out, plan, *gfid, *name),
        Request::List { gfid } => push_about(out, plan, "list ", *gfid),
        Request::ReadAttr { gfid, key } => push_read_attr(out, plan, *gfid, *key),
        Request::ReadAttrs { gfid } => push_about(out, plan, "attrs ", *gfid),
        Request::Index => push_word(out, "index"),
        Request::Pre { gfid, kind } => push_kind(out, plan, "pre ", *gfid, *kind),
        Request::Apply { attempt } => push_apply(out, *attempt),
        Request::Post {
            attempt,
            missed,
            ..
        } => push_post(out, *attempt, *missed),
        Request::Mend { repair } => push_repair(out, plan, repair),
        Request::Settle { gfid, kind, less } => push_settle(out, plan, *gfid, *kind, less),
    }
}

fn lock_word(domain: Domain) -> &'static str
    ensures { result.now ≡ codes "lock " ++ domain_text domain }
{
    match domain {
        Domain::Work => "lock ",
        Domain::Heal => "lock heal ",
    }
}

fn unlock_word(domain: Domain) -> &'static str
    ensures { result.now ≡ codes "unlock " ++ domain_text domain }
{
    match domain {
        Domain::Work => "unlock ",
        Domain::Heal => "unlock heal ",
    }
}

/// Adds a lock or an unlock: its words, and what it covers.
fn push_covered(out: &mut String, plan: &Plan, words: &str, area: Area) -> Result<(), NoMemory>
    ensures ok { OnOk result (string_bytes out.new ≡ string_bytes out.old ++ (words.now ++ area_text plan.now area)) }
{
    out.push_str(words)?;
    push_area(out, plan, area)
}

/// Adds a request that has a word and an object alone.
fn push_about(out: &mut String, plan: &Plan, word: &str, gfid: Gfid) -> Result<(), NoMemory>
    ensures ok { OnOk result (string_bytes out.new ≡ string_bytes out.old ++ (word.now ++ object_text plan.now gfid)) }
{
    out.push_str(word)?;
    push_object(out, plan, gfid)
}

/// Adds a request on the numbers of one kind of an object.
fn push_kind(
    out: &mut String,
    plan: &Plan,
    word: &str,
    gfid: Gfid,
    kind: Kind,
) -> Result<(), NoMemory>
    ensures ok { OnOk result (string_bytes out.new ≡ string_bytes out.old ++ (word.now ++ object_text plan.now gfid ++ codes " " ++ kind_text kind)) }
{
    push_about(out, plan, word, gfid)?;
    out.push(' ')?;
    push_word(out, kind_word(kind))
}

fn push_read(out: &mut String, plan: &Plan, gfid: Gfid, at: u32, len: u32) -> Result<(), NoMemory>
    ensures ok { OnOk result (string_bytes out.new ≡ string_bytes out.old ++ request_text plan.now (Request.ReadBytes gfid at len)) }
{
    let from = u64::from(at);
    out.push_str("read ")?;
    push_range(out, plan, gfid, from, from + u64::from(len))
}

fn push_read_name(out: &mut String, plan: &Plan, dir: Gfid, name: NameId) -> Result<(), NoMemory>
    ensures ok { OnOk result (string_bytes out.new ≡ string_bytes out.old ++ (codes "name " ++ name_text plan.now dir name)) }
{
    out.push_str("name ")?;
    push_name(out, plan, dir, name)
}

fn push_read_attr(out: &mut String, plan: &Plan, gfid: Gfid, key: KeyId) -> Result<(), NoMemory>
    ensures ok { OnOk result (string_bytes out.new ≡ string_bytes out.old ++ (codes "attr " ++ key_text plan.now gfid key)) }
{
    out.push_str("attr ")?;
    push_key(out, plan, gfid, key)
}

fn push_apply(out: &mut String, attempt: u32) -> Result<(), NoMemory>
    ensures ok { OnOk result (string_bytes out.new ≡ string_bytes out.old ++ (codes "apply " ++ decimal attempt)) }
{
    out.push_str("apply ")?;
    push_number(out, u64::from(attempt))
}

fn push_post(out: &mut String, attempt: u32, missed: BrickSet) -> Result<(), NoMemory>
    ensures ok { OnOk result (string_bytes out.new ≡ string_bytes out.old ++ (codes "post " ++ decimal attempt ++ codes " " ++ bricks_text missed)) }
{
    out.push_str("post ")?;
    push_number(out, u64::from(attempt))?;
    out.push(' ')?;
    push_bricks(out, missed)
}

fn push_settle(
    out: &mut String,
    plan: &Plan,
    gfid: Gfid,
    kind: Kind,
    less: &Marks,
) -> Result<(), NoMemory>
    ensures ok { OnOk result (string_bytes out.new ≡ string_bytes out.old ++ (codes "settle " ++ object_text plan.now gfid ++ codes " " ++ kind_text kind ++ codes " " ++ marks_text plan.now less.now)) }
{
    push_kind(out, plan, "settle ", gfid, kind)?;
    out.push(' ')?;
    push_marks(out, plan, less)
}
