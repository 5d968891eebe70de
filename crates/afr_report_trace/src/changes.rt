//! The texts of changes.
ghost use Rattle.std.specs.Prelude.{◌≡◌, ◌++◌, OnOk, codes, decimal, string_bytes};
ghost use Rattle.afr_report_trace.specs.Changes.{change_text, make_word, remove_word};
ghost use Rattle.afr_report_trace.specs.Objects.{object_text};

use crate::objects::{push_key, push_name, push_object};
use afr_base::{Gfid, KeyId, NameId, NoMemory, ValueId, What};
use afr_object::Change;
use afr_plan::Plan;
use afr_report_words::{push_number, push_word_at};

/// Adds a change. Of a write there are the offset and the length, and not the bytes.
pub fn push_change(out: &mut String, plan: &Plan, change: &Change) -> Result<(), NoMemory>
    ensures ok { OnOk result (string_bytes out.new ≡ string_bytes out.old ++ change_text plan.now change.now) }
{
    match change {
        Change::Write { gfid, at, bytes } => push_write(out, plan, *gfid, *at, bytes.len()),
        Change::Cut { gfid, len } => push_cut(out, plan, *gfid, *len),
        Change::SetAttr { gfid, key, value } => push_set_attr(out, plan, *gfid, *key, *value),
        Change::Make {
            dir,
            name,
            gfid,
            what,
        } => push_make(out, plan, *dir, *name, *gfid, *what),
        Change::Remove { dir, name, what } => push_remove(out, plan, *dir, *name, *what),
    }
}

fn push_write(
    out: &mut String,
    plan: &Plan,
    gfid: Gfid,
    at: u32,
    len: usize,
) -> Result<(), NoMemory>
    ensures ok { OnOk result (string_bytes out.new ≡ string_bytes out.old ++ (codes "write " ++ object_text plan.now gfid ++ codes " " ++ decimal at ++ codes " " ++ decimal len)) }
{
    out.push_str("write ")?;
    push_object(out, plan, gfid)?;
    out.push(' ')?;
    push_number(out, u64::from(at))?;
    out.push(' ')?;
    push_number(out, len as u64)
}

/// Adds a cut, which a client's change and a repair write alike.
pub fn push_cut(out: &mut String, plan: &Plan, gfid: Gfid, len: u32) -> Result<(), NoMemory>
    ensures ok { OnOk result (string_bytes out.new ≡ string_bytes out.old ++ (codes "cut " ++ object_text plan.now gfid ++ codes " " ++ decimal len)) }
{
    out.push_str("cut ")?;
    push_object(out, plan, gfid)?;
    out.push(' ')?;
    push_number(out, u64::from(len))
}

fn push_set_attr(
    out: &mut String,
    plan: &Plan,
    gfid: Gfid,
    key: KeyId,
    value: ValueId,
) -> Result<(), NoMemory>
    ensures ok { OnOk result (string_bytes out.new ≡ string_bytes out.old ++ change_text plan.now (Change.SetAttr gfid key value)) }
{
    out.push_str("setattr ")?;
    push_key(out, plan, gfid, key)?;
    out.push(' ')?;
    push_word_at(out, &plan.words.values, value.0)
}

fn push_make(
    out: &mut String,
    plan: &Plan,
    dir: Gfid,
    name: NameId,
    gfid: Gfid,
    what: What,
) -> Result<(), NoMemory>
    ensures ok { OnOk result (string_bytes out.new ≡ string_bytes out.old ++ change_text plan.now (Change.Make dir name gfid what)) }
{
    out.push_str(make_word(what))?;
    push_name(out, plan, dir, name)?;
    out.push(' ')?;
    push_object(out, plan, gfid)
}

fn push_remove(
    out: &mut String,
    plan: &Plan,
    dir: Gfid,
    name: NameId,
    what: What,
) -> Result<(), NoMemory>
    ensures ok { OnOk result (string_bytes out.new ≡ string_bytes out.old ++ change_text plan.now (Change.Remove dir name what)) }
{
    out.push_str(remove_word(what))?;
    push_name(out, plan, dir, name)
}

fn make_word(what: What) -> &'static str
    ensures { result.now ≡ make_word what }
{
    match what {
        What::File => "create ",
        What::Dir => "mkdir ",
    }
}

fn remove_word(what: What) -> &'static str
    ensures { result.now ≡ remove_word what }
{
    match what {
        What::File => "unlink ",
        What::Dir => "rmdir ",
    }
}
