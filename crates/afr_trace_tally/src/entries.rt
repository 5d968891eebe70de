//! Which entry a line shows that asks for a name.
ghost use Rattle.std.specs.Prelude.{◌≡◌, ◌<◌, ◌++◌, [], ◌∷◌, OnOk, length, reverse, slice_get};
ghost use Rattle.afr_model.specs.Tables.{entry_at};
ghost use Rattle.afr_trace_tables.specs.Plain.{plain_tables};
ghost use Rattle.afr_trace_tally.specs.Bricks.{AreBricks};
ghost use Rattle.afr_trace_tally.specs.Entries.{entry_by, entry_of, or_no_entry};
ghost use Rattle.afr_trace_tally.specs.Tally.{AsksKnown};

use crate::bricks::BrickTally;
use crate::contents::asked_by;
use afr_base::{BrickId, Gfid, NameId, NoMemory};
use afr_brick::{Brick, Refused};
use afr_lines::{Line, Request};
use afr_object::Entry;
use afr_plan::Plan;

/// The entry that a request shows of a brick.
fn entry_of(brick: &Brick, request: &Request) -> Option<Entry>
    ensures { result ≡ entry_of request.now brick.now.objects }
{
    match request {
        Request::ReadName { gfid, name } => entry_at(brick, *gfid, *name),
        _ => None,
    }
}

#[tactic(auto, using(crate::proofs::EntryLemmas::read_entry, crate::proofs::EntryLemmas::no_entry))]
fn entry_at(brick: &Brick, g: Gfid, name: NameId) -> Option<Entry>
    ensures { result ≡ entry_at g name brick.now.objects }
{
    match brick.read_name(g, name) {
        Ok(entry) => entry,
        Err(Refused::NoObject) => None,
        Err(Refused::NoMemory) => None,
    }
}

fn entry_by_brick(
    bricks: &[BrickTally],
    plan: &Plan,
    older: &[Line],
    b: BrickId,
    request: &Request,
) -> Option<Entry>
    requires are { AreBricks plan.now (reverse older.now) bricks.now }
    requires brick { b.0 < 5 }
    ensures { result ≡ entry_of request.now ((plain_tables plan.now (reverse older.now)).now b.0) }
{
    let _plan = plan;
    let _older = older;
    entry_of(&bricks[b.0 as usize].brick, request)
}

/// The entry that a line shows that asks for a name.
pub(crate) fn entry_now(
    bricks: &[BrickTally],
    plan: &Plan,
    line: &Line,
    older: &[Line],
) -> Option<Entry>
    requires are { AreBricks plan.now (reverse older.now) bricks.now }
    requires known { AsksKnown line.now }
    ensures { result ≡ entry_by (plain_tables plan.now (reverse older.now)).now line.now }
{
    match asked_by(line) {
        Some((b, request)) => entry_by_brick(bricks, plan, older, b, request),
        None => None,
    }
}

pub(crate) fn keep_entry(
    entries: &mut Vec<Option<Entry>>,
    more: Option<Entry>,
) -> Result<(), NoMemory>
    ensures ok { OnOk result (entries.new.items ≡ entries.old.items ++ more ∷ []) }
{
    entries.push(more)?;
    Ok(())
}

/// The entry that stands at a position, if one does.
pub(crate) fn entry_in(entries: &[Option<Entry>], position: u32) -> Option<Entry>
    ensures { result ≡ or_no_entry (slice_get entries.now position) }
{
    match entries.get(position as usize) {
        Some(entry) => *entry,
        None => None,
    }
}
