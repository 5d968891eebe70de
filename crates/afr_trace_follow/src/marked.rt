//! Which objects of a brick an index lists, by the sums over the log.
ghost use Rattle.std.specs.Prelude.{Bool, ◌≡◌, ◌<◌, ◌&&◌, ◌==◌, ◌||◌, ◌∷◌, [], List, IfOk, OnOk, is_some, length, option_map, reverse, if◌then◌else◌};
ghost use Rattle.afr_base.specs.declared.ids.ActorId.{ActorId};
ghost use Rattle.afr_base.specs.declared.ids.BrickId.{BrickId};
ghost use Rattle.afr_base.specs.declared.ids.Gfid.{Gfid};
ghost use Rattle.afr_lines.specs.declared.answer.Told.{Told};
ghost use Rattle.afr_index.specs.Listed.{kind_at};
ghost use Rattle.afr_lines.specs.declared.line.Line.{Line};
ghost use Rattle.afr_model.specs.Tables.{holds};
ghost use Rattle.afr_object.specs.Tables.{copy_at};
ghost use Rattle.afr_trace_follow.specs.Marked.{IsListing, has_number, is_marked, kind_marked, marked_on, raised};
ghost use Rattle.afr_trace_tally.specs.Tally.{IsTally};

use crate::facts::either;
use afr_base::{BrickId, Gfid, Kind, NoMemory, What};
use afr_index::Index;
use afr_lines::{Line, Request};
use afr_object::IndexList;
use afr_plan::Plan;
use afr_trace_tally::Tally;
use std::alloc::Global;

/// Whether a copy has a number of a kind above 0.
fn has_number(tally: &Tally, plan: &Plan, log: &[Line], b: BrickId, g: Gfid, kind: Kind) -> bool
    requires tally { IsTally plan.now (reverse log.now) tally.now }
    requires brick { b.0 < 5 }
    requires few { length log.now < 2147483648 }
    ensures { result ≡ has_number plan.now (reverse log.now) b.0 g kind }
{
    let marks = tally.marks(plan, log, b, g, kind);
    !marks.is_zero()
}

/// Whether it has one of any kind.
fn is_marked(tally: &Tally, plan: &Plan, log: &[Line], b: BrickId, g: Gfid) -> bool
    requires tally { IsTally plan.now (reverse log.now) tally.now }
    requires brick { b.0 < 5 }
    requires few { length log.now < 2147483648 }
    ensures { result ≡ is_marked plan.now (reverse log.now) b.0 g }
{
    let bytes = has_number(tally, plan, log, b, g, Kind::Bytes);
    let attrs = has_number(tally, plan, log, b, g, Kind::Attrs);
    let names = has_number(tally, plan, log, b, g, Kind::Names);
    let other = either(bytes, attrs);
    either(other, names)
}

fn kind_found(tally: &Tally, plan: &Plan, log: &[Line], b: BrickId, g: Gfid) -> Option<What>
    requires tally { IsTally plan.now (reverse log.now) tally.now }
    requires brick { b.0 < 5 }
    ensures { result ≡ option_map (λ o. o.what) (copy_at g (holds plan.now (reverse log.now) b.0)) }
{
    match tally.look(plan, log, b, g) {
        Some(view) => Some(view.what),
        None => None,
    }
}

/// What an object is, where it has a number above 0.
fn kind_marked(tally: &Tally, plan: &Plan, log: &[Line], b: BrickId, g: Gfid) -> Option<What>
    requires tally { IsTally plan.now (reverse log.now) tally.now }
    requires brick { b.0 < 5 }
    requires few { length log.now < 2147483648 }
    ensures { result ≡ kind_marked plan.now (reverse log.now) b.0 g }
{
    if is_marked(tally, plan, log, b, g) {
        kind_found(tally, plan, log, b, g)
    } else {
        None
    }
}

fn raised_by(request: &Request) -> Option<Gfid>
    ensures { (a : ActorId) (b : BrickId) (told : Told) (took : Bool) → result ≡ raised (Line.Ask a b request.now told took) }
{
    match request {
        Request::Pre { gfid, .. } => Some(*gfid),
        Request::Post { gfid, .. } => Some(*gfid),
        _ => None,
    }
}

/// The object of which a line may raise a number.
fn raised(line: &Line) -> Option<Gfid>
    ensures { result ≡ raised line.now }
{
    match line {
        Line::Ask { request, .. } => raised_by(request),
        Line::Begin { .. } => None,
        Line::HealBegin { .. } => None,
        Line::End { .. } => None,
        Line::HealEnd { .. } => None,
        Line::Event { .. } => None,
    }
}

fn put(index: &mut Index, g: Gfid, kind: Option<What>) -> Result<(), NoMemory>
    ensures ok { OnOk result ((q : Gfid) → kind_at q index.new ≡ (if is_some kind && (g.0 == q.0) then kind else kind_at q index.old)) }
{
    match kind {
        Some(what) => index.set(g, what),
        None => Ok(()),
    }
}

/// The objects that are listed, with the one of which a line may have raised a number.
fn list_more(
    index: &mut Index,
    tally: &Tally,
    plan: &Plan,
    log: &[Line],
    b: BrickId,
    line: &Line,
) -> Result<(), NoMemory>
    requires tally { IsTally plan.now (reverse log.now) tally.now }
    requires brick { b.0 < 5 }
    requires few { length log.now < 2147483648 }
    ensures ok { OnOk result ((lines : List Line) → IsListing plan.now (reverse log.now) b.0 lines index.old → IsListing plan.now (reverse log.now) b.0 (line.now ∷ lines) index.new) }
{
    match raised(line) {
        Some(g) => {
            let kind = kind_marked(tally, plan, log, b, g);
            put(index, g, kind)
        }
        None => Ok(()),
    }
}

/// The objects of a brick with a number above 0, in rising gfid.
pub(crate) fn marked_on(
    alloc: Global,
    tally: &Tally,
    plan: &Plan,
    log: &[Line],
    b: BrickId,
) -> Result<IndexList, NoMemory>
    requires tally { IsTally plan.now (reverse log.now) tally.now }
    requires brick { b.0 < 5 }
    requires few { length log.now < 2147483648 }
    ensures { IfOk result (λ list. list ≡ marked_on plan.now (reverse log.now) b.0) }
{
    let mut index = Index::new(alloc);
    for position in 0..log.len() {
        list_more(&mut index, tally, plan, log, b, &log[position])?;
    }
    index.list()
}
