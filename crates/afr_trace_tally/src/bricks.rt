//! What the lines so far have made of one brick: its tables, its locks, how many requests it was asked, and its counts.
ghost use Rattle.std.specs.Prelude.{Err, ◌≡◌, ◌+◌, ◌-◌, ◌<◌, ◌^◌, [], ◌∷◌, length, reverse, IfOk, OnOk};
ghost use Rattle.afr_model.specs.Honest.{one_more};
ghost use Rattle.afr_object.specs.State.{IsInOrder};
ghost use Rattle.afr_trace_tables.specs.Plain.{plain_tables};
ghost use Rattle.afr_trace_tally.specs.Bricks.{AreBricks, IsBrickTally};
ghost use Rattle.afr_trace_tally.specs.Contents.{Brings, contents_seen};
ghost use Rattle.afr_trace_tally.specs.Counts.{AreCounted};
ghost use Rattle.afr_trace_tally.specs.Room.{CanTake, HasRoom};

use crate::contents::Kept;
use crate::counts::{Counts, count_at, counted_by, no_counts, plus, put_count};
use crate::locks::{add_granted, drop_released};
use crate::stop::TallyStop;
use crate::tables::{opened, step};
use afr_base::{BrickId, NoMemory};
use afr_brick::Brick;
use afr_lines::{Area, HeldLock, Line};
use afr_plan::Plan;
use std::alloc::Global;

/// A brick: its tables, whose changelog numbers are all 0, its locks in the order in which they were granted, how many requests it
/// was asked, refused ones too, and what was counted of its changelog numbers.
#[derive(Drop)]
pub(crate) struct BrickTally {
    pub brick: Brick,
    pub locks: Vec<HeldLock<Area>>,
    pub requests: u32,
    pub counts: Counts,
}

fn new_brick(alloc: Global, plan: &Plan, b: BrickId) -> Result<BrickTally, NoMemory>
    ensures { IfOk result (λ t. IsBrickTally plan.now [] b.0 t) }
{
    let brick = opened(alloc, plan, b)?;
    Ok(BrickTally {
        brick,
        locks: Vec::new(alloc),
        requests: 0,
        counts: no_counts(alloc),
    })
}

/// Each brick before the first line.
pub(crate) fn new_bricks(alloc: Global, plan: &Plan) -> Result<Vec<BrickTally>, NoMemory>
    ensures { IfOk result (λ bricks. AreBricks plan.now [] bricks.items) }
{
    let mut bricks = Vec::new(alloc);
    for b in 0..5 {
        let brick = new_brick(alloc, plan, BrickId(b))?;
        bricks.push(brick)?;
    }
    Ok(bricks)
}

/// What one more line counts, where the brick has its object before it.
fn count_line(
    counts: &mut Counts,
    brick: &Brick,
    plan: &Plan,
    b: BrickId,
    line: &Line,
    older: &[Line],
) -> Result<(), NoMemory>
    requires tables { brick.now.objects ≡ (plain_tables plan.now (reverse older.now)).now b.0 }
    requires was { AreCounted plan.now (reverse older.now) b.0 counts.old }
    requires few { length older.now < 2147483648 }
    ensures ok { OnOk result (AreCounted plan.now (line.now ∷ reverse older.now) b.0 counts.new) }
{
    let _plan = plan;
    let Some(counted) = counted_by(b, line) else {
        return Ok(());
    };
    if brick.look(counted.gfid).is_none() {
        return Ok(());
    }
    let was = count_at(counts, counted.gfid, counted.kind);
    let sum = plus(&counted.count, &was);
    put_count(counts, counted.gfid, counted.kind, sum)?;
    Ok(())
}

fn requests_after(b: BrickId, line: &Line, requests: u32) -> u32
    requires { requests < 2 ^ 32 - 1 }
    ensures { result ≡ one_more b.0 line.now requests }
{
    match line {
        Line::Ask { brick, .. } => { if *brick == b { requests + 1 } else { requests } }
        _ => requests,
    }
}

/// A brick after one more line, whose repair carries these contents.
pub(crate) fn add_to_brick(
    t: &mut BrickTally,
    plan: &Plan,
    b: BrickId,
    line: &Line,
    older: &[Line],
    kept: &Kept,
) -> Result<(), TallyStop>
    requires was { IsBrickTally plan.now (reverse older.now) b.0 t.old }
    requires brings { Brings (plain_tables plan.now (reverse older.now)).past line.now (reverse older.now) (contents_seen kept.now) }
    requires order { IsInOrder (contents_seen kept.now) }
    requires few { length older.now < 2147483648 }
    ensures ok { OnOk result (IsBrickTally plan.now (line.now ∷ reverse older.now) b.0 t.new) }
    ensures too_long { result ≡ Err TallyStop.TooLong → CanTake b.0 line.now (reverse older.now) (plain_tables plan.now (reverse older.now)).past ((plain_tables plan.now (reverse older.now)).now b.0) → ⊥ }
{
    count_line(&mut t.counts, &t.brick, plan, b, line, older)?;
    t.requests = requests_after(b, line, t.requests);
    drop_released(&mut t.locks, line, b);
    add_granted(&mut t.locks, line, b)?;
    step(&mut t.brick, plan, b, line, older, kept)?;
    Ok(())
}

/// Every brick after one more line.
pub(crate) fn add_to_bricks(
    bricks: &mut Vec<BrickTally>,
    plan: &Plan,
    line: &Line,
    older: &[Line],
    kept: &Kept,
) -> Result<(), TallyStop>
    requires was { AreBricks plan.now (reverse older.now) bricks.old.items }
    requires brings { Brings (plain_tables plan.now (reverse older.now)).past line.now (reverse older.now) (contents_seen kept.now) }
    requires order { IsInOrder (contents_seen kept.now) }
    requires few { length older.now < 2147483648 }
    ensures ok { OnOk result (AreBricks plan.now (line.now ∷ reverse older.now) bricks.new.items) }
    ensures too_long { result ≡ Err TallyStop.TooLong → HasRoom plan.now line.now (reverse older.now) → ⊥ }
{
    for b in 0..bricks.len() {
        add_to_brick(&mut bricks[b], plan, BrickId(b as u8), line, older, kept)?;
    }
    Ok(())
}
