//! The tables of a brick, without changelog numbers, one line more at a time.
ghost use Rattle.std.specs.Prelude.{Err, IfSome, ◌≡◌, true, false, not, ◌&&◌, ◌==◌, reverse, IfOk, OnOk};
ghost use Rattle.afr_lines.specs.Log.{change_at};
ghost use Rattle.afr_model.specs.Tables.{effect, keeps_bytes};
ghost use Rattle.afr_object.specs.State.{CanApply, IsInOrder};
ghost use Rattle.afr_object.specs.Tables.{applied, opening};
ghost use Rattle.afr_trace_tables.specs.Plain.{plain_step, plain_tables, plainly_asked};
ghost use Rattle.afr_trace_tally.specs.Contents.{Brings, BringsTo, contents_seen};
ghost use Rattle.afr_trace_tally.specs.Room.{CanAsk, CanTake};

use crate::contents::{Kept, mend};
use crate::stop::TallyStop;
use afr_base::{BrickId, Gfid, LONGEST_FILE, NameId, NoMemory, OPENING_GFIDS};
use afr_brick::{Brick, Refused};
use afr_lines::{Line, Request, change_at};
use afr_object::Change;
use afr_plan::Plan;
use std::alloc::Global;

// ---- the tables

/// A brick with the opening files.
pub(crate) fn opened(alloc: Global, plan: &Plan, b: BrickId) -> Result<Brick, NoMemory>
    ensures ok { IfOk result (λ brick. brick ≡ record { keeps = keeps_bytes plan.now b.0; objects = opening plan.now.files }) }
{
    let arbiter = plan.shape.arbiter && b.0 == 2;
    let mut brick = Brick::empty(alloc, arbiter)?;
    for i in 0..plan.files {
        brick.add_opening_file(NameId(i), Gfid(OPENING_GFIDS + u128::from(i) + 1))?;
    }
    Ok(brick)
}

/// One more line: a request to this brick that it carried out.
pub(crate) fn step(
    brick: &mut Brick,
    plan: &Plan,
    b: BrickId,
    line: &Line,
    older: &[Line],
    kept: &Kept,
) -> Result<(), TallyStop>
    requires keeps { brick.old.keeps ≡ keeps_bytes plan.now b.0 }
    requires brings { Brings (plain_tables plan.now (reverse older.now)).past line.now (reverse older.now) (contents_seen kept.now) }
    requires order { IsInOrder (contents_seen kept.now) }
    ensures ok { OnOk result (brick.new ≡ record brick.old { objects = plain_step plan.now line.now b.0 (reverse older.now) (plain_tables plan.now (reverse older.now)).past brick.old.objects }) }
    ensures too_long { result ≡ Err TallyStop.TooLong → CanTake b.0 line.now (reverse older.now) (plain_tables plan.now (reverse older.now)).past brick.old.objects → ⊥ }
{
    match line {
        Line::Ask {
            brick: asked,
            request,
            took,
            ..
        } => carry_out_if(brick, *took && *asked == b, plan, request, older, kept),
        _ => Ok(()),
    }
}

fn carry_out_if(
    brick: &mut Brick,
    flag: bool,
    plan: &Plan,
    request: &Request,
    older: &[Line],
    kept: &Kept,
) -> Result<(), TallyStop>
    requires brings { BringsTo (plain_tables plan.now (reverse older.now)).past request.now (reverse older.now) (contents_seen kept.now) }
    requires order { IsInOrder (contents_seen kept.now) }
    ensures yes { flag ≡ true → OnOk result (brick.new ≡ record brick.old { objects = plainly_asked brick.old.keeps request.now (reverse older.now) (plain_tables plan.now (reverse older.now)).past brick.old.objects }) }
    ensures no { flag ≡ false → OnOk result (brick.new ≡ brick.old) }
    ensures too_long { result ≡ Err TallyStop.TooLong → (flag ≡ true → CanAsk request.now (reverse older.now) (plain_tables plan.now (reverse older.now)).past brick.old.objects) → ⊥ }
{
    if flag {
        carry_out(brick, plan, request, older, kept)
    } else {
        Ok(())
    }
}

fn carry_out(
    brick: &mut Brick,
    plan: &Plan,
    request: &Request,
    older: &[Line],
    kept: &Kept,
) -> Result<(), TallyStop>
    requires brings { BringsTo (plain_tables plan.now (reverse older.now)).past request.now (reverse older.now) (contents_seen kept.now) }
    requires order { IsInOrder (contents_seen kept.now) }
    ensures ok { OnOk result (brick.new ≡ record brick.old { objects = plainly_asked brick.old.keeps request.now (reverse older.now) (plain_tables plan.now (reverse older.now)).past brick.old.objects }) }
    ensures too_long { result ≡ Err TallyStop.TooLong → CanAsk request.now (reverse older.now) (plain_tables plan.now (reverse older.now)).past brick.old.objects → ⊥ }
{
    let _plan = plan;
    match request {
        Request::Apply { attempt } => apply(brick, *attempt, older),
        Request::Mend { repair } => mend(brick, repair, kept),
        Request::Pre { .. } => Ok(()),
        Request::Post { .. } => Ok(()),
        Request::Settle { .. } => Ok(()),
        Request::Lock { .. } => Ok(()),
        Request::Unlock { .. } => Ok(()),
        Request::Look { .. } => Ok(()),
        Request::ReadBytes { .. } => Ok(()),
        Request::ReadName { .. } => Ok(()),
        Request::List { .. } => Ok(()),
        Request::ReadAttr { .. } => Ok(()),
        Request::ReadAttrs { .. } => Ok(()),
        Request::Index => Ok(()),
    }
}

fn apply(brick: &mut Brick, attempt: u32, older: &[Line]) -> Result<(), TallyStop>
    ensures ok { OnOk result (brick.new ≡ record brick.old { objects = effect brick.old.keeps (change_at attempt (reverse older.now)) brick.old.objects }) }
    ensures too_long { result ≡ Err TallyStop.TooLong → IfSome (change_at attempt (reverse older.now)) (λ change. CanApply change brick.old.objects) → ⊥ }
{
    match change_at(older, attempt as usize) {
        Some(change) => apply_change(brick, change),
        None => Ok(()),
    }
}

fn apply_change(brick: &mut Brick, change: &Change) -> Result<(), TallyStop>
    ensures ok { OnOk result (brick.new ≡ record brick.old { objects = applied brick.old.keeps change.now brick.old.objects }) }
    ensures too_long { result ≡ Err TallyStop.TooLong → CanApply change.now brick.old.objects → ⊥ }
{
    if !fits(brick, change) {
        return Err(TallyStop::TooLong);
    }
    match brick.apply(change) {
        Ok(()) => Ok(()),
        Err(Refused::NoObject) => Ok(()),
        Err(Refused::NoMemory) => Err(TallyStop::NoMemory),
    }
}

/// Whether the brick's file, where it has one, can take the change.
fn fits(brick: &Brick, change: &Change) -> bool
    ensures yes { (result ≡ true) → CanApply change.now brick.now.objects }
    ensures no { result ≡ false → CanApply change.now brick.now.objects → ⊥ }
{
    match change {
        Change::Write { gfid, at, bytes } => {
            brick.look(*gfid).is_none()
                || (*at <= LONGEST_FILE && bytes.len() <= (LONGEST_FILE - *at) as usize)
        }
        Change::Cut { .. } => true,
        Change::SetAttr { .. } => true,
        Change::Make { .. } => true,
        Change::Remove { .. } => true,
    }
}
