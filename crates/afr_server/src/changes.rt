//! What a request that changes copies makes of a brick, and its answer, which is written in its place.
ghost use Rattle.std.specs.Prelude.{◌≡◌, OnOk, OnErr};
ghost use Rattle.afr_object.specs.State.{CanApply, CanPost, CanPre, CanRepair, CanSettle, IsInOrder, contents_of};
ghost use Rattle.afr_model.specs.Honest.{copy_answer};
ghost use Rattle.afr_object.specs.Repairs.{mended, repaired};
ghost use Rattle.afr_object.specs.Tables.{applied, copy_at, object_of};
ghost use Rattle.afr_server.specs.Carried.{BrickCarries, CanApplyLoad};

use crate::reads::absent;
use crate::said::{say_absent, say_done};
use afr_base::{BrickSet, Gfid, Kind, Marks, NoMemory};
use afr_brick::Brick;
use afr_lines::{Answer, Request};
use afr_object::{Change, Load, Repair};

/// The pre-op.
pub(crate) fn pre(brick: &mut Brick, gfid: Gfid, kind: Kind, answer: &mut Answer)
    requires { CanPre kind gfid brick.old.objects }
    ensures { (load : _) → BrickCarries (Request.Pre gfid kind) load brick.old brick.new answer.new }
{
    match brick.pre(gfid, kind) {
        Ok(()) => say_done(answer),
        Err(_) => say_absent(answer),
    }
}

/// The post-op.
pub(crate) fn post(
    brick: &mut Brick,
    _attempt: u32,
    gfid: Gfid,
    kind: Kind,
    missed: BrickSet,
    answer: &mut Answer,
)
    requires { CanPost kind gfid brick.old.objects }
    ensures { (load : _) → BrickCarries (Request.Post _attempt gfid kind missed) load brick.old brick.new answer.new }
{
    match brick.post(gfid, kind, missed) {
        Ok(()) => say_done(answer),
        Err(_) => say_absent(answer),
    }
}

/// Numbers that a heal has settled are taken back.
pub(crate) fn settle(brick: &mut Brick, gfid: Gfid, kind: Kind, less: &Marks, answer: &mut Answer)
    requires { CanSettle kind less.now gfid brick.old.objects }
    ensures { (load : _) → BrickCarries (Request.Settle gfid kind less.now) load brick.old brick.new answer.new }
{
    match brick.settle(gfid, kind, less) {
        Ok(()) => say_done(answer),
        Err(_) => say_absent(answer),
    }
}

/// The operation of an attempt, with its change.
pub(crate) fn apply(
    brick: &mut Brick,
    _attempt: u32,
    load: Load<'_>,
    answer: &mut Answer,
) -> Result<(), NoMemory>
    requires { CanApplyLoad load brick.old.objects }
    ensures ok { OnOk result (BrickCarries (Request.Apply _attempt) load.entry brick.old brick.new answer.new) }
    ensures err { OnErr result (brick.new ≡ brick.old) }
{
    match load {
        Load::Change(change) => apply_change(brick, change, answer),
        _ => {
            say_absent(answer);
            Ok(())
        }
    }
}

fn apply_change(brick: &mut Brick, change: &Change, answer: &mut Answer) -> Result<(), NoMemory>
    requires { CanApply change.now brick.old.objects }
    ensures copies { OnOk result (brick.new ≡ record { keeps = brick.old.keeps; objects = applied brick.old.keeps change.now brick.old.objects }) }
    ensures answer { OnOk result (answer.new ≡ copy_answer (λ _. Answer.Done) (copy_at (object_of change.now) brick.old.objects)) }
    ensures err { OnErr result (brick.new ≡ brick.old) }
{
    match brick.apply(change) {
        Ok(()) => {
            say_done(answer);
            Ok(())
        }
        Err(refused) => absent(refused, answer),
    }
}

/// A heal's repair, with the contents that it carries.
pub(crate) fn mend(
    brick: &mut Brick,
    repair: &Repair,
    load: Load<'_>,
    answer: &mut Answer,
) -> Result<(), NoMemory>
    requires room { CanRepair repair.now (contents_of load) brick.old.objects }
    requires order { IsInOrder (contents_of load) }
    ensures copies { OnOk result (brick.new ≡ record { keeps = brick.old.keeps; objects = mended brick.old.keeps repair.now (contents_of load.entry) brick.old.objects }) }
    ensures answer { OnOk result (answer.new ≡ copy_answer (λ _. Answer.Done) (copy_at (repaired repair.now) brick.old.objects)) }
    ensures err { OnErr result (brick.new ≡ brick.old) }
{
    match brick.repair(repair, load) {
        Ok(()) => {
            say_done(answer);
            Ok(())
        }
        Err(refused) => absent(refused, answer),
    }
}
