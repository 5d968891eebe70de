//! Turns of one actor, each after the events that are due.
ghost use Rattle.std.specs.Prelude.{◌≡◌, ◌≤◌, ◌∷◌, [], true, Ok, IfOk, length, replicate};
ghost use Rattle.afr_model.specs.Actors.{IsActor, is_done};
ghost use Rattle.afr_order.specs.Onward.{Extends};
ghost use Rattle.afr_rule.specs.Choosing.{IsRule};
ghost use Rattle.afr_volume.specs.Right.{KeepsChosen};
ghost use Rattle.afr_volume.specs.Going.{ClientsRun, Ends, Goes, TakesFront, goes_on_after};

use afr_base::{ActorId, NoMemory};
use afr_rule::{Candidate, Rules};
use afr_volume::{Turned, Volume, come_due};

fn goes_on(turned: Turned) -> bool
    ensures { result ≡ goes_on_after turned }
{
    match turned {
        Turned::Full => false,
        _ => true,
    }
}

/// The due events, and then one turn, which passes an actor over that is done. It answers whether the log had room.
pub(crate) fn take_turn<F: Fn(&[Candidate]) -> usize, G: Fn(&[Candidate]) -> usize>(
    volume: &mut Volume,
    a: ActorId,
    rules: &Rules<F, G>,
) -> Result<bool, NoMemory>
    requires rule { IsRule F.Fn rules.now.heal }
    requires read_rule { IsRule G.Fn rules.now.read }
    requires actor { IsActor volume.old.plan a.0 }
    ensures goes { Goes volume.old volume.new }
    ensures onto { Extends volume.old.log volume.new.log }
    ensures front { TakesFront volume.old.plan (a.0 ∷ []) volume.old.log volume.new.log }
    ensures ok { IfOk result (λ on. Ends (a.0 ∷ []) volume.old on volume.new) }
    ensures done { result ≡ Ok true → length volume.new.log ≤ length volume.old.log → is_done volume.new.plan a.0 volume.new.log ≡ true }
    ensures chosen { KeepsChosen F.Fn G.Fn rules.now volume.old volume.new }
    ensures runs { a.0 ≤ 16 → ClientsRun volume.old volume.new }
{
    come_due(volume)?;
    let turned = volume.turn(a, rules)?;
    Ok(goes_on(turned))
}

/// So many turns of one actor, which end early where it is done: each that is left would be passed
/// over. It answers whether the log had room.
pub(crate) fn take_turns<F: Fn(&[Candidate]) -> usize, G: Fn(&[Candidate]) -> usize>(
    volume: &mut Volume,
    a: ActorId,
    count: u32,
    rules: &Rules<F, G>,
) -> Result<bool, NoMemory>
    requires rule { IsRule F.Fn rules.now.heal }
    requires read_rule { IsRule G.Fn rules.now.read }
    requires actor { IsActor volume.old.plan a.0 }
    ensures goes { Goes volume.old volume.new }
    ensures front { TakesFront volume.old.plan (replicate count a.0) volume.old.log volume.new.log }
    ensures ok { IfOk result (λ on. Ends (replicate count a.0) volume.old on volume.new) }
    ensures chosen { KeepsChosen F.Fn G.Fn rules.now volume.old volume.new }
    ensures runs { a.0 ≤ 16 → ClientsRun volume.old volume.new }
{
    for _taken in 0..count {
        let before = volume.len();
        if !take_turn(volume, a, rules)? {
            return Ok(false);
        }
        if volume.len() == before {
            return Ok(true);
        }
    }
    Ok(true)
}
