//! Turns of the actors of a crawl, each after the events that are due.
ghost use Rattle.std.specs.Prelude.{◌≡◌, ◌≤◌, Ok, false, length, true};
ghost use Rattle.afr_model.specs.Actors.{IsActor};
ghost use Rattle.afr_model.specs.Crawl.{IsWorker};
ghost use Rattle.afr_rule.specs.Choosing.{IsRule};
ghost use Rattle.afr_volume.specs.Going.{goes_on_after};
ghost use Rattle.afr_volume.specs.Tasks.{is_done_in};
ghost use Rattle.afr_workers.specs.Crew.{IsCrew, IsStill, Leads, TakesNone};

use crate::crew::Crew;
use crate::due::come;
use crate::giving::give;
use afr_base::{ActorId, NoMemory};
use afr_rule::{Candidate, Rules};
use afr_volume::{Turned, Volume};

fn goes_on(turned: Turned) -> bool
    ensures { result ≡ goes_on_after turned }
{
    match turned {
        Turned::Full => false,
        _ => true,
    }
}

/// The due events, and then one turn, which passes an actor over that is done. It answers whether the log had room.
pub(crate) fn take_turn<F: Fn(&[Candidate]) -> usize, G: Fn(&[Candidate]) -> usize>(
    volume: &mut Volume,
    a: ActorId,
    crew: &mut Crew,
    rules: &Rules<F, G>,
) -> Result<bool, NoMemory>
    requires rule { IsRule F.Fn rules.now.heal }
    requires read_rule { IsRule G.Fn rules.now.read }
    requires actor { IsActor volume.old.plan a.0 }
    requires crew { IsCrew crew.old volume.old }
    ensures crew { IsCrew crew.new volume.new }
    ensures leads { Leads volume.old volume.new }
    ensures still { result ≡ Ok true → length volume.new.log ≤ length volume.old.log → IsStill volume.old crew.old volume.new crew.new }
    ensures done { result ≡ Ok true → length volume.new.log ≤ length volume.old.log → is_done_in a.0 volume.new ≡ true }
    ensures full { result ≡ Ok false → length volume.new.log ≡ volume.new.plan.turns }
{
    come(volume, crew)?;
    let turned = volume.turn(a, rules)?;
    Ok(goes_on(turned))
}

/// The due events, and then one turn of a worker, which is given the next item first where it is at no task. It answers whether
/// the log had room.
pub(crate) fn take_task<F: Fn(&[Candidate]) -> usize, G: Fn(&[Candidate]) -> usize>(
    volume: &mut Volume,
    a: ActorId,
    crew: &mut Crew,
    rules: &Rules<F, G>,
) -> Result<bool, NoMemory>
    requires rule { IsRule F.Fn rules.now.heal }
    requires read_rule { IsRule G.Fn rules.now.read }
    requires worker { IsWorker a.0 }
    requires crew { IsCrew crew.old volume.old }
    ensures crew { IsCrew crew.new volume.new }
    ensures leads { Leads volume.old volume.new }
    ensures still { result ≡ Ok true → length volume.new.log ≤ length volume.old.log → IsStill volume.old crew.old volume.new crew.new }
    ensures done { result ≡ Ok true → length volume.new.log ≤ length volume.old.log → is_done_in a.0 volume.new ≡ true }
    ensures none { result ≡ Ok true → length volume.new.log ≤ length volume.old.log → TakesNone a.0 volume.new crew.new }
    ensures full { result ≡ Ok false → length volume.new.log ≡ volume.new.plan.turns }
{
    come(volume, crew)?;
    give(volume, a, crew)?;
    let turned = volume.turn(a, rules)?;
    Ok(goes_on(turned))
}
