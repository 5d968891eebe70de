//! Turns of actors in the stated order, and runs that were recorded made again.
#![tactic(auto)]

ghost use Rattle.std.specs.Prelude.{◌≡◌, IfOk, Ok, OnOk, [], false, length};
ghost use Rattle.afr_model.specs.Complete.{IsComplete};
ghost use Rattle.afr_model.specs.Ordered.{IsOrdered, ordered_turns};
ghost use Rattle.afr_order.specs.Ending.{EndsInBound};
ghost use Rattle.afr_order.specs.Onward.{Extends};
ghost use Rattle.afr_volume.specs.Going.{ClientsRun, Ends, Goes, TakesFront, TakesPasses};
ghost use Rattle.afr_rule.specs.Choosing.{IsRule};
ghost use Rattle.afr_volume.specs.Right.{IsChosenBy, IsRight, IsRightFor, KeepsChosen};

mod remaking;
mod rows;
mod turns;

use crate::rows::{all_orders, all_passes, client_orders};
use afr_base::NoMemory;
use afr_law_bound::an_ordered_run_ends;
use afr_rule::{Candidate, Rules};
use afr_volume::Volume;
pub use remaking::{Replayed, replay, replay_steps, with_turns};

/// Runs the plan that the volume was set up with, until every actor is done or the log is full: first its orders, then
/// passes over all actors. Its healers go their own rounds. Heals ask one of the rules for their sources, and clients the other for the copies that they
/// read. Where the plan has as many turns as its bound, the log isn't full before every actor is done.
pub fn drive<F: Fn(&[Candidate]) -> usize, G: Fn(&[Candidate]) -> usize>(
    volume: &mut Volume,
    rules: &Rules<F, G>,
) -> Result<(), NoMemory>
    requires rule { IsRule F.Fn rules.now.heal }
    requires read_rule { IsRule G.Fn rules.now.read }
    requires plain { volume.old.crawl ≡ false }
    requires fresh { volume.old.log ≡ [] }
    ensures plan { volume.new.plan ≡ volume.old.plan }
    ensures plain { volume.new.crawl ≡ false }
    ensures ok { OnOk result (IsComplete volume.new.plan volume.new.log) }
    ensures ordered { IsOrdered volume.new.plan volume.new.log }
    ensures ends { OnOk result (EndsInBound volume.new.plan volume.new.log) }
    ensures right { IsRight volume.new.plan volume.new.log }
    ensures chosen { IsChosenBy F.Fn G.Fn rules.now volume.new }
{
    volume.every_line();
    let driven = take_all(volume, rules);
    volume.every_line();
    an_ordered_run_ends();
    driven
}

/// Takes the turns that the orders of the plan give, one order after the other, whatever the log already has. Before each
/// turn all due events come. An order asks an actor that is done once, and then falls away. It answers whether the log had
/// room.
pub fn take_orders<F: Fn(&[Candidate]) -> usize, G: Fn(&[Candidate]) -> usize>(
    volume: &mut Volume,
    rules: &Rules<F, G>,
) -> Result<bool, NoMemory>
    requires rule { IsRule F.Fn rules.now.heal }
    requires read_rule { IsRule G.Fn rules.now.read }
    requires plain { volume.old.crawl ≡ false }
    ensures goes { Goes volume.old volume.new }
    ensures front { TakesFront volume.old.plan (ordered_turns volume.old.plan.go) volume.old.log volume.new.log }
    ensures ok { IfOk result (λ on. Ends (ordered_turns volume.old.plan.go) volume.old on volume.new) }
    ensures right { IsRight volume.new.plan volume.new.log }
    ensures chosen { KeepsChosen F.Fn G.Fn rules.now volume.old volume.new }
{
    let taken = all_orders(volume, rules);
    volume.every_line();
    taken
}

/// Takes the turns that the orders of clients give, whatever the log already has, and passes over those of healers. It answers
/// whether the log had room.
pub fn take_client_orders<F: Fn(&[Candidate]) -> usize, G: Fn(&[Candidate]) -> usize>(
    volume: &mut Volume,
    rules: &Rules<F, G>,
) -> Result<bool, NoMemory>
    requires rule { IsRule F.Fn rules.now.heal }
    requires read_rule { IsRule G.Fn rules.now.read }
    ensures goes { Goes volume.old volume.new }
    ensures runs { ClientsRun volume.old volume.new }
    ensures full { result ≡ Ok false → length volume.new.log ≡ volume.new.plan.turns }
    ensures right { IsRightFor volume.new.crawl volume.new.plan volume.new.log }
{
    let taken = client_orders(volume, rules);
    volume.every_line();
    taken
}

/// Takes passes over all actors in rising order, clients before healers, until every actor is done or the log is full,
/// whatever the log already has; they add lines and change none. Before each turn, and at the end, all due events come. It takes
/// one turn for each line; a pass asks each actor once, but for the clients from the first on that are done.
pub fn take_passes<F: Fn(&[Candidate]) -> usize, G: Fn(&[Candidate]) -> usize>(
    volume: &mut Volume,
    rules: &Rules<F, G>,
) -> Result<(), NoMemory>
    requires rule { IsRule F.Fn rules.now.heal }
    requires read_rule { IsRule G.Fn rules.now.read }
    requires plain { volume.old.crawl ≡ false }
    ensures goes { Goes volume.old volume.new }
    ensures onto { Extends volume.old.log volume.new.log }
    ensures front { TakesPasses volume.old.plan volume.old.log volume.new.log }
    ensures ok { OnOk result (IsComplete volume.new.plan volume.new.log) }
    ensures right { IsRight volume.new.plan volume.new.log }
    ensures chosen { KeepsChosen F.Fn G.Fn rules.now volume.old volume.new }
{
    let taken = all_passes(volume, rules);
    volume.every_line();
    taken
}

/// The orders, and then the passes.
fn take_all<F: Fn(&[Candidate]) -> usize, G: Fn(&[Candidate]) -> usize>(
    volume: &mut Volume,
    rules: &Rules<F, G>,
) -> Result<(), NoMemory>
    requires rule { IsRule F.Fn rules.now.heal }
    requires read_rule { IsRule G.Fn rules.now.read }
    requires plain { volume.old.crawl ≡ false }
    requires fresh { volume.old.log ≡ [] }
    ensures plan { volume.new.plan ≡ volume.old.plan }
    ensures plain { volume.new.crawl ≡ false }
    ensures ok { OnOk result (IsComplete volume.new.plan volume.new.log) }
    ensures ordered { IsOrdered volume.new.plan volume.new.log }
    ensures chosen { KeepsChosen F.Fn G.Fn rules.now volume.old volume.new }
{
    if take_orders(volume, rules)? {
        return take_passes(volume, rules);
    }
    Ok(())
}
