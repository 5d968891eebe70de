//! A whole crawl on the calling thread.
ghost use Rattle.std.specs.Prelude.{◌≡◌, ◌⊎◌, OnOk, [], false, length, true};
ghost use Rattle.afr_rule.specs.Choosing.{IsRule};
ghost use Rattle.afr_volume.specs.Right.{IsRightFor};
ghost use Rattle.afr_workers.specs.Crew.{IsAtRest, IsCrawled, IsCrew, IsTriedIn, Leads};

use crate::crew::Crew;
use crate::passes::all_passes;
use afr_base::NoMemory;
use afr_order::take_client_orders;
use afr_rule::{Candidate, Rules};
use afr_volume::Volume;

/// Runs the plan of a volume whose healers crawl, until every actor is done or the log is full: first the orders of its clients,
/// then passes over all actors, in which a worker that is at no task is given the next item of the crawler's lists. Heals ask one
/// of the rules for their sources, and clients the other for the copies that they read.
pub fn crawl_here<F: Fn(&[Candidate]) -> usize, G: Fn(&[Candidate]) -> usize>(
    volume: &mut Volume,
    rules: &Rules<F, G>,
) -> Result<(), NoMemory>
    requires rule { IsRule F.Fn rules.now.heal }
    requires read_rule { IsRule G.Fn rules.now.read }
    requires crawls { volume.old.crawl ≡ true }
    requires fresh { volume.old.log ≡ [] }
    ensures plan { volume.new.plan ≡ volume.old.plan }
    ensures crawls { volume.new.crawl ≡ true }
    ensures right { IsRightFor true volume.new.plan volume.new.log }
    ensures complete { OnOk result (IsCrawled volume.new) }
    ensures tried { OnOk result (IsTriedIn volume.new) }
{
    let crawled = crawl_all(volume, rules);
    volume.every_line();
    crawled
}

/// The orders of the clients, and then the passes.
fn crawl_all<F: Fn(&[Candidate]) -> usize, G: Fn(&[Candidate]) -> usize>(
    volume: &mut Volume,
    rules: &Rules<F, G>,
) -> Result<(), NoMemory>
    requires rule { IsRule F.Fn rules.now.heal }
    requires read_rule { IsRule G.Fn rules.now.read }
    requires crawls { volume.old.crawl ≡ true }
    requires fresh { volume.old.log ≡ [] }
    ensures plan { volume.new.plan ≡ volume.old.plan }
    ensures crawls { volume.new.crawl ≡ true }
    ensures complete { OnOk result (IsCrawled volume.new) }
    ensures tried { OnOk result (IsTriedIn volume.new) }
{
    volume.every_line();
    let has_room = take_client_orders(volume, rules)?;
    let mut crew = Crew::of_log(volume.lines());
    let passed = go_on(volume, &mut crew, has_room, rules);
    volume.every_line();
    passed
}

/// The passes, where the log has room.
fn go_on<F: Fn(&[Candidate]) -> usize, G: Fn(&[Candidate]) -> usize>(
    volume: &mut Volume,
    crew: &mut Crew,
    has_room: bool,
    rules: &Rules<F, G>,
) -> Result<(), NoMemory>
    requires rule { IsRule F.Fn rules.now.heal }
    requires read_rule { IsRule G.Fn rules.now.read }
    requires crew { IsCrew crew.old volume.old }
    requires full { has_room ≡ false → length volume.old.log ≡ volume.old.plan.turns }
    ensures crew { IsCrew crew.new volume.new }
    ensures leads { Leads volume.old volume.new }
    ensures ok { OnOk result ((length volume.new.log ≡ volume.new.plan.turns) ⊎ IsAtRest volume.new crew.new) }
{
    if !has_room {
        return Ok(());
    }
    all_passes(volume, crew, rules)
}
