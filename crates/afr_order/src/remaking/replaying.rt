//! A run that is made again, line by line, and goes on from there.
ghost use Rattle.std.specs.Prelude.{◌≡◌, ◌<◌, ◌≤◌, ℕ, false, Ok, Some, [], length, slice_get};
ghost use Rattle.afr_model.specs.Complete.{IsComplete};
ghost use Rattle.afr_order.specs.Replays.Made.{DiffersAt, HasSteps, Retraces};
ghost use Rattle.afr_rule.specs.Choosing.{IsRule};
ghost use Rattle.afr_volume.specs.Right.{IsChosenBy, IsRight, KeepsChosen};

use crate::remaking::steps::take_step;
use crate::take_passes;
use afr_base::NoMemory;
use afr_image::{Image, Step};
use afr_rule::{Candidate, Rules};
use afr_volume::Volume;

/// How a replay ended.
#[derive(Clone, Copy, Debug, PartialEq, Eq)]
pub enum Replayed {
    /// Each line was made again, and the run went on until every actor was done or the log was full.
    Same,
    /// The line at this place couldn't be made of its step, or came with another one. The run stopped there.
    Differs(u32),
}

/// Makes a line of each step of an image, in their order, and then goes on in passes over all actors. The volume has the plan of
/// the image; its turns may be others, and are at least as many as there are steps.
pub fn replay<F: Fn(&[Candidate]) -> usize, G: Fn(&[Candidate]) -> usize>(
    volume: &mut Volume,
    image: &Image,
    rules: &Rules<F, G>,
) -> Result<Replayed, NoMemory>
    requires rule { IsRule F.Fn rules.now.heal }
    requires read_rule { IsRule G.Fn rules.now.read }
    requires plain { volume.old.crawl ≡ false }
    requires fresh { volume.old.log ≡ [] }
    requires room { length image.now.steps ≤ volume.old.plan.turns }
    ensures plan { volume.new.plan ≡ volume.old.plan }
    ensures plain { volume.new.crawl ≡ false }
    ensures same { result ≡ Ok Replayed.Same → Retraces volume.new.plan image.now.steps volume.new.log }
    ensures steps { result ≡ Ok Replayed.Same → HasSteps image.now.steps volume.new.log }
    ensures complete { result ≡ Ok Replayed.Same → IsComplete volume.new.plan volume.new.log }
    ensures differs { (i : ℕ) → result ≡ Ok (Replayed.Differs i) → DiffersAt volume.new.plan image.now.steps i volume.new.log }
    ensures right { IsRight volume.new.plan volume.new.log }
    ensures chosen { IsChosenBy F.Fn G.Fn rules.now volume.new }
{
    replay_steps(volume, image.steps.as_slice(), rules)
}

/// The same of the steps of an image, whose plan the volume has taken over.
pub fn replay_steps<F: Fn(&[Candidate]) -> usize, G: Fn(&[Candidate]) -> usize>(
    volume: &mut Volume,
    steps: &[Step],
    rules: &Rules<F, G>,
) -> Result<Replayed, NoMemory>
    requires rule { IsRule F.Fn rules.now.heal }
    requires read_rule { IsRule G.Fn rules.now.read }
    requires plain { volume.old.crawl ≡ false }
    requires fresh { volume.old.log ≡ [] }
    requires room { length steps.now ≤ volume.old.plan.turns }
    ensures plan { volume.new.plan ≡ volume.old.plan }
    ensures plain { volume.new.crawl ≡ false }
    ensures same { result ≡ Ok Replayed.Same → Retraces volume.new.plan steps.now volume.new.log }
    ensures steps { result ≡ Ok Replayed.Same → HasSteps steps.now volume.new.log }
    ensures complete { result ≡ Ok Replayed.Same → IsComplete volume.new.plan volume.new.log }
    ensures differs { (i : ℕ) → result ≡ Ok (Replayed.Differs i) → DiffersAt volume.new.plan steps.now i volume.new.log }
    ensures right { IsRight volume.new.plan volume.new.log }
    ensures chosen { IsChosenBy F.Fn G.Fn rules.now volume.new }
{
    volume.every_line();
    let replayed = take_all(volume, steps, rules);
    volume.every_line();
    replayed
}

/// The steps, and then the passes.
fn take_all<F: Fn(&[Candidate]) -> usize, G: Fn(&[Candidate]) -> usize>(
    volume: &mut Volume,
    steps: &[Step],
    rules: &Rules<F, G>,
) -> Result<Replayed, NoMemory>
    requires rule { IsRule F.Fn rules.now.heal }
    requires read_rule { IsRule G.Fn rules.now.read }
    requires plain { volume.old.crawl ≡ false }
    requires fresh { volume.old.log ≡ [] }
    requires room { length steps.now ≤ volume.old.plan.turns }
    requires turns { volume.old.plan.turns ≤ 4000000 }
    ensures plan { volume.new.plan ≡ volume.old.plan }
    ensures plain { volume.new.crawl ≡ false }
    ensures same { result ≡ Ok Replayed.Same → Retraces volume.old.plan steps.now volume.new.log }
    ensures complete { result ≡ Ok Replayed.Same → IsComplete volume.new.plan volume.new.log }
    ensures differs { (i : ℕ) → result ≡ Ok (Replayed.Differs i) → DiffersAt volume.old.plan steps.now i volume.new.log }
    ensures chosen { KeepsChosen F.Fn G.Fn rules.now volume.old volume.new }
{
    for i in 0..steps.len() {
        if !take_step(volume, step_number(steps, i), rules)? {
            return Ok(Replayed::Differs(i as u32));
        }
    }
    take_passes(volume, rules)?;
    Ok(Replayed::Same)
}

fn step_number(steps: &[Step], i: usize) -> Step
    requires { i < length steps.now }
    ensures { slice_get steps.now i ≡ Some result }
{
    steps[i]
}
