//! One step of an image, made again.
ghost use Rattle.std.specs.Prelude.{◌≡◌, ◌+◌, ◌<◌, ◌≤◌, ◌==◌, ◌&&◌, ◌||◌, ◌∷◌, true, false, None, Ok, OnErr, List, length, nat_le};
ghost use Rattle.afr_image.specs.Steps.{step_of};
ghost use Rattle.afr_lines.specs.declared.line.Line.{Line};
ghost use Rattle.afr_model.specs.Actors.{IsActor};
ghost use Rattle.afr_order.specs.Replays.Made.{Fails, IsEventStep, MakesStep, is_ended};
ghost use Rattle.afr_rule.specs.Choosing.{IsRule};
ghost use Rattle.afr_volume.specs.Right.{KeepsChosen};
ghost use Rattle.afr_volume.specs.Going.{IsHappening};
ghost use Rattle.afr_volume.specs.Turning.{Comes, due_of};

use afr_base::{ActorId, NoMemory};
use afr_image::{Step, step_at};
use afr_plan::Plan;
use afr_rule::{Candidate, Rules};
use afr_volume::{Turned, Volume};

/// Makes a line of the step, and answers whether it has the step; where it can't be made, nothing changes.
pub(crate) fn take_step<F: Fn(&[Candidate]) -> usize, G: Fn(&[Candidate]) -> usize>(
    volume: &mut Volume,
    step: Step,
    rules: &Rules<F, G>,
) -> Result<bool, NoMemory>
    requires rule { IsRule F.Fn rules.now.heal }
    requires read_rule { IsRule G.Fn rules.now.read }
    requires plain { volume.old.crawl ≡ false }
    requires room { length volume.old.log < volume.old.plan.turns }
    ensures plan { volume.new.plan ≡ volume.old.plan }
    ensures plain { volume.new.crawl ≡ false }
    ensures made { result ≡ Ok true → MakesStep volume.old.plan step volume.old.log volume.new.log }
    ensures fails { result ≡ Ok false → Fails volume.old.plan step volume.old.log volume.new.log }
    ensures chosen { KeepsChosen F.Fn G.Fn rules.now volume.old volume.new }
{
    if is_event(step) {
        return take_event(volume, step);
    }
    take_turn(volume, step, rules)
}

fn is_event(step: Step) -> bool
    ensures yes { result ≡ true → IsEventStep step }
    ensures no { result ≡ false → IsEventStep step → ⊥ }
{
    step.who == 0
}

/// The next event, and whether its line has the step.
fn take_event(volume: &mut Volume, step: Step) -> Result<bool, NoMemory>
    requires event { IsEventStep step }
    requires plain { volume.old.crawl ≡ false }
    ensures plan { volume.new.plan ≡ volume.old.plan }
    ensures made { result ≡ Ok true → MakesStep volume.old.plan step volume.old.log volume.new.log }
    ensures fails { result ≡ Ok false → Fails volume.old.plan step volume.old.log volume.new.log }
    ensures happens { IsHappening volume.old volume.new }
{
    if !next_event(volume)? {
        return Ok(false);
    }
    Ok(has_step(volume, step))
}

/// The next event, where one is due. It answers whether one was.
fn next_event(volume: &mut Volume) -> Result<bool, NoMemory>
    ensures comes { result ≡ Ok true → Comes volume.old volume.new }
    ensures none { result ≡ Ok false → (due_of volume.old ≡ None) × (volume.new ≡ volume.old) }
    ensures err { OnErr result (volume.new ≡ volume.old) }
{
    if !volume.has_due() {
        return Ok(false);
    }
    volume.event()?;
    Ok(true)
}

/// A turn of the step's actor.
fn take_turn<F: Fn(&[Candidate]) -> usize, G: Fn(&[Candidate]) -> usize>(
    volume: &mut Volume,
    step: Step,
    rules: &Rules<F, G>,
) -> Result<bool, NoMemory>
    requires rule { IsRule F.Fn rules.now.heal }
    requires read_rule { IsRule G.Fn rules.now.read }
    requires plain { volume.old.crawl ≡ false }
    requires room { length volume.old.log < volume.old.plan.turns }
    requires turn { IsEventStep step → ⊥ }
    ensures plan { volume.new.plan ≡ volume.old.plan }
    ensures plain { volume.new.crawl ≡ false }
    ensures made { result ≡ Ok true → MakesStep volume.old.plan step volume.old.log volume.new.log }
    ensures fails { result ≡ Ok false → Fails volume.old.plan step volume.old.log volume.new.log }
    ensures chosen { KeepsChosen F.Fn G.Fn rules.now volume.old volume.new }
{
    if volume.has_due() {
        return Ok(false);
    }
    volume.every_line();
    if !has_actor(volume.plan(), step.who) {
        return Ok(false);
    }
    let turned = volume.turn(ActorId(step.who as u16), rules)?;
    if is_ended(turned) {
        return Ok(false);
    }
    Ok(has_step(volume, step))
}

/// Whether the actor had nothing left to do.
fn is_ended(turned: Turned) -> bool
    ensures { result ≡ is_ended turned }
{
    match turned {
        Turned::Ended => true,
        _ => false,
    }
}

/// Whether the plan has the actor.
fn has_actor(plan: &Plan, who: u8) -> bool
    requires { length plan.now.healers ≤ 3 }
    ensures yes { result ≡ true → IsActor plan.now who }
    ensures no { result ≡ false → IsActor plan.now who → ⊥ }
{
    is_numbered(who, plan.clients.len(), plan.healers.len())
}

/// Whether the number is one of so many clients or healers.
fn is_numbered(who: u8, clients: usize, healers: usize) -> bool
    requires { healers ≤ 3 }
    ensures { result ≡ ((nat_le 1 who && nat_le who clients) || (nat_le 17 who && nat_le who (16 + healers))) }
{
    let who = usize::from(who);
    (1 <= who && who <= clients) || (17 <= who && who <= 16 + healers)
}

/// Whether the newest line has the step.
fn has_step(volume: &Volume, step: Step) -> bool
    requires some { 0 < length volume.now.log }
    requires plain { volume.now.crawl ≡ false }
    ensures yes { (line : Line) (older : List Line) → volume.now.log ≡ line ∷ older → result ≡ true → step_of line ≡ step }
    ensures no { (line : Line) (older : List Line) → volume.now.log ≡ line ∷ older → result ≡ false → step_of line ≡ step → ⊥ }
{
    volume.every_line();
    let newest = volume.len() - 1;
    are_same(step_at(volume.lines(), newest as usize), step)
}

fn are_same(made: Step, step: Step) -> bool
    ensures { result ≡ ((made.who == step.who) && (made.brick == step.brick) && (made.code == step.code)) }
{
    made.who == step.who && made.brick == step.brick && made.code == step.code
}
