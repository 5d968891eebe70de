//! What an answer leaves of a heal: its register, and its source once the first looks are over.
ghost use Rattle.std.specs.Prelude.{◌≡◌, ◌+◌, ◌^◌, ◌<◌, ◌≤◌, ◌||◌, false, nat_le, not, true};
ghost use Rattle.afr_discipline.specs.Notes.{IsAllowed, noted_ask};
ghost use Rattle.afr_discipline.specs.Stands.{heal_part_of, seen_as, step_of};
ghost use Rattle.afr_model_moves.specs.Keeps.{keeps_in};
ghost use Rattle.afr_model_moves.specs.Register.{is_opening, rank, span};
ghost use Rattle.afr_model_moves.specs.Steps.{looks_over};
ghost use Rattle.afr_lines.specs.Told.{told_by};
ghost use Rattle.afr_rule.specs.Choosing.{IsRule};
ghost use Rattle.afr_heal_machine.specs.Healing.{IsChosen};
ghost use Rattle.afr_heal_machine.specs.Source.{HasSource, is_found};

use crate::choosing::source_found;
use afr_base::{BrickId, Kind};
use afr_discipline::{
    HealPart, Register, Step, are_asked, asked_at, note_allowed, present_part, present_step,
};
use afr_lines::{Answer, Request, Told};
use afr_rule::{Candidate, SourceRule};

/// What the log keeps of an answer, written in its place, for it is large.
pub(crate) fn put_told(answer: &Answer, told: &mut Told)
    ensures { told.new ≡ told_by answer.now }
{
    match answer {
        Answer::Granted => *told = Told::Granted,
        Answer::Held(owner) => *told = Told::Held(*owner),
        Answer::Seen(view) => *told = Told::Seen(*view),
        Answer::Done => *told = Told::Done,
        Answer::Bytes(_) => *told = Told::Given,
        Answer::Entry(_) => *told = Told::Given,
        Answer::Names(_) => *told = Told::Given,
        Answer::Value(_) => *told = Told::Given,
        Answer::Attrs(_) => *told = Told::Given,
        Answer::Index(_) => *told = Told::Given,
        Answer::NoObject => *told = Told::NoObject,
        Answer::NotConnected => *told = Told::NotConnected,
        Answer::Failed => *told = Told::Failed,
    }
}

/// Notes the request, which the discipline allows, and its answer.
pub(crate) fn note_answer(
    register: &mut Register,
    brick: BrickId,
    request: &Request,
    told: &Told,
    at: u32,
)
    requires few { register.old.shape.n ≤ 5 }
    requires small { brick.0 < 5 }
    requires room { register.old.upto + span < 2 ^ 32 }
    requires allowed { IsAllowed register.old brick.0 request.now }
    ensures value { register.new ≡ noted_ask register.old at brick.0 request.now told.now }
    ensures shape { register.new.shape ≡ register.old.shape }
{
    note_allowed(register, brick, request, told, at);
}

/// Whether the first looks are over, and let the heal go on.
fn is_found(register: &Register) -> bool
    requires { register.now.shape.n ≤ 5 }
    ensures { result ≡ is_found register.now.shape.n (seen_as register.now) }
{
    if register.broken {
        return false;
    }
    match (present_step(register), present_part(register)) {
        (Step::Looks, HealPart::Opening) => are_asked(
            register.shape.n,
            register.held,
            asked_at(register, Step::Looks),
        ),
        (_, _) => false,
    }
}

/// Whether the register is past the locks of its present part.
fn is_past_locks(step: Step) -> bool
    ensures { result ≡ nat_le 7 (rank (step_of step)) }
{
    match step {
        Step::Untouched | Step::Open | Step::Pres | Step::Applies | Step::Posts => false,
        Step::HealLocks | Step::WorkLocks => false,
        _ => true,
    }
}

/// Whether the first looks are over.
pub(crate) fn has_looked(register: &Register) -> bool
    requires { register.now.shape.n ≤ 5 }
    ensures { result ≡ (not (is_opening (heal_part_of register.now.part)) || looks_over register.now.shape.n (keeps_in register.now.shape) (seen_as register.now) 0) }
{
    match (present_part(register), present_step(register)) {
        (HealPart::Opening, Step::Looks) => are_asked(
            register.shape.n,
            register.held,
            asked_at(register, Step::Looks),
        ),
        (HealPart::Opening, step) => is_past_locks(step),
        (HealPart::Piece | HealPart::Finish, _) => true,
    }
}

/// The source of a heal: it is chosen when the first looks are over, and not again.
pub(crate) fn source_after<F: Fn(&[Candidate]) -> usize>(
    register: &Register,
    kind: Kind,
    source: BrickId,
    rule: &SourceRule<F>,
) -> BrickId
    requires rule { IsRule F.Fn rule.now }
    requires few { register.now.shape.n ≤ 5 }
    requires found { is_found register.now.shape.n (seen_as register.now) ≡ true → HasSource kind register.now }
    ensures chosen { is_found register.now.shape.n (seen_as register.now) ≡ true → IsChosen F.Fn rule.now kind register.now result }
    ensures kept { is_found register.now.shape.n (seen_as register.now) ≡ false → result ≡ source }
{
    if is_found(register) {
        source_found(register, kind, rule)
    } else {
        source
    }
}
