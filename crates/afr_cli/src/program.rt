//! The whole program, but for its outside.
ghost use Rattle.std.specs.Prelude.{◌≡◌, ◌≤◌, ◌⊎◌, ℕ, List, Some, String, length, false, true};
ghost use Rattle.std.specs.Global.{Global};
ghost use Rattle.afr_text.specs.Causes.{Rose};
ghost use Rattle.afr_model.specs.Complete.{IsComplete};
ghost use Rattle.afr_model.specs.Ordered.{IsOrdered};
ghost use Rattle.std.specs.Io.KnownBytes.{Appends};
ghost use Rattle.afr_image.specs.Images.{IsImageOf};
ghost use Rattle.afr_image.specs.declared.image.Image.{Image};
ghost use Rattle.afr_image.specs.declared.image.ImageFault.{ImageFault};
ghost use Rattle.afr_plan.specs.declared.plan.Plan.{Plan};
ghost use Rattle.afr_plan.specs.declared.plan.PlanFault.{PlanFault};
ghost use Rattle.afr_plan.specs.Spells.{Spells};
ghost use Rattle.afr_rule.specs.Choosing.{IsRule};
ghost use Rattle.afr_volume.specs.Right.{IsChosenBy, IsRight};
ghost use Rattle.afr_volume.specs.State.{no_volume};
ghost use Rattle.afr_words.specs.Forms.{AreForm, AreRefused, AskCheck, AskFor};
ghost use Rattle.afr_cli.specs.Checking.{HasPartFault, HasTrace, IsChecked, IsGivenCheck, IsPartRefused, IsToldOf};
ghost use Rattle.afr_cli.specs.Forms.{is_replay, reads, text_of};
ghost use Rattle.afr_cli.specs.Replay.{AreReplay, HasImageFault, IsDifference, IsGivenReplay, IsImageRefusal, Repeats, image_refusal_line};
ghost use Rattle.afr_cli.specs.Statuses.{AreDone, HasFault, AreGiven, IsFull, IsPlanOf, IsPlanOfWords, IsRefusal, IsShort, IsSpelled, IsWorkLeft, Reports, StopsWriting, refusal_line, usage_line};

use crate::checking::read_and_check;
use crate::generated::make_and_run;
use crate::messages::{USAGE, answer, refuse};
use crate::reading::{Unread, read_runnable};
use crate::replaying::read_and_replay;
use crate::running::run_plan;
use crate::status::Status;
use afr_rule::{Candidate, Rules};
use afr_text::{Sink, Source};
use afr_volume::Volume;
use afr_words::{Form, form_of, is_check};
use std::alloc::Global;

/// Serves the words, and answers the status. It ends with 2 where the words are no form that it
/// serves, 3 where the plan is refused, 4 where the source failed, 5 where the sink failed, 6 where
/// memory was wanting, and with 7 where the log was full before all work was done; the text of the form is
/// written of a full log too. But for a replay, 7 needs that the plan has fewer turns than its bound, and it comes with no
/// generated load. In a replay 9 says that the image is refused, and 10 that a line of it wasn't made again. A check of a
/// trace runs nothing: 0 says that each line keeps every rule, 11 which is the first that breaks one, and 12 that there is too
/// much of it; 3 that the plan part is refused. Heals ask one of the rules for their sources, and clients the other for the
/// copies that they read.
#[tactic(auto, using(crate::proofs::StatusLemmas::nothing_chosen, crate::proofs::StatusLemmas::nothing_ordered, crate::proofs::StatusLemmas::stops_at_usage))]
pub fn afr_top<S: Source, K: Sink, F: Fn(&[Candidate]) -> usize, G: Fn(&[Candidate]) -> usize>(
    alloc: Global,
    words: &[String],
    source: &mut S,
    sink: &mut K,
    volume: &mut Volume,
    rules: &Rules<F, G>,
) -> u8
    requires rule { IsRule F.Fn rules.now.heal }
    requires read_rule { IsRule G.Fn rules.now.read }
    requires fresh { volume.old ≡ no_volume }

    // A plan was run, and the text of the form is written.
    ensures ok { result ≡ 0 → (AskCheck words.now → ⊥) → Reports words.now (S.left source.old) (S.left source.new) (K.taken sink.old) (K.taken sink.new) volume.new
        × IsComplete volume.new.plan volume.new.log × AreDone volume.new.plan volume.new.log }
    ensures unfinished { result ≡ 7 → Reports words.now (S.left source.old) (S.left source.new) (K.taken sink.old) (K.taken sink.new) volume.new
        × IsFull volume.new.plan volume.new.log × IsWorkLeft volume.new.plan volume.new.log }
    ensures short { result ≡ 7 → (AreReplay words.now → ⊥) → IsShort volume.new.plan }

    // No plan was run.
    ensures usage { result ≡ 2 → (AreForm words.now → ⊥) × (AskCheck words.now → ⊥) × Appends (K.taken sink.old) (K.taken sink.new) usage_line × (source.new ≡ source.old) × (volume.new ≡ no_volume) }
    ensures refused { result ≡ 3 → (AskCheck words.now → ⊥) → IsRefusal (S.left source.old) (S.left source.new) (K.taken sink.old) (K.taken sink.new) × (volume.new ≡ no_volume) }
    ensures read { result ≡ 4 → Rose (S.faults source.old) (S.faults source.new) × (sink.new ≡ sink.old) × (volume.new ≡ no_volume) }

    // The text is not whole.
    ensures write { result ≡ 5 → Rose (K.faults sink.old) (K.faults sink.new)
        × StopsWriting words.now S.left source.old source.new (K.taken sink.old) (K.taken sink.new) volume.new }
    ensures memory { result ≡ 6 → sink.new ≡ sink.old }

    // The words ask for a generated load.
    ensures generated { (n : ℕ) → AskFor words.now (Form.Gen n) → (source.new ≡ source.old) × ((result ≡ 0) ⊎ (result ≡ 5) ⊎ (result ≡ 6)) }

    // The words ask for a replay.
    ensures repeats { (turns : ℕ) → AskFor words.now (Form.Replay turns) → (result ≡ 0) ⊎ (result ≡ 7) → Repeats turns (S.left source.old) (S.left source.new) volume.new }
    ensures image { result ≡ 9 → (turns : ℕ) × AskFor words.now (Form.Replay turns)
        × IsImageRefusal turns (S.left source.old) (S.left source.new) (K.taken sink.old) (K.taken sink.new) × (volume.new ≡ no_volume) }
    ensures differs { result ≡ 10 → (turns : ℕ) × AskFor words.now (Form.Replay turns)
        × IsDifference turns (S.left source.old) (S.left source.new) (K.taken sink.old) (K.taken sink.new) volume.new }
    ensures replay { AreReplay words.now → (result ≡ 0) ⊎ (result ≡ 4) ⊎ (result ≡ 5) ⊎ (result ≡ 6) ⊎ (result ≡ 7) ⊎ (result ≡ 9) ⊎ (result ≡ 10) }

    // The words ask for a check of a trace: nothing is run.
    ensures check { AskCheck words.now → (volume.new ≡ no_volume) × ((result ≡ 0) ⊎ (result ≡ 3) ⊎ (result ≡ 4) ⊎ (result ≡ 5) ⊎ (result ≡ 6) ⊎ (result ≡ 11) ⊎ (result ≡ 12)) }
    ensures checked { AskCheck words.now → (result ≡ 0) ⊎ (result ≡ 11) ⊎ (result ≡ 12) → IsChecked (S.left source.old) (S.left source.new) (K.taken sink.old) (K.taken sink.new) result }
    ensures found { (result ≡ 11) ⊎ (result ≡ 12) → AskCheck words.now }
    ensures part { result ≡ 3 → AskCheck words.now
        → (fault : PlanFault) × IsPartRefused (S.left source.old) (S.left source.new) fault × Appends (K.taken sink.old) (K.taken sink.new) (refusal_line fault) }

    // The words ask for a form that reads a plan, the source tells its bytes, and no read failed.
    ensures faulty { (bytes : List ℕ) (fault : PlanFault) → AreGiven words.now (S.left source.old) (S.faults source.old) (S.faults source.new) bytes
        → HasFault bytes fault
        → ((result ≡ 3) × Appends (K.taken sink.old) (K.taken sink.new) (refusal_line fault)) ⊎ (result ≡ 5) ⊎ (result ≡ 6) }
    ensures spelled { (bytes : List ℕ) (plan : Plan) → AreGiven words.now (S.left source.old) (S.faults source.old) (S.faults source.new) bytes
        → length bytes ≤ 16777216 → Spells bytes plan
        → (result ≡ 0) ⊎ (result ≡ 7) ⊎ (result ≡ 5) ⊎ (result ≡ 6) }

    // The words ask for a replay, the source tells its bytes, and no read failed.
    ensures faulty_image { (turns : ℕ) (bytes : List ℕ) (fault : ImageFault) → IsGivenReplay words.now turns (S.left source.old) (S.faults source.old) (S.faults source.new) bytes
        → HasImageFault turns bytes fault
        → ((result ≡ 9) × Appends (K.taken sink.old) (K.taken sink.new) (image_refusal_line fault)) ⊎ (result ≡ 5) ⊎ (result ≡ 6) }
    ensures imaged { (turns : ℕ) (bytes : List ℕ) (image : Image) → IsGivenReplay words.now turns (S.left source.old) (S.faults source.old) (S.faults source.new) bytes
        → length bytes ≤ 33554432 → IsImageOf (Some turns) bytes image
        → (result ≡ 0) ⊎ (result ≡ 7) ⊎ (result ≡ 10) ⊎ (result ≡ 5) ⊎ (result ≡ 6) }

    // The words ask for a check, the source tells its bytes, and no read failed.
    ensures faulty_part { (bytes : List ℕ) (fault : PlanFault) → IsGivenCheck words.now (S.left source.old) (S.faults source.old) (S.faults source.new) bytes
        → HasPartFault bytes fault
        → ((result ≡ 3) × Appends (K.taken sink.old) (K.taken sink.new) (refusal_line fault)) ⊎ (result ≡ 5) ⊎ (result ≡ 6) }
    ensures traced { (bytes : List ℕ) (plan : Plan) (trace : List ℕ) → IsGivenCheck words.now (S.left source.old) (S.faults source.old) (S.faults source.new) bytes
        → length bytes ≤ 16777216 → HasTrace bytes plan trace
        → IsToldOf plan trace result (K.taken sink.old) (K.taken sink.new) ⊎ (result ≡ 5) ⊎ (result ≡ 6) }

    // At every status.
    ensures plan { (volume.new ≡ no_volume) ⊎ IsPlanOfWords words.now (S.left source.old) (S.left source.new) volume.new.plan }
    ensures plain { volume.new.crawl ≡ false }
    ensures others { ((AreForm words.now → ⊥) → (AskCheck words.now → ⊥) → (result ≡ 2) ⊎ (result ≡ 5) ⊎ (result ≡ 6)) × (AreRefused words.now → (result ≡ 2) ⊎ (result ≡ 5)) }
    ensures few { (result ≡ 0) ⊎ (result ≡ 2) ⊎ (result ≡ 3) ⊎ (result ≡ 4) ⊎ (result ≡ 5) ⊎ (result ≡ 6) ⊎ (result ≡ 7) ⊎ (result ≡ 9) ⊎ (result ≡ 10) ⊎ (result ≡ 11) ⊎ (result ≡ 12) }
    ensures right { IsRight volume.new.plan volume.new.log }
    ensures ordered { (AreReplay words.now → ⊥) → IsOrdered volume.new.plan volume.new.log }
    ensures chosen { IsChosenBy F.Fn G.Fn rules.now volume.new }
{
    if is_check(words) {
        let status = read_and_check(alloc, source, sink);
        volume.every_line();
        return status;
    }
    let status = match form_of(alloc, words) {
        Ok(Some(form)) => serve(alloc, form, source, sink, volume, rules),
        Ok(None) => answer(sink, USAGE, Status::Usage as u8),
        Err(_) => Status::NoMemory as u8,
    };
    volume.every_line();
    status
}

/// Serves a form: a generated load is made, and nothing is read; a replay reads an image, and each other form its plan.
#[tactic(auto, using(crate::proofs::StatusLemmas::nothing_chosen, crate::proofs::StatusLemmas::nothing_ordered))]
fn serve<S: Source, K: Sink, F: Fn(&[Candidate]) -> usize, G: Fn(&[Candidate]) -> usize>(
    alloc: Global,
    form: Form,
    source: &mut S,
    sink: &mut K,
    volume: &mut Volume,
    rules: &Rules<F, G>,
) -> u8
    requires rule { IsRule F.Fn rules.now.heal }
    requires read_rule { IsRule G.Fn rules.now.read }
    requires asked { (words : List (String Global)) × AskFor words form }
    requires fresh { volume.old ≡ no_volume }
    ensures ok { result ≡ 0 → IsPlanOf form (S.left source.old) (S.left source.new) volume.new.plan × Appends (K.taken sink.old) (K.taken sink.new) (text_of form volume.new.plan volume.new.log)
        × IsComplete volume.new.plan volume.new.log × AreDone volume.new.plan volume.new.log }
    ensures unfinished { result ≡ 7 → IsPlanOf form (S.left source.old) (S.left source.new) volume.new.plan × Appends (K.taken sink.old) (K.taken sink.new) (text_of form volume.new.plan volume.new.log)
        × IsFull volume.new.plan volume.new.log × IsWorkLeft volume.new.plan volume.new.log }
    ensures short { result ≡ 7 → is_replay form ≡ false → IsShort volume.new.plan }
    ensures refused { result ≡ 3 → IsRefusal (S.left source.old) (S.left source.new) (K.taken sink.old) (K.taken sink.new) × (volume.new ≡ no_volume) }
    ensures read { result ≡ 4 → Rose (S.faults source.old) (S.faults source.new) × (sink.new ≡ sink.old) × (volume.new ≡ no_volume) }
    ensures write { result ≡ 5 → Rose (K.faults sink.old) (K.faults sink.new)
        × ((words : List (String Global)) → AskFor words form → StopsWriting words S.left source.old source.new (K.taken sink.old) (K.taken sink.new) volume.new) }
    ensures memory { result ≡ 6 → sink.new ≡ sink.old }
    ensures generated { (n : ℕ) → form ≡ Form.Gen n → (source.new ≡ source.old) × ((result ≡ 0) ⊎ (result ≡ 5) ⊎ (result ≡ 6)) }
    ensures repeats { (turns : ℕ) → form ≡ Form.Replay turns → (result ≡ 0) ⊎ (result ≡ 7) → Repeats turns (S.left source.old) (S.left source.new) volume.new }
    ensures image { (turns : ℕ) → form ≡ Form.Replay turns → result ≡ 9
        → IsImageRefusal turns (S.left source.old) (S.left source.new) (K.taken sink.old) (K.taken sink.new) × (volume.new ≡ no_volume) }
    ensures differs { (turns : ℕ) → form ≡ Form.Replay turns → result ≡ 10
        → IsDifference turns (S.left source.old) (S.left source.new) (K.taken sink.old) (K.taken sink.new) volume.new }
    ensures replay { (turns : ℕ) → form ≡ Form.Replay turns → (result ≡ 0) ⊎ (result ≡ 4) ⊎ (result ≡ 5) ⊎ (result ≡ 6) ⊎ (result ≡ 7) ⊎ (result ≡ 9) ⊎ (result ≡ 10) }
    ensures others { is_replay form ≡ false → (result ≡ 0) ⊎ (result ≡ 3) ⊎ (result ≡ 4) ⊎ (result ≡ 5) ⊎ (result ≡ 6) ⊎ (result ≡ 7) }
    ensures plan { (volume.new ≡ no_volume) ⊎ IsPlanOf form (S.left source.old) (S.left source.new) volume.new.plan }
    ensures plain { volume.new.crawl ≡ false }
    ensures few { (result ≡ 0) ⊎ (result ≡ 3) ⊎ (result ≡ 4) ⊎ (result ≡ 5) ⊎ (result ≡ 6) ⊎ (result ≡ 7) ⊎ (result ≡ 9) ⊎ (result ≡ 10) }
    ensures ordered { is_replay form ≡ false → IsOrdered volume.new.plan volume.new.log }
    ensures chosen { IsChosenBy F.Fn G.Fn rules.now volume.new }
{
    match form {
        Form::Gen(n) => make_and_run(alloc, n, sink, volume, rules),
        Form::Replay(turns) => read_and_replay(alloc, turns, source, sink, volume, rules),
        _ => read_and_run(alloc, form, source, sink, volume, rules),
    }
}

/// Reads a plan from the source, and runs it; then the form's text is written.
#[tactic(auto, using(crate::proofs::StatusLemmas::nothing_chosen, crate::proofs::StatusLemmas::nothing_ordered))]
fn read_and_run<S: Source, K: Sink, F: Fn(&[Candidate]) -> usize, G: Fn(&[Candidate]) -> usize>(
    alloc: Global,
    form: Form,
    source: &mut S,
    sink: &mut K,
    volume: &mut Volume,
    rules: &Rules<F, G>,
) -> u8
    requires rule { IsRule F.Fn rules.now.heal }
    requires read_rule { IsRule G.Fn rules.now.read }
    requires reading { reads form ≡ true }
    requires fresh { volume.old ≡ no_volume }
    ensures ok { result ≡ 0 → IsSpelled (S.left source.old) (S.left source.new) volume.new.plan × Appends (K.taken sink.old) (K.taken sink.new) (text_of form volume.new.plan volume.new.log)
        × IsComplete volume.new.plan volume.new.log × AreDone volume.new.plan volume.new.log }
    ensures unfinished { result ≡ 7 → IsSpelled (S.left source.old) (S.left source.new) volume.new.plan × Appends (K.taken sink.old) (K.taken sink.new) (text_of form volume.new.plan volume.new.log)
        × IsFull volume.new.plan volume.new.log × IsWorkLeft volume.new.plan volume.new.log }
    ensures short { result ≡ 7 → IsShort volume.new.plan }
    ensures refused { result ≡ 3 → IsRefusal (S.left source.old) (S.left source.new) (K.taken sink.old) (K.taken sink.new) × (volume.new ≡ no_volume) }
    ensures read { result ≡ 4 → Rose (S.faults source.old) (S.faults source.new) × (sink.new ≡ sink.old) × (volume.new ≡ no_volume) }
    ensures write { result ≡ 5 → Rose (K.faults sink.old) (K.faults sink.new)
        × ((words : List (String Global)) → AskFor words form → StopsWriting words S.left source.old source.new (K.taken sink.old) (K.taken sink.new) volume.new) }
    ensures memory { result ≡ 6 → sink.new ≡ sink.old }
    ensures plan { (volume.new ≡ no_volume) ⊎ IsSpelled (S.left source.old) (S.left source.new) volume.new.plan }
    ensures plain { volume.new.crawl ≡ false }
    ensures few { (result ≡ 0) ⊎ (result ≡ 3) ⊎ (result ≡ 4) ⊎ (result ≡ 5) ⊎ (result ≡ 6) ⊎ (result ≡ 7) }
    ensures ordered { IsOrdered volume.new.plan volume.new.log }
    ensures chosen { IsChosenBy F.Fn G.Fn rules.now volume.new }
{
    match read_runnable(alloc, source) {
        Ok(plan) => run_plan(alloc, form, plan, sink, volume, rules),
        Err(Unread::Refused(fault)) => refuse(alloc, sink, fault),
        Err(Unread::ReadFault) => Status::ReadFault as u8,
        Err(Unread::NoMemory) => Status::NoMemory as u8,
    }
}
