//! The call for a run by threads, which may be recorded, and for a crawl.
ghost use Rattle.std.specs.Prelude.{◌≡◌, ◌≢◌, ◌≤◌, ◌<◌, ◌^◌, ◌⊎◌, ℕ, List, [], OnOk, String, length, false, true};
ghost use Rattle.std.specs.Global.{Global};
ghost use Rattle.std.specs.Io.KnownBytes.{Appends};
ghost use Rattle.afr_law_bound.specs.Ends.Law.{AreEager};
ghost use Rattle.afr_live.specs.Ending.{EndsInAnyOrder};
ghost use Rattle.afr_text.specs.Causes.{Rose};
ghost use Rattle.afr_text.specs.Parts.{AppendsFront};
ghost use Rattle.afr_model.specs.Complete.{IsComplete};
ghost use Rattle.afr_model.specs.Crawl.{CanCrawl};
ghost use Rattle.afr_plan.specs.declared.plan.Plan.{Plan};
ghost use Rattle.afr_plan.specs.declared.plan.PlanFault.{PlanFault};
ghost use Rattle.afr_plan.specs.Spells.{Spells};
ghost use Rattle.afr_plan_print.specs.PrintedPlan.{plan_text};
ghost use Rattle.afr_rule.specs.Choosing.{IsRule};
ghost use Rattle.afr_law_runnable.specs.Runnable.{IsRunnable};
ghost use Rattle.afr_volume.specs.Right.{IsRightFor};
ghost use Rattle.afr_volume.specs.State.{no_volume};
ghost use Rattle.afr_words.specs.Forms.{AreLive, AskLive};
ghost use Rattle.afr_workers.specs.Crew.{IsTriedIn};
ghost use Rattle.afr_cli.specs.Crawl.{IsCrawlDone, IsCrawlRefusal, IsLeftFor, crawl_refusal_line, crawls};
ghost use Rattle.afr_cli.specs.Live.{HasRun, IsGivenLive, IsRecorded, IsShortLive, ReportsLive, StopsLive, StopsRun, text_live};
ghost use Rattle.afr_cli.specs.Statuses.{AreDone, HasFault, IsFull, IsOver, IsRefusal, IsSpelled, IsWorkLeft, refusal_line, usage_line};

use crate::crawling::crawl_plan;
use crate::messages::{USAGE, answer, refuse};
use crate::reading::{Unread, read_runnable};
use crate::recording::tell_live;
use crate::status::Status;
use afr_base::NoMemory;
use afr_live::{Gate, live};
use afr_plan::Plan;
use afr_plan_print::a_printed_plan_is_read_again;
use afr_rule::{Candidate, Rules};
use afr_text::{Sink, Source};
use afr_volume::Volume;
use afr_words::{LiveForm, live_form_of};
use std::alloc::Global;
use std::mem;
use std::sync::Wait;
use std::thread::Threads;

/// Serves the words `live`, `crawl` and `record`, and answers the status: the plan is read from the source and run by threads, in
/// whatever order they come, or crawled, and its report or its image is written. The statuses are those of `afr_top`; it ends with
/// 2 where the words are others, and with 8 where a plan that is to be crawled can't be.
/// Status 7 needs that the plan has fewer turns than twice its bound and one for each actor and event; of a crawl this isn't
/// said. While threads run, the empty volume stands in the place of the one that was lent. Each thread passes the gate
/// before each of its turns. It returns if the threads do.
#[tactic(auto, using(crate::proofs::EndLemmas::nothing_eager))]
pub fn afr_live<
    R: Threads + Wait + Sync,
    S: Source,
    K: Sink,
    F: Fn(&[Candidate]) -> usize + Sync,
    G: Fn(&[Candidate]) -> usize + Sync,
    H: Gate + Sync,
>(
    rt: &R,
    alloc: Global,
    words: &[String],
    source: &mut S,
    sink: &mut K,
    volume: &mut Volume,
    rules: &Rules<F, G>,
    gate: &H,
) -> u8
    requires rule { IsRule F.Fn rules.now.heal }
    requires read_rule { IsRule G.Fn rules.now.read }
    requires fresh { volume.old ≡ no_volume }

    // A plan was run or crawled, and its report or its image is written.
    ensures ok { result ≡ 0 → ReportsLive words.now (S.left source.old) (S.left source.new) (K.taken sink.old) (K.taken sink.new) volume.new
        × IsComplete volume.new.plan volume.new.log × AreDone volume.new.plan volume.new.log }
    ensures unfinished { result ≡ 7 → ReportsLive words.now (S.left source.old) (S.left source.new) (K.taken sink.old) (K.taken sink.new) volume.new
        × IsFull volume.new.plan volume.new.log × IsLeftFor volume.new.crawl volume.new }
    ensures short { result ≡ 7 → volume.new.crawl ≡ false → IsShortLive volume.new.plan }

    // The image of such a run is read again.
    ensures recorded { (result ≡ 0) ⊎ (result ≡ 7) → volume.new.crawl ≡ false → IsRecorded volume.new.plan volume.new.log }

    // A crawl has tried the heals that it found.
    ensures crawled { result ≡ 0 → volume.new.crawl ≡ true → IsCrawlDone volume.new × IsTriedIn volume.new }

    // No plan was run.
    ensures usage { result ≡ 2 → (AreLive words.now → ⊥) × Appends (K.taken sink.old) (K.taken sink.new) usage_line × (source.new ≡ source.old) × (volume.new ≡ no_volume) }
    ensures refused { result ≡ 3 → IsRefusal (S.left source.old) (S.left source.new) (K.taken sink.old) (K.taken sink.new) × (volume.new ≡ no_volume) }
    ensures read { result ≡ 4 → Rose (S.faults source.old) (S.faults source.new) × (sink.new ≡ sink.old) × (volume.new ≡ no_volume) }
    ensures healers { result ≡ 8 → IsCrawlRefusal words.now (S.left source.old) (S.left source.new) (K.taken sink.old) (K.taken sink.new) × (volume.new ≡ no_volume) }

    // The text is not whole.
    ensures write { result ≡ 5 → Rose (K.faults sink.old) (K.faults sink.new)
        × StopsLive words.now S.left source.old source.new (K.taken sink.old) (K.taken sink.new) volume.new }
    ensures memory { result ≡ 6 → sink.new ≡ sink.old }

    // The source tells its bytes, and no read failed.
    ensures faulty { (bytes : List ℕ) (fault : PlanFault) → IsGivenLive words.now (S.left source.old) (S.faults source.old) (S.faults source.new) bytes
        → HasFault bytes fault
        → ((result ≡ 3) × Appends (K.taken sink.old) (K.taken sink.new) (refusal_line fault)) ⊎ (result ≡ 5) ⊎ (result ≡ 6) }
    ensures spelled { (bytes : List ℕ) (plan : Plan) → IsGivenLive words.now (S.left source.old) (S.faults source.old) (S.faults source.new) bytes
        → length bytes ≤ 16777216 → Spells bytes plan → (AskLive words.now LiveForm.Crawl → CanCrawl plan)
        → (result ≡ 0) ⊎ (result ≡ 7) ⊎ (result ≡ 5) ⊎ (result ≡ 6) }
    ensures uncrawled { (bytes : List ℕ) (plan : Plan) → IsGivenLive words.now (S.left source.old) (S.faults source.old) (S.faults source.new) bytes
        → length bytes ≤ 16777216 → Spells bytes plan → AskLive words.now LiveForm.Crawl → (CanCrawl plan → ⊥)
        → ((result ≡ 8) × Appends (K.taken sink.old) (K.taken sink.new) crawl_refusal_line) ⊎ (result ≡ 5) ⊎ (result ≡ 6) }

    // At every status.
    ensures plan { (volume.new ≡ no_volume) ⊎ (AreLive words.now × IsSpelled (S.left source.old) (S.left source.new) volume.new.plan) }
    ensures crawls { (form : LiveForm) → AskLive words.now form → (volume.new ≡ no_volume) ⊎ (volume.new.crawl ≡ crawls form) }
    ensures others { (AreLive words.now → ⊥) → (result ≡ 2) ⊎ (result ≡ 5) }
    ensures few { (result ≡ 0) ⊎ (result ≡ 2) ⊎ (result ≡ 3) ⊎ (result ≡ 4) ⊎ (result ≡ 5) ⊎ (result ≡ 6) ⊎ (result ≡ 7) ⊎ (result ≡ 8) }
    ensures eager { volume.new.crawl ≡ false → AreEager volume.new.log }
    ensures right { IsRightFor volume.new.crawl volume.new.plan volume.new.log }
{
    let status = match live_form_of(words) {
        Some(form) => read_and_run(rt, alloc, form, source, sink, volume, rules, gate),
        None => answer(sink, USAGE, Status::Usage as u8),
    };
    volume.every_line();
    status
}

/// Reads a plan from the source, and runs it by the form.
#[tactic(auto, using(crate::proofs::EndLemmas::nothing_eager))]
fn read_and_run<
    R: Threads + Wait + Sync,
    S: Source,
    K: Sink,
    F: Fn(&[Candidate]) -> usize + Sync,
    G: Fn(&[Candidate]) -> usize + Sync,
    H: Gate + Sync,
>(
    rt: &R,
    alloc: Global,
    form: LiveForm,
    source: &mut S,
    sink: &mut K,
    volume: &mut Volume,
    rules: &Rules<F, G>,
    gate: &H,
) -> u8
    requires rule { IsRule F.Fn rules.now.heal }
    requires read_rule { IsRule G.Fn rules.now.read }
    requires fresh { volume.old ≡ no_volume }
    ensures ok { result ≡ 0 → IsSpelled (S.left source.old) (S.left source.new) volume.new.plan × Appends (K.taken sink.old) (K.taken sink.new) (text_live form volume.new.plan volume.new.log)
        × HasRun form volume.new.plan volume.new × AreDone volume.new.plan volume.new.log }
    ensures crawled { result ≡ 0 → volume.new.crawl ≡ true → IsCrawlDone volume.new × IsTriedIn volume.new }
    ensures unfinished { result ≡ 7 → IsSpelled (S.left source.old) (S.left source.new) volume.new.plan × Appends (K.taken sink.old) (K.taken sink.new) (text_live form volume.new.plan volume.new.log)
        × HasRun form volume.new.plan volume.new × IsFull volume.new.plan volume.new.log × IsLeftFor volume.new.crawl volume.new }
    ensures short { result ≡ 7 → volume.new.crawl ≡ false → IsShortLive volume.new.plan }
    ensures refused { result ≡ 3 → IsRefusal (S.left source.old) (S.left source.new) (K.taken sink.old) (K.taken sink.new) × (volume.new ≡ no_volume) }
    ensures read { result ≡ 4 → Rose (S.faults source.old) (S.faults source.new) × (sink.new ≡ sink.old) × (volume.new ≡ no_volume) }
    ensures healers { result ≡ 8 → ((words : List (String Global)) → AskLive words form → IsCrawlRefusal words (S.left source.old) (S.left source.new) (K.taken sink.old) (K.taken sink.new))
        × (volume.new ≡ no_volume) }
    ensures write { result ≡ 5 → Rose (K.faults sink.old) (K.faults sink.new)
        × ((words : List (String Global)) → AskLive words form → StopsLive words S.left source.old source.new (K.taken sink.old) (K.taken sink.new) volume.new) }
    ensures memory { result ≡ 6 → sink.new ≡ sink.old }
    ensures eager { volume.new.crawl ≡ false → AreEager volume.new.log }
    ensures plan { (volume.new ≡ no_volume) ⊎ (IsSpelled (S.left source.old) (S.left source.new) volume.new.plan × (volume.new.crawl ≡ crawls form)) }
    ensures few { (result ≡ 0) ⊎ (result ≡ 3) ⊎ (result ≡ 4) ⊎ (result ≡ 5) ⊎ (result ≡ 6) ⊎ (result ≡ 7) ⊎ (result ≡ 8) }
{
    match read_runnable(alloc, source) {
        Ok(plan) => {
            a_printed_plan_is_read_again();
            run_asked(rt, alloc, form, plan, sink, volume, rules, gate)
        }
        Err(Unread::Refused(fault)) => refuse(alloc, sink, fault),
        Err(Unread::ReadFault) => Status::ReadFault as u8,
        Err(Unread::NoMemory) => Status::NoMemory as u8,
    }
}

/// Runs a plan by the form, and writes its text.
fn run_asked<
    R: Threads + Wait + Sync,
    K: Sink,
    F: Fn(&[Candidate]) -> usize + Sync,
    G: Fn(&[Candidate]) -> usize + Sync,
    H: Gate + Sync,
>(
    rt: &R,
    alloc: Global,
    form: LiveForm,
    plan: Plan,
    sink: &mut K,
    volume: &mut Volume,
    rules: &Rules<F, G>,
    gate: &H,
) -> u8
    requires rule { IsRule F.Fn rules.now.heal }
    requires read_rule { IsRule G.Fn rules.now.read }
    requires runnable { IsRunnable plan }
    requires printed { length (plan_text plan) < 2 ^ 32 }
    requires fresh { volume.old ≡ no_volume }
    ensures few { (result ≡ 0) ⊎ (result ≡ 5) ⊎ (result ≡ 6) ⊎ (result ≡ 7) ⊎ (result ≡ 8) }
    ensures none { (volume.new ≡ no_volume) ⊎ ((volume.new.plan ≡ plan) × (volume.new.crawl ≡ crawls form)) }
    ensures ok { result ≡ 0 → HasRun form plan volume.new × AreDone volume.new.plan volume.new.log }
    ensures crawled { result ≡ 0 → volume.new.crawl ≡ true → IsCrawlDone volume.new × IsTriedIn volume.new }
    ensures text { (result ≡ 0) ⊎ (result ≡ 7) → Appends (K.taken sink.old) (K.taken sink.new) (text_live form volume.new.plan volume.new.log) }
    ensures unfinished { result ≡ 7 → HasRun form plan volume.new × IsFull volume.new.plan volume.new.log × IsLeftFor volume.new.crawl volume.new }
    ensures short { result ≡ 7 → volume.new.crawl ≡ false → IsShortLive volume.new.plan }
    ensures refused { result ≡ 8 → (crawls form ≡ true) × (CanCrawl plan → ⊥) × Appends (K.taken sink.old) (K.taken sink.new) crawl_refusal_line × (volume.new ≡ no_volume) }
    ensures write { result ≡ 5 → Rose (K.faults sink.old) (K.faults sink.new) × StopsRun form plan (K.taken sink.old) (K.taken sink.new) volume.new }
    ensures memory { result ≡ 6 → sink.new ≡ sink.old }
    ensures eager { volume.new.crawl ≡ false → AreEager volume.new.log }
{
    if crawls(form) {
        crawl_plan(rt, alloc, form, plan, sink, volume, rules, gate)
    } else {
        run_live(rt, alloc, form, plan, sink, volume, rules, gate)
    }
}

/// Whether the form crawls a plan.
fn crawls(form: LiveForm) -> bool
    ensures { result ≡ crawls form }
{
    match form {
        LiveForm::Live => false,
        LiveForm::Crawl => true,
        LiveForm::Record => false,
    }
}

/// Runs a plan by threads and writes the form's text, also where the log got full in the middle of the work.
#[tactic(auto, using(crate::proofs::EndLemmas::nothing_eager))]
fn run_live<
    R: Threads + Wait + Sync,
    K: Sink,
    F: Fn(&[Candidate]) -> usize + Sync,
    G: Fn(&[Candidate]) -> usize + Sync,
    H: Gate + Sync,
>(
    rt: &R,
    alloc: Global,
    form: LiveForm,
    plan: Plan,
    sink: &mut K,
    volume: &mut Volume,
    rules: &Rules<F, G>,
    gate: &H,
) -> u8
    requires rule { IsRule F.Fn rules.now.heal }
    requires read_rule { IsRule G.Fn rules.now.read }
    requires form { crawls form ≡ false }
    requires runnable { IsRunnable plan }
    requires printed { length (plan_text plan) < 2 ^ 32 }
    requires fresh { volume.old ≡ no_volume }
    ensures few { (result ≡ 0) ⊎ (result ≡ 5) ⊎ (result ≡ 6) ⊎ (result ≡ 7) }
    ensures plan { (volume.new ≡ no_volume) ⊎ (volume.new.plan ≡ plan) }
    ensures plain { volume.new.crawl ≡ false }
    ensures ran { result ≢ 6 → volume.new.plan ≡ plan }
    ensures ok { result ≡ 0 → IsComplete volume.new.plan volume.new.log × AreDone volume.new.plan volume.new.log }
    ensures unfinished { result ≡ 7 → Appends (K.taken sink.old) (K.taken sink.new) (text_live form volume.new.plan volume.new.log)
        × IsFull volume.new.plan volume.new.log × IsWorkLeft volume.new.plan volume.new.log }
    ensures short { result ≡ 7 → IsShortLive volume.new.plan }
    ensures text { result ≡ 0 → Appends (K.taken sink.old) (K.taken sink.new) (text_live form volume.new.plan volume.new.log) }
    ensures write { result ≡ 5 → Rose (K.faults sink.old) (K.faults sink.new) × AppendsFront (K.taken sink.old) (K.taken sink.new) (text_live form volume.new.plan volume.new.log)
        × IsComplete volume.new.plan volume.new.log × IsOver volume.new.plan volume.new.log }
    ensures memory { result ≡ 6 → sink.new ≡ sink.old }
    ensures eager { AreEager volume.new.log }
{
    if volume.set_up(plan).is_err() {
        return Status::NoMemory as u8;
    }
    if run_lent(rt, alloc, volume, rules, gate).is_err() {
        return Status::NoMemory as u8;
    }
    volume.every_line();
    tell_live(alloc, form, sink, volume)
}

/// Lends the volume to the threads, and puts the one that they hand back in its place.
fn run_lent<
    R: Threads + Wait + Sync,
    F: Fn(&[Candidate]) -> usize + Sync,
    G: Fn(&[Candidate]) -> usize + Sync,
    H: Gate + Sync,
>(rt: &R, alloc: Global, volume: &mut Volume, rules: &Rules<F, G>, gate: &H) -> Result<(), NoMemory>
    requires rule { IsRule F.Fn rules.now.heal }
    requires read_rule { IsRule G.Fn rules.now.read }
    requires fresh { volume.old.log ≡ [] }
    requires plain { volume.old.crawl ≡ false }
    ensures plan { volume.new.plan ≡ volume.old.plan }
    ensures plain { volume.new.crawl ≡ false }
    ensures ok { OnOk result (IsComplete volume.new.plan volume.new.log) }
    ensures ends { OnOk result (EndsInAnyOrder volume.new.plan volume.new.log) }
    ensures eager { AreEager volume.new.log }
{
    let lent = mem::replace(volume, Volume::empty(alloc));
    match live(rt, alloc, lent, rules, gate) {
        Ok((ran, _ended)) => {
            *volume = ran;
            Ok(())
        }
        Err((stopped, stop)) => {
            *volume = stopped;
            Err(stop)
        }
    }
}
