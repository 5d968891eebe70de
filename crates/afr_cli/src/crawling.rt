//! A plan that is crawled, from its start to what is written of it.
ghost use Rattle.std.specs.Prelude.{◌≡◌, ◌⊎◌, ◌≤◌, ◌<◌, ◌^◌, OnErr, OnOk, [], false, length, slice_index_or, true};
ghost use Rattle.std.specs.Io.KnownBytes.{Appends};
ghost use Rattle.afr_law_runnable.specs.Runnable.{IsRunnable};
ghost use Rattle.afr_model.specs.Crawl.{CanCrawl};
ghost use Rattle.afr_plan_print.specs.PrintedPlan.{plan_text};
ghost use Rattle.afr_rule.specs.Choosing.{IsRule};
ghost use Rattle.afr_text.specs.Causes.{Rose};
ghost use Rattle.afr_text.specs.Parts.{AppendsFront};
ghost use Rattle.afr_volume.specs.State.{no_volume};
ghost use Rattle.afr_workers.specs.Crew.{IsCrawled, IsTriedIn};
ghost use Rattle.afr_cli.specs.Crawl.{IsCrawlDone, IsCrawlLeft, IsCrawlOver, crawl_refusal_line, crawls};
ghost use Rattle.afr_cli.specs.Live.{HasRun, StopsRun, text_live};
ghost use Rattle.afr_cli.specs.Statuses.{IsFull};

use crate::finished::all_done_in;
use crate::messages::{CRAWL_REFUSED, answer};
use crate::recording::text_live;
use crate::status::Status;
use afr_base::NoMemory;
use afr_live::Gate;
use afr_plan::Plan;
use afr_report::is_untried;
use afr_rule::{Candidate, Rules};
use afr_text::Sink;
use afr_volume::Volume;
use afr_words::LiveForm;
use afr_workers::crawl;
use std::alloc::Global;
use std::mem;
use std::sync::Wait;
use std::thread::Threads;

/// Crawls a plan and writes its report, also where the log got full in the middle of the work. A plan without three healers, or
/// with a round of the second or the third, is refused.
pub fn crawl_plan<
    R: Threads + Wait + Sync,
    K: Sink,
    F: Fn(&[Candidate]) -> usize + Sync,
    G: Fn(&[Candidate]) -> usize + Sync,
    H: Gate + Sync,
>(
    rt: &R,
    alloc: Global,
    form: LiveForm,
    plan: Plan,
    sink: &mut K,
    volume: &mut Volume,
    rules: &Rules<F, G>,
    gate: &H,
) -> u8
    requires rule { IsRule F.Fn rules.now.heal }
    requires read_rule { IsRule G.Fn rules.now.read }
    requires form { crawls form ≡ true }
    requires runnable { IsRunnable plan }
    requires printed { length (plan_text plan) < 2 ^ 32 }
    requires fresh { volume.old ≡ no_volume }
    ensures few { (result ≡ 0) ⊎ (result ≡ 5) ⊎ (result ≡ 6) ⊎ (result ≡ 7) ⊎ (result ≡ 8) }
    ensures none { (volume.new ≡ no_volume) ⊎ ((volume.new.plan ≡ plan) × (volume.new.crawl ≡ true)) }
    ensures ok { result ≡ 0 → HasRun form plan volume.new × IsCrawlDone volume.new × IsTriedIn volume.new }
    ensures text { (result ≡ 0) ⊎ (result ≡ 7) → Appends (K.taken sink.old) (K.taken sink.new) (text_live form volume.new.plan volume.new.log) }
    ensures unfinished { result ≡ 7 → HasRun form plan volume.new × IsFull volume.new.plan volume.new.log × IsCrawlLeft volume.new }
    ensures refused { result ≡ 8 → (CanCrawl plan → ⊥) × Appends (K.taken sink.old) (K.taken sink.new) crawl_refusal_line × (volume.new ≡ no_volume) }
    ensures write { result ≡ 5 → Rose (K.faults sink.old) (K.faults sink.new) × StopsRun form plan (K.taken sink.old) (K.taken sink.new) volume.new }
    ensures memory { result ≡ 6 → sink.new ≡ sink.old }
{
    if can_crawl(&plan) {
        crawl_allowed(rt, alloc, form, plan, sink, volume, rules, gate)
    } else {
        answer(sink, CRAWL_REFUSED, Status::CrawlRefused as u8)
    }
}

/// Whether a plan has three healers, and rounds of the first alone.
#[tactic(auto, using(crate::proofs::CrawlLemmas::can_by, crate::proofs::CrawlLemmas::second_rests, crate::proofs::CrawlLemmas::third_rests))]
fn can_crawl(plan: &Plan) -> bool
    ensures yes { result ≡ true → CanCrawl plan.now }
    ensures no { result ≡ false → CanCrawl plan.now → ⊥ }
{
    plan.healers.len() == 3 && has_no_rounds(plan, 1) && has_no_rounds(plan, 2)
}

/// Whether the healer at a place has no rounds.
#[tactic(auto, using(crate::proofs::CrawlLemmas::none_there, crate::proofs::CrawlLemmas::length_there))]
fn has_no_rounds(plan: &Plan, at: usize) -> bool
    requires { at < length plan.now.healers }
    ensures yes { result ≡ true → slice_index_or plan.now.healers at [] ≡ [] }
    ensures no { result ≡ false → slice_index_or plan.now.healers at [] ≡ [] → ⊥ }
{
    plan.healers.item(at).len() == 0
}

/// Crawls a plan that can be crawled, and writes its report.
fn crawl_allowed<
    R: Threads + Wait + Sync,
    K: Sink,
    F: Fn(&[Candidate]) -> usize + Sync,
    G: Fn(&[Candidate]) -> usize + Sync,
    H: Gate + Sync,
>(
    rt: &R,
    alloc: Global,
    form: LiveForm,
    plan: Plan,
    sink: &mut K,
    volume: &mut Volume,
    rules: &Rules<F, G>,
    gate: &H,
) -> u8
    requires rule { IsRule F.Fn rules.now.heal }
    requires read_rule { IsRule G.Fn rules.now.read }
    requires form { crawls form ≡ true }
    requires runnable { IsRunnable plan }
    requires can { CanCrawl plan }
    requires printed { length (plan_text plan) < 2 ^ 32 }
    requires fresh { volume.old ≡ no_volume }
    ensures few { (result ≡ 0) ⊎ (result ≡ 5) ⊎ (result ≡ 6) ⊎ (result ≡ 7) }
    ensures none { (volume.new ≡ no_volume) ⊎ ((volume.new.plan ≡ plan) × (volume.new.crawl ≡ true)) }
    ensures ok { result ≡ 0 → HasRun form plan volume.new × IsCrawlDone volume.new × IsTriedIn volume.new }
    ensures text { (result ≡ 0) ⊎ (result ≡ 7) → Appends (K.taken sink.old) (K.taken sink.new) (text_live form volume.new.plan volume.new.log) }
    ensures unfinished { result ≡ 7 → HasRun form plan volume.new × IsFull volume.new.plan volume.new.log × IsCrawlLeft volume.new }
    ensures write { result ≡ 5 → Rose (K.faults sink.old) (K.faults sink.new) × StopsRun form plan (K.taken sink.old) (K.taken sink.new) volume.new }
    ensures memory { result ≡ 6 → sink.new ≡ sink.old }
{
    if set_to_crawl(volume, plan).is_err() {
        return Status::NoMemory as u8;
    }
    if crawled_volume(rt, alloc, volume, rules, gate).is_err() {
        return Status::NoMemory as u8;
    }
    volume.every_line();
    tell_crawl(alloc, form, sink, volume)
}

/// A volume of the plan whose healers crawl.
fn set_to_crawl(volume: &mut Volume, plan: Plan) -> Result<(), NoMemory>
    requires runnable { IsRunnable plan }
    requires can { CanCrawl plan }
    ensures ok { OnOk result ((volume.new.plan ≡ plan) × (volume.new.crawl ≡ true) × (volume.new.log ≡ [])) }
    ensures err { OnErr result (volume.new ≡ volume.old) }
{
    volume.set_up(plan)?;
    volume.set_crawl();
    Ok(())
}

/// Lends the volume to the threads of a crawl, and puts the one that they hand back in its place.
fn crawled_volume<
    R: Threads + Wait + Sync,
    F: Fn(&[Candidate]) -> usize + Sync,
    G: Fn(&[Candidate]) -> usize + Sync,
    H: Gate + Sync,
>(rt: &R, alloc: Global, volume: &mut Volume, rules: &Rules<F, G>, gate: &H) -> Result<(), NoMemory>
    requires rule { IsRule F.Fn rules.now.heal }
    requires read_rule { IsRule G.Fn rules.now.read }
    requires crawls { volume.old.crawl ≡ true }
    requires fresh { volume.old.log ≡ [] }
    ensures plan { volume.new.plan ≡ volume.old.plan }
    ensures crawls { volume.new.crawl ≡ true }
    ensures complete { OnOk result (IsCrawled volume.new) }
    ensures tried { OnOk result (IsTriedIn volume.new) }
{
    let lent = mem::replace(volume, Volume::empty(alloc));
    match crawl(rt, alloc, lent, rules, gate) {
        Ok(crawled) => {
            *volume = crawled;
            Ok(())
        }
        Err((stopped, stop)) => {
            *volume = stopped;
            Err(stop)
        }
    }
}

/// Writes the report of a crawl that is over, and answers how it ended.
fn tell_crawl<K: Sink>(alloc: Global, form: LiveForm, sink: &mut K, volume: &Volume) -> u8
    requires printed { length (plan_text volume.now.plan) < 2 ^ 32 }
    requires form { volume.now.crawl ≡ crawls form }
    requires crawl { volume.now.crawl ≡ true }
    requires complete { IsCrawled volume.now }
    requires tried { IsTriedIn volume.now }
    ensures few { (result ≡ 0) ⊎ (result ≡ 5) ⊎ (result ≡ 6) ⊎ (result ≡ 7) }
    ensures ok { result ≡ 0 → IsCrawlDone volume.now }
    ensures text { (result ≡ 0) ⊎ (result ≡ 7) → Appends (K.taken sink.old) (K.taken sink.new) (text_live form volume.now.plan volume.now.log) }
    ensures unfinished { result ≡ 7 → IsFull volume.now.plan volume.now.log × IsCrawlLeft volume.now }
    ensures write { result ≡ 5 → Rose (K.faults sink.old) (K.faults sink.new) × AppendsFront (K.taken sink.old) (K.taken sink.new) (text_live form volume.now.plan volume.now.log)
        × IsCrawlOver volume.now }
    ensures memory { result ≡ 6 → sink.new ≡ sink.old }
{
    match text_live(alloc, form, volume) {
        Ok(text) => finish_crawl(sink, text.as_slice(), volume),
        Err(_) => Status::NoMemory as u8,
    }
}

/// Writes the text of a crawl that is over, and answers how it ended.
fn finish_crawl<K: Sink>(sink: &mut K, text: &[u8], volume: &Volume) -> u8
    requires crawl { volume.now.crawl ≡ true }
    requires complete { IsCrawled volume.now }
    requires tried { IsTriedIn volume.now }
    ensures few { (result ≡ 0) ⊎ (result ≡ 5) ⊎ (result ≡ 7) }
    ensures ok { result ≡ 0 → IsCrawlDone volume.now }
    ensures text { (result ≡ 0) ⊎ (result ≡ 7) → Appends (K.taken sink.old) (K.taken sink.new) text.now }
    ensures unfinished { result ≡ 7 → IsFull volume.now.plan volume.now.log × IsCrawlLeft volume.now }
    ensures write { result ≡ 5 → Rose (K.faults sink.old) (K.faults sink.new) × AppendsFront (K.taken sink.old) (K.taken sink.new) text.now × IsCrawlOver volume.now }
{
    let status = crawl_status(volume);
    answer(sink, text, status)
}

/// The status of a crawl that is over, where its text is written to its end.
fn crawl_status(volume: &Volume) -> u8
    requires crawl { volume.now.crawl ≡ true }
    requires complete { IsCrawled volume.now }
    requires tried { IsTriedIn volume.now }
    ensures two { (result ≡ 0) ⊎ (result ≡ 7) }
    ensures done { result ≡ 0 → IsCrawlDone volume.now }
    ensures unfinished { result ≡ 7 → IsFull volume.now.plan volume.now.log × IsCrawlLeft volume.now }
    ensures over { IsCrawlOver volume.now }
{
    if is_crawl_left(volume) {
        Status::Unfinished as u8
    } else {
        Status::Done as u8
    }
}

/// Whether the log was full before all work was done, and each item was a task or a worker was killed.
fn is_crawl_left(volume: &Volume) -> bool
    requires crawl { volume.now.crawl ≡ true }
    requires complete { IsCrawled volume.now }
    requires tried { IsTriedIn volume.now }
    ensures yes { result ≡ true → IsFull volume.now.plan volume.now.log × IsCrawlLeft volume.now }
    ensures no { result ≡ false → IsCrawlDone volume.now }
{
    volume.every_line();
    is_any_left(volume)
}

/// Whether an actor has something left to do, or an item was no task though no worker was killed.
fn is_any_left(volume: &Volume) -> bool
    requires few { length volume.now.plan.healers ≤ 16 }
    requires crawl { volume.now.crawl ≡ true }
    ensures yes { result ≡ true → IsCrawlLeft volume.now }
    ensures no { result ≡ false → IsCrawlDone volume.now }
{
    !all_done_in(volume) || is_untried(volume)
}
