//! A plan from its start to what is written of it.
ghost use Rattle.std.specs.Prelude.{◌≡◌, ◌≢◌, ◌⊎◌, ◌≤◌, IfOk, length, string_bytes, true, false};
ghost use Rattle.std.specs.Io.KnownBytes.{Appends};
ghost use Rattle.afr_text.specs.Causes.{Rose};
ghost use Rattle.afr_text.specs.Parts.{AppendsFront};
ghost use Rattle.afr_law_runnable.specs.Runnable.{IsRunnable};
ghost use Rattle.afr_model.specs.Complete.{IsComplete};
ghost use Rattle.afr_model.specs.Ordered.{IsOrdered};
ghost use Rattle.afr_model.specs.ReportHealers.{report_of};
ghost use Rattle.afr_report_trace.specs.Lines.{trace_of};
ghost use Rattle.afr_rule.specs.Choosing.{IsRule};
ghost use Rattle.afr_volume.specs.Right.{IsChosenBy};
ghost use Rattle.afr_volume.specs.State.{no_volume};
ghost use Rattle.afr_cli.specs.Forms.{text_of};
ghost use Rattle.afr_cli.specs.Statuses.{AreDone, IsFull, IsOver, IsShort, IsWorkLeft};

use crate::finished::all_done;
use crate::messages::answer;
use crate::status::Status;
use afr_base::NoMemory;
use afr_order::drive;
use afr_plan::Plan;
use afr_report::{gathered_trace, info_text, report_text, summary_text};
use afr_report_trace::{Gathered, write_trace};
use afr_rule::{Candidate, Rules};
use afr_text::Sink;
use afr_volume::Volume;
use afr_words::Form;
use std::alloc::Global;

/// Runs a plan and writes the text of the form, also where the log got full in the middle of the work.
#[tactic(auto, using(crate::proofs::StatusLemmas::nothing_chosen, crate::proofs::StatusLemmas::nothing_ordered))]
pub fn run_plan<K: Sink, F: Fn(&[Candidate]) -> usize, G: Fn(&[Candidate]) -> usize>(
    alloc: Global,
    form: Form,
    plan: Plan,
    sink: &mut K,
    volume: &mut Volume,
    rules: &Rules<F, G>,
) -> u8
    requires rule { IsRule F.Fn rules.now.heal }
    requires read_rule { IsRule G.Fn rules.now.read }
    requires runnable { IsRunnable plan }
    requires fresh { volume.old ≡ no_volume }
    ensures few { (result ≡ 0) ⊎ (result ≡ 5) ⊎ (result ≡ 6) ⊎ (result ≡ 7) }
    ensures plan { (volume.new ≡ no_volume) ⊎ (volume.new.plan ≡ plan) }
    ensures plain { volume.new.crawl ≡ false }
    ensures ran { result ≢ 6 → volume.new.plan ≡ plan }
    ensures ordered { IsOrdered volume.new.plan volume.new.log }
    ensures ok { result ≡ 0 → IsComplete volume.new.plan volume.new.log × AreDone volume.new.plan volume.new.log }
    ensures unfinished { result ≡ 7 → Appends (K.taken sink.old) (K.taken sink.new) (text_of form volume.new.plan volume.new.log)
        × IsFull volume.new.plan volume.new.log × IsWorkLeft volume.new.plan volume.new.log }
    ensures short { result ≡ 7 → IsShort volume.new.plan }
    ensures text { result ≡ 0 → Appends (K.taken sink.old) (K.taken sink.new) (text_of form volume.new.plan volume.new.log) }
    ensures write { result ≡ 5 → Rose (K.faults sink.old) (K.faults sink.new) × AppendsFront (K.taken sink.old) (K.taken sink.new) (text_of form volume.new.plan volume.new.log)
        × IsComplete volume.new.plan volume.new.log × IsOver volume.new.plan volume.new.log }
    ensures memory { result ≡ 6 → sink.new ≡ sink.old }
    ensures chosen { IsChosenBy F.Fn G.Fn rules.now volume.new }
{
    if volume.set_up(plan).is_err() {
        return Status::NoMemory as u8;
    }
    if drive(volume, rules).is_err() {
        return Status::NoMemory as u8;
    }
    volume.every_line();
    tell(alloc, form, sink, volume)
}

/// Writes the text of the form of a run that is over, and answers how it ended.
pub fn tell<K: Sink>(alloc: Global, form: Form, sink: &mut K, volume: &Volume) -> u8
    requires actors { length volume.now.plan.healers ≤ 16 }
    requires plain { volume.now.crawl ≡ false }
    requires complete { IsComplete volume.now.plan volume.now.log }
    ensures few { (result ≡ 0) ⊎ (result ≡ 5) ⊎ (result ≡ 6) ⊎ (result ≡ 7) }
    ensures ok { result ≡ 0 → AreDone volume.now.plan volume.now.log }
    ensures unfinished { result ≡ 7 → Appends (K.taken sink.old) (K.taken sink.new) (text_of form volume.now.plan volume.now.log)
        × IsFull volume.now.plan volume.now.log × IsWorkLeft volume.now.plan volume.now.log }
    ensures text { result ≡ 0 → Appends (K.taken sink.old) (K.taken sink.new) (text_of form volume.now.plan volume.now.log) }
    ensures write { result ≡ 5 → Rose (K.faults sink.old) (K.faults sink.new) × AppendsFront (K.taken sink.old) (K.taken sink.new) (text_of form volume.now.plan volume.now.log)
        × IsOver volume.now.plan volume.now.log }
    ensures memory { result ≡ 6 → sink.new ≡ sink.old }
{
    if let Form::Trace = form {
        return tell_trace(alloc, sink, volume);
    }
    match text_of(alloc, form, volume) {
        Ok(text) => finish(sink, text.as_bytes(), volume),
        Err(_) => Status::NoMemory as u8,
    }
}

/// Writes the trace of a run that is over, and answers how it ended. What takes memory is gathered before a byte is written.
fn tell_trace<K: Sink>(alloc: Global, sink: &mut K, volume: &Volume) -> u8
    requires actors { length volume.now.plan.healers ≤ 16 }
    requires plain { volume.now.crawl ≡ false }
    requires complete { IsComplete volume.now.plan volume.now.log }
    ensures few { (result ≡ 0) ⊎ (result ≡ 5) ⊎ (result ≡ 6) ⊎ (result ≡ 7) }
    ensures ok { result ≡ 0 → AreDone volume.now.plan volume.now.log }
    ensures unfinished { result ≡ 7 → Appends (K.taken sink.old) (K.taken sink.new) (trace_of volume.now.plan volume.now.log)
        × IsFull volume.now.plan volume.now.log × IsWorkLeft volume.now.plan volume.now.log }
    ensures text { result ≡ 0 → Appends (K.taken sink.old) (K.taken sink.new) (trace_of volume.now.plan volume.now.log) }
    ensures write { result ≡ 5 → Rose (K.faults sink.old) (K.faults sink.new) × AppendsFront (K.taken sink.old) (K.taken sink.new) (trace_of volume.now.plan volume.now.log)
        × IsOver volume.now.plan volume.now.log }
    ensures memory { result ≡ 6 → sink.new ≡ sink.old }
{
    match gathered_trace(alloc, volume) {
        Ok(gathered) => finish_trace(sink, gathered, volume),
        Err(_) => Status::NoMemory as u8,
    }
}

/// Writes the trace of a run that is over, and answers how it ended.
fn finish_trace<K: Sink>(sink: &mut K, gathered: Gathered, volume: &Volume) -> u8
    requires actors { length volume.now.plan.healers ≤ 16 }
    requires plain { volume.now.crawl ≡ false }
    requires complete { IsComplete volume.now.plan volume.now.log }
    ensures few { (result ≡ 0) ⊎ (result ≡ 5) ⊎ (result ≡ 7) }
    ensures ok { result ≡ 0 → AreDone volume.now.plan volume.now.log }
    ensures unfinished { result ≡ 7 → Appends (K.taken sink.old) (K.taken sink.new) gathered
        × IsFull volume.now.plan volume.now.log × IsWorkLeft volume.now.plan volume.now.log }
    ensures text { result ≡ 0 → Appends (K.taken sink.old) (K.taken sink.new) gathered }
    ensures write { result ≡ 5 → Rose (K.faults sink.old) (K.faults sink.new) × AppendsFront (K.taken sink.old) (K.taken sink.new) gathered
        × IsOver volume.now.plan volume.now.log }
{
    let status = status_after(volume);
    match write_trace(gathered, sink) {
        Ok(()) => status,
        Err(_) => Status::WriteFault as u8,
    }
}

/// Writes the text of a run that is over, and answers how it ended.
pub fn finish<K: Sink>(sink: &mut K, text: &[u8], volume: &Volume) -> u8
    requires actors { length volume.now.plan.healers ≤ 16 }
    requires plain { volume.now.crawl ≡ false }
    requires complete { IsComplete volume.now.plan volume.now.log }
    ensures few { (result ≡ 0) ⊎ (result ≡ 5) ⊎ (result ≡ 7) }
    ensures ok { result ≡ 0 → AreDone volume.now.plan volume.now.log }
    ensures unfinished { result ≡ 7 → Appends (K.taken sink.old) (K.taken sink.new) text.now
        × IsFull volume.now.plan volume.now.log × IsWorkLeft volume.now.plan volume.now.log }
    ensures text { result ≡ 0 → Appends (K.taken sink.old) (K.taken sink.new) text.now }
    ensures write { result ≡ 5 → Rose (K.faults sink.old) (K.faults sink.new) × AppendsFront (K.taken sink.old) (K.taken sink.new) text.now
        × IsOver volume.now.plan volume.now.log }
{
    let status = status_after(volume);
    answer(sink, text, status)
}

/// The text that the form writes of the volume as it stands, which is no trace.
fn text_of(alloc: Global, form: Form, volume: &Volume) -> Result<String, NoMemory>
    requires plain { volume.now.crawl ≡ false }
    requires form { form ≢ Form.Trace }
    ensures ok { IfOk result (λ text. string_bytes text ≡ text_of form volume.now.plan volume.now.log) }
{
    match form {
        Form::Run => rounds_report(alloc, volume),
        Form::Trace => unreachable!(),
        Form::Info => info_text(alloc, volume),
        Form::Gen(n) => summary_text(alloc, volume, n),
        Form::Replay(_) => rounds_report(alloc, volume),
    }
}

/// The report of a volume whose healers go their own rounds.
pub fn rounds_report(alloc: Global, volume: &Volume) -> Result<String, NoMemory>
    requires plain { volume.now.crawl ≡ false }
    ensures ok { IfOk result (λ text. string_bytes text ≡ report_of volume.now.plan volume.now.log) }
{
    report_text(alloc, volume)
}

/// The status of a run that is over, where its text is written to its end.
fn status_after(volume: &Volume) -> u8
    requires few { length volume.now.plan.healers ≤ 16 }
    requires plain { volume.now.crawl ≡ false }
    requires complete { IsComplete volume.now.plan volume.now.log }
    ensures two { (result ≡ 0) ⊎ (result ≡ 7) }
    ensures done { result ≡ 0 → AreDone volume.now.plan volume.now.log }
    ensures unfinished { result ≡ 7 → IsFull volume.now.plan volume.now.log × IsWorkLeft volume.now.plan volume.now.log }
    ensures over { IsOver volume.now.plan volume.now.log }
{
    if is_unfinished(volume) {
        Status::Unfinished as u8
    } else {
        Status::Done as u8
    }
}

/// Whether the log was full before all work was done.
fn is_unfinished(volume: &Volume) -> bool
    requires few { length volume.now.plan.healers ≤ 16 }
    requires plain { volume.now.crawl ≡ false }
    requires complete { IsComplete volume.now.plan volume.now.log }
    ensures yes { result ≡ true → IsFull volume.now.plan volume.now.log × IsWorkLeft volume.now.plan volume.now.log }
    ensures no { result ≡ false → AreDone volume.now.plan volume.now.log }
{
    !all_done(volume)
}
