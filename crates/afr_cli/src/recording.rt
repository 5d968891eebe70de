//! What is written of a run by threads, and of a crawl.
ghost use Rattle.std.specs.Prelude.{◌≡◌, ◌⊎◌, ◌≤◌, ◌<◌, ◌^◌, IfOk, length, false, string_bytes, true};
ghost use Rattle.std.specs.Io.KnownBytes.{Appends};
ghost use Rattle.afr_text.specs.Causes.{Rose};
ghost use Rattle.afr_text.specs.Parts.{AppendsFront};
ghost use Rattle.afr_model.specs.Complete.{IsComplete};
ghost use Rattle.afr_plan_print.specs.PrintedPlan.{plan_text};
ghost use Rattle.afr_report.specs.Workers.{report_for};
ghost use Rattle.afr_cli.specs.Crawl.{crawls};
ghost use Rattle.afr_cli.specs.Live.{image_text, text_live};
ghost use Rattle.afr_cli.specs.Statuses.{AreDone, IsFull, IsOver, IsWorkLeft};

use crate::running::{finish, rounds_report};
use crate::status::Status;
use afr_base::NoMemory;
use afr_image::print_run;
use afr_report::report_text;
use afr_text::Sink;
use afr_volume::Volume;
use afr_words::LiveForm;
use std::alloc::Global;

/// Writes the text of the form of a run by threads that is over, and answers how it ended.
pub fn tell_live<K: Sink>(alloc: Global, form: LiveForm, sink: &mut K, volume: &Volume) -> u8
    requires short { length (plan_text volume.now.plan) < 2 ^ 32 }
    requires actors { length volume.now.plan.healers ≤ 16 }
    requires form { volume.now.crawl ≡ crawls form }
    requires plain { volume.now.crawl ≡ false }
    requires complete { IsComplete volume.now.plan volume.now.log }
    ensures few { (result ≡ 0) ⊎ (result ≡ 5) ⊎ (result ≡ 6) ⊎ (result ≡ 7) }
    ensures ok { result ≡ 0 → AreDone volume.now.plan volume.now.log }
    ensures unfinished { result ≡ 7 → Appends (K.taken sink.old) (K.taken sink.new) (text_live form volume.now.plan volume.now.log)
        × IsFull volume.now.plan volume.now.log × IsWorkLeft volume.now.plan volume.now.log }
    ensures text { result ≡ 0 → Appends (K.taken sink.old) (K.taken sink.new) (text_live form volume.now.plan volume.now.log) }
    ensures write { result ≡ 5 → Rose (K.faults sink.old) (K.faults sink.new) × AppendsFront (K.taken sink.old) (K.taken sink.new) (text_live form volume.now.plan volume.now.log)
        × IsOver volume.now.plan volume.now.log }
    ensures memory { result ≡ 6 → sink.new ≡ sink.old }
{
    match text_live(alloc, form, volume) {
        Ok(text) => finish(sink, text.as_slice(), volume),
        Err(_) => Status::NoMemory as u8,
    }
}

/// The text that the form writes of the volume as it stands.
pub fn text_live(alloc: Global, form: LiveForm, volume: &Volume) -> Result<Vec<u8>, NoMemory>
    requires printed { length (plan_text volume.now.plan) < 2 ^ 32 }
    requires form { volume.now.crawl ≡ crawls form }
    ensures ok { IfOk result (λ text. text.items ≡ text_live form volume.now.plan volume.now.log) }
{
    match form {
        LiveForm::Live => Ok(rounds_report(alloc, volume)?.into_bytes()),
        LiveForm::Crawl => Ok(crawl_report(alloc, volume)?.into_bytes()),
        LiveForm::Record => image_text(alloc, volume),
    }
}

/// The report of a volume whose healers crawl.
fn crawl_report(alloc: Global, volume: &Volume) -> Result<String, NoMemory>
    requires crawl { volume.now.crawl ≡ true }
    ensures ok { IfOk result (λ text. string_bytes text ≡ report_for true volume.now.plan volume.now.log) }
{
    report_text(alloc, volume)
}

/// The bytes of the image of the volume as it stands.
fn image_text(alloc: Global, volume: &Volume) -> Result<Vec<u8>, NoMemory>
    requires printed { length (plan_text volume.now.plan) < 2 ^ 32 }
    requires plain { volume.now.crawl ≡ false }
    ensures ok { IfOk result (λ text. text.items ≡ image_text volume.now.plan volume.now.log) }
{
    volume.every_line();
    print_run(alloc, volume.plan(), volume.lines())
}
