//! A recorded run, from its image to what is written of it when it was made again.
ghost use Rattle.std.specs.Prelude.{◌≡◌, ◌≢◌, ◌⊎◌, ◌≤◌, ℕ, List, String, length, false};
ghost use Rattle.std.specs.Global.{Global};
ghost use Rattle.std.specs.Io.KnownBytes.{Appends};
ghost use Rattle.afr_text.specs.Causes.{Rose};
ghost use Rattle.afr_text.specs.Parts.{AppendsFront};
ghost use Rattle.afr_law_runnable.specs.Runnable.{IsRunnable};
ghost use Rattle.afr_model.specs.Complete.{IsComplete};
ghost use Rattle.afr_model.specs.ReportHealers.{report_of};
ghost use Rattle.afr_order.specs.Replays.Made.{DiffersAt, HasSteps, Retraces};
ghost use Rattle.afr_rule.specs.Choosing.{IsRule};
ghost use Rattle.afr_volume.specs.Right.{IsChosenBy};
ghost use Rattle.afr_volume.specs.State.{no_volume};
ghost use Rattle.afr_words.specs.Forms.{AskFor};
ghost use Rattle.afr_cli.specs.Replay.{IsDifference, IsImagePlan, IsImageRefusal, Repeats, difference_line, replayed_plan};
ghost use Rattle.afr_cli.specs.Statuses.{AreDone, IsFull, IsOver, IsWorkLeft, StopsWriting};

use crate::imaged::{NoImage, read_recorded};
use crate::messages::{refuse_image, tell_difference};
use crate::running::tell;
use crate::status::Status;
use afr_image::Image;
use afr_order::{Replayed, replay_steps, with_turns};
use afr_rule::{Candidate, Rules};
use afr_text::{Sink, Source};
use afr_volume::Volume;
use afr_words::Form;
use std::alloc::Global;

/// Reads an image from the source, and makes its run again with so many turns; then the report is written, or the line at
/// which it differs.
#[tactic(auto, using(crate::proofs::StatusLemmas::nothing_chosen))]
pub fn read_and_replay<
    S: Source,
    K: Sink,
    F: Fn(&[Candidate]) -> usize,
    G: Fn(&[Candidate]) -> usize,
>(
    alloc: Global,
    turns: u32,
    source: &mut S,
    sink: &mut K,
    volume: &mut Volume,
    rules: &Rules<F, G>,
) -> u8
    requires rule { IsRule F.Fn rules.now.heal }
    requires read_rule { IsRule G.Fn rules.now.read }
    requires some { 1 ≤ turns }
    requires most { turns ≤ 4000000 }
    requires fresh { volume.old ≡ no_volume }
    ensures few { (result ≡ 0) ⊎ (result ≡ 4) ⊎ (result ≡ 5) ⊎ (result ≡ 6) ⊎ (result ≡ 7) ⊎ (result ≡ 9) ⊎ (result ≡ 10) }
    ensures plan { (volume.new ≡ no_volume) ⊎ IsImagePlan turns (S.left source.old) (S.left source.new) volume.new.plan }
    ensures plain { volume.new.crawl ≡ false }
    ensures repeats { (result ≡ 0) ⊎ (result ≡ 7) → Repeats turns (S.left source.old) (S.left source.new) volume.new }
    ensures ok { result ≡ 0 → Appends (K.taken sink.old) (K.taken sink.new) (report_of volume.new.plan volume.new.log) × IsComplete volume.new.plan volume.new.log × AreDone volume.new.plan volume.new.log }
    ensures unfinished { result ≡ 7 → Appends (K.taken sink.old) (K.taken sink.new) (report_of volume.new.plan volume.new.log) × IsFull volume.new.plan volume.new.log × IsWorkLeft volume.new.plan volume.new.log }
    ensures refused { result ≡ 9 → IsImageRefusal turns (S.left source.old) (S.left source.new) (K.taken sink.old) (K.taken sink.new) × (volume.new ≡ no_volume) }
    ensures differs { result ≡ 10 → IsDifference turns (S.left source.old) (S.left source.new) (K.taken sink.old) (K.taken sink.new) volume.new }
    ensures read { result ≡ 4 → Rose (S.faults source.old) (S.faults source.new) × (sink.new ≡ sink.old) × (volume.new ≡ no_volume) }
    ensures write { result ≡ 5 → Rose (K.faults sink.old) (K.faults sink.new)
        × ((words : List (String Global)) → AskFor words (Form.Replay turns) → StopsWriting words S.left source.old source.new (K.taken sink.old) (K.taken sink.new) volume.new) }
    ensures memory { result ≡ 6 → sink.new ≡ sink.old }
    ensures chosen { IsChosenBy F.Fn G.Fn rules.now volume.new }
{
    match read_recorded(alloc, turns, source) {
        Ok(image) => replay_image(alloc, turns, image, sink, volume, rules),
        Err(NoImage::Refused(fault)) => refuse_image(alloc, sink, fault),
        Err(NoImage::ReadFault) => Status::ReadFault as u8,
        Err(NoImage::NoMemory) => Status::NoMemory as u8,
    }
}

/// Makes the run of an image again.
#[tactic(auto, using(crate::proofs::StatusLemmas::nothing_chosen))]
fn replay_image<K: Sink, F: Fn(&[Candidate]) -> usize, G: Fn(&[Candidate]) -> usize>(
    alloc: Global,
    turns: u32,
    image: Image,
    sink: &mut K,
    volume: &mut Volume,
    rules: &Rules<F, G>,
) -> u8
    requires rule { IsRule F.Fn rules.now.heal }
    requires read_rule { IsRule G.Fn rules.now.read }
    requires some { 1 ≤ turns }
    requires most { turns ≤ 4000000 }
    requires runnable { IsRunnable image.plan }
    requires room { length image.steps ≤ turns }
    requires fresh { volume.old ≡ no_volume }
    ensures few { (result ≡ 0) ⊎ (result ≡ 5) ⊎ (result ≡ 6) ⊎ (result ≡ 7) ⊎ (result ≡ 10) }
    ensures plan { (volume.new ≡ no_volume) ⊎ (volume.new.plan ≡ replayed_plan turns image) }
    ensures plain { volume.new.crawl ≡ false }
    ensures ran { result ≢ 6 → volume.new.plan ≡ replayed_plan turns image }
    ensures repeats { (result ≡ 0) ⊎ (result ≡ 7) → Retraces volume.new.plan image.steps volume.new.log × HasSteps image.steps volume.new.log }
    ensures ok { result ≡ 0 → Appends (K.taken sink.old) (K.taken sink.new) (report_of volume.new.plan volume.new.log) × IsComplete volume.new.plan volume.new.log × AreDone volume.new.plan volume.new.log }
    ensures unfinished { result ≡ 7 → Appends (K.taken sink.old) (K.taken sink.new) (report_of volume.new.plan volume.new.log) × IsFull volume.new.plan volume.new.log × IsWorkLeft volume.new.plan volume.new.log }
    ensures differs { result ≡ 10 → (line : ℕ) × DiffersAt volume.new.plan image.steps line volume.new.log × Appends (K.taken sink.old) (K.taken sink.new) (difference_line line) }
    ensures write { result ≡ 5 → Rose (K.faults sink.old) (K.faults sink.new)
        × ((AppendsFront (K.taken sink.old) (K.taken sink.new) (report_of volume.new.plan volume.new.log) × IsComplete volume.new.plan volume.new.log × IsOver volume.new.plan volume.new.log)
        ⊎ ((line : ℕ) × DiffersAt volume.new.plan image.steps line volume.new.log × AppendsFront (K.taken sink.old) (K.taken sink.new) (difference_line line))) }
    ensures memory { result ≡ 6 → sink.new ≡ sink.old }
    ensures chosen { IsChosenBy F.Fn G.Fn rules.now volume.new }
{
    let Image { plan, steps } = image;
    if volume.set_up(with_turns(plan, turns)).is_err() {
        return Status::NoMemory as u8;
    }
    match replay_steps(volume, steps.as_slice(), rules) {
        Ok(Replayed::Same) => {
            volume.every_line();
            tell(alloc, Form::Replay(turns), sink, volume)
        }
        Ok(Replayed::Differs(line)) => tell_difference(alloc, sink, line),
        Err(_) => Status::NoMemory as u8,
    }
}
