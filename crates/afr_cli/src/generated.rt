//! A generated load, from its number to what is written of it.
ghost use Rattle.std.specs.Prelude.{◌≡◌, ◌≢◌, ◌⊎◌, ◌≤◌, false};
ghost use Rattle.std.specs.Io.KnownBytes.{Appends};
ghost use Rattle.afr_text.specs.Causes.{Rose};
ghost use Rattle.afr_text.specs.Parts.{AppendsFront};
ghost use Rattle.afr_gen.specs.Generated.{generated};
ghost use Rattle.afr_model.specs.Complete.{IsComplete};
ghost use Rattle.afr_model.specs.Ordered.{IsOrdered};
ghost use Rattle.afr_rule.specs.Choosing.{IsRule};
ghost use Rattle.afr_volume.specs.Right.{IsChosenBy};
ghost use Rattle.afr_volume.specs.State.{no_volume};
ghost use Rattle.afr_cli.specs.Forms.{text_of};
ghost use Rattle.afr_cli.specs.Statuses.{AreDone, IsOver};

use crate::running::run_plan;
use crate::status::Status;
use afr_gen::{gen_plan, generated_plans_are_runnable};
use afr_rule::{Candidate, Rules};
use afr_text::Sink;
use afr_volume::Volume;
use afr_words::Form;
use std::alloc::Global;

/// Makes the plan of the generated load of number `n`, and runs it; then its summary is written. The plan has more turns than
/// its bound, so all work is done.
#[tactic(auto, using(crate::proofs::StatusLemmas::nothing_chosen, crate::proofs::StatusLemmas::nothing_ordered))]
pub fn make_and_run<K: Sink, F: Fn(&[Candidate]) -> usize, G: Fn(&[Candidate]) -> usize>(
    alloc: Global,
    n: u32,
    sink: &mut K,
    volume: &mut Volume,
    rules: &Rules<F, G>,
) -> u8
    requires rule { IsRule F.Fn rules.now.heal }
    requires read_rule { IsRule G.Fn rules.now.read }
    requires some { 1 ≤ n }
    requires few { n ≤ 2000 }
    requires fresh { volume.old ≡ no_volume }
    ensures few { (result ≡ 0) ⊎ (result ≡ 5) ⊎ (result ≡ 6) }
    ensures plan { (volume.new ≡ no_volume) ⊎ (volume.new.plan ≡ generated n) }
    ensures plain { volume.new.crawl ≡ false }
    ensures ran { result ≢ 6 → volume.new.plan ≡ generated n }
    ensures ordered { IsOrdered volume.new.plan volume.new.log }
    ensures ok { result ≡ 0 → IsComplete volume.new.plan volume.new.log × AreDone volume.new.plan volume.new.log }
    ensures text { result ≡ 0 → Appends (K.taken sink.old) (K.taken sink.new) (text_of (Form.Gen n) volume.new.plan volume.new.log) }
    ensures write { result ≡ 5 → Rose (K.faults sink.old) (K.faults sink.new) × AppendsFront (K.taken sink.old) (K.taken sink.new) (text_of (Form.Gen n) volume.new.plan volume.new.log)
        × IsComplete volume.new.plan volume.new.log × IsOver volume.new.plan volume.new.log }
    ensures memory { result ≡ 6 → sink.new ≡ sink.old }
    ensures chosen { IsChosenBy F.Fn G.Fn rules.now volume.new }
{
    match gen_plan(alloc, n) {
        Ok(plan) => {
            generated_plans_are_runnable();
            run_plan(alloc, Form::Gen(n), plan, sink, volume, rules)
        }
        Err(_) => Status::NoMemory as u8,
    }
}
