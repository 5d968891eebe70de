//! A plan and a trace, from the source to what is said of the trace.
ghost use Rattle.std.specs.Prelude.{◌≡◌, ◌⊎◌, ◌≤◌, List, Err, IfOk, String, drop, length};
ghost use Rattle.std.specs.Global.{Global};
ghost use Rattle.std.specs.Io.KnownBytes.{Appends};
ghost use Rattle.afr_text.specs.Causes.{Rose};
ghost use Rattle.afr_law_runnable.specs.Runnable.{IsRunnable};
ghost use Rattle.afr_plan.specs.declared.plan.PlanFault.{PlanFault};
ghost use Rattle.afr_volume.specs.State.{State, no_volume};
ghost use Rattle.afr_words.specs.Forms.{AskCheck};
ghost use Rattle.afr_cli.specs.Checking.{IsChecked, IsGivenTrace, IsPartRefused, IsToldOf, StopsTelling};
ghost use Rattle.afr_cli.specs.Statuses.{StopsWriting, refusal_line};

use crate::found::tell_finding;
use crate::messages::{PAST_LIMIT, answer, refuse};
use crate::parts::plan_len;
use crate::reading::{Unread, read_whole};
use crate::status::Status;
use afr_law_runnable::every_spelled_plan_runs;
use afr_plan::{Plan, PlanStop};
use afr_plan_read::read_plan;
use afr_text::{Sink, Source};
use afr_trace_check::{CheckStop, check};
use std::alloc::Global;

/// A plan, and the bytes that it was read from: its part comes first, and the trace follows.
#[derive(Drop)]
pub struct Traced {
    pub plan: Plan,
    pub bytes: Vec<u8>,
    pub plan_len: usize,
}

/// Reads a plan and a trace from the source, and writes what is said of the trace. Nothing is run.
pub fn read_and_check<S: Source, K: Sink>(alloc: Global, source: &mut S, sink: &mut K) -> u8
    ensures few { (result ≡ 0) ⊎ (result ≡ 3) ⊎ (result ≡ 4) ⊎ (result ≡ 5) ⊎ (result ≡ 6) ⊎ (result ≡ 11) ⊎ (result ≡ 12) }
    ensures checked { (result ≡ 0) ⊎ (result ≡ 11) ⊎ (result ≡ 12) → IsChecked (S.left source.old) (S.left source.new) (K.taken sink.old) (K.taken sink.new) result }
    ensures refused { result ≡ 3 → (fault : PlanFault) × IsPartRefused (S.left source.old) (S.left source.new) fault × Appends (K.taken sink.old) (K.taken sink.new) (refusal_line fault) }
    ensures read { result ≡ 4 → Rose (S.faults source.old) (S.faults source.new) × (sink.new ≡ sink.old) }
    ensures write { result ≡ 5 → Rose (K.faults sink.old) (K.faults sink.new)
        × ((words : List (String Global)) (now : State) → AskCheck words → now ≡ no_volume → StopsWriting words S.left source.old source.new (K.taken sink.old) (K.taken sink.new) now) }
    ensures memory { result ≡ 6 → sink.new ≡ sink.old }
{
    match read_traced(alloc, source) {
        Ok(traced) => check_traced(alloc, &traced, sink),
        Err(Unread::Refused(fault)) => refuse(alloc, sink, fault),
        Err(Unread::ReadFault) => Status::ReadFault as u8,
        Err(Unread::NoMemory) => Status::NoMemory as u8,
    }
}

/// Reads the source to its end, as a plan and a trace. The plan could be run.
fn read_traced<S: Source>(alloc: Global, source: &mut S) -> Result<Traced, Unread>
    ensures ok { IfOk result (λ traced. IsGivenTrace (S.left source.old) (S.left source.new) traced.plan (drop traced.plan_len traced.bytes.items)) }
    ensures room { IfOk result (λ traced. traced.plan_len ≤ length traced.bytes.items) }
    ensures runnable { IfOk result (λ traced. IsRunnable traced.plan) }
    ensures refused { (fault : PlanFault) → result ≡ Err (Unread.Refused fault) → IsPartRefused (S.left source.old) (S.left source.new) fault }
    ensures read { result ≡ Err Unread.ReadFault → Rose (S.faults source.old) (S.faults source.new) }
{
    let bytes = read_whole(alloc, source)?;
    let plan_len = plan_len(&bytes);
    let (part, _trace) = bytes.split_at(plan_len);
    match read_plan(alloc, part) {
        Ok(plan) => {
            every_spelled_plan_runs();
            Ok(Traced {
                plan,
                bytes,
                plan_len,
            })
        }
        Err(PlanStop::Refused(fault)) => Err(Unread::Refused(fault)),
        Err(PlanStop::NoMemory) => Err(Unread::NoMemory),
    }
}

/// Checks a trace, and writes what is said of it.
fn check_traced<K: Sink>(alloc: Global, traced: &Traced, sink: &mut K) -> u8
    requires room { traced.now.plan_len ≤ length traced.now.bytes.items }
    requires runnable { IsRunnable traced.now.plan }
    ensures few { (result ≡ 0) ⊎ (result ≡ 5) ⊎ (result ≡ 6) ⊎ (result ≡ 11) ⊎ (result ≡ 12) }
    ensures told { (result ≡ 0) ⊎ (result ≡ 11) ⊎ (result ≡ 12)
        → IsToldOf traced.now.plan (drop traced.now.plan_len traced.now.bytes.items) result (K.taken sink.old) (K.taken sink.new) }
    ensures write { result ≡ 5 → Rose (K.faults sink.old) (K.faults sink.new)
        × StopsTelling traced.now.plan (drop traced.now.plan_len traced.now.bytes.items) (K.taken sink.old) (K.taken sink.new) }
    ensures memory { result ≡ 6 → sink.new ≡ sink.old }
{
    let (_part, trace) = traced.bytes.split_at(traced.plan_len);
    match check(alloc, &traced.plan, trace) {
        Ok(found) => tell_finding(alloc, sink, found),
        Err(CheckStop::Limit) => answer(sink, PAST_LIMIT, Status::PastLimit as u8),
        Err(CheckStop::NoMemory) => Status::NoMemory as u8,
    }
}
