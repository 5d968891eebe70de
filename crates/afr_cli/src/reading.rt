//! Reading a plan from a source.
ghost use Rattle.std.specs.Prelude.{◌≡◌, Err, IfOk};
ghost use Rattle.afr_text.specs.Causes.{Rose};
ghost use Rattle.afr_text.specs.Parts.{CameMore};
ghost use Rattle.afr_plan.specs.declared.plan.PlanFault.{PlanFault};
ghost use Rattle.afr_law_runnable.specs.Runnable.{IsRunnable};
ghost use Rattle.afr_cli.specs.Reading.{WasRead};
ghost use Rattle.afr_cli.specs.Statuses.{IsRefused, IsSpelled};

use afr_law_runnable::every_spelled_plan_runs;
use afr_plan::{Plan, PlanFault, PlanStop};
use afr_plan_read::read_plan;
use afr_text::{ReadStop, Source, read_all};
use std::alloc::Global;

/// The longest source, in bytes.
const LIMIT: usize = 16_777_216;

/// The fault of a source that is longer: it stands at no line.
const TOO_LONG: PlanFault = PlanFault { line: 0, code: 0 };

/// Why there is no plan to run.
#[derive(Drop)]
pub enum Unread {
    ReadFault,
    Refused(PlanFault),
    NoMemory,
}

/// Reads the source to its end.
pub fn read_whole<S: Source>(alloc: Global, source: &mut S) -> Result<Vec<u8>, Unread>
    ensures ok { IfOk result (λ bytes. WasRead 16777216 (S.left source.old) (S.left source.new) bytes.items) }
    ensures long { (fault : PlanFault) → result ≡ Err (Unread.Refused fault) → (fault ≡ record { line = 0; code = 0 }) × CameMore (S.left source.old) (S.left source.new) 16777216 }
    ensures read { result ≡ Err Unread.ReadFault → Rose (S.faults source.old) (S.faults source.new) }
{
    match read_all(alloc, source, LIMIT) {
        Ok(bytes) => Ok(bytes),
        Err(ReadStop::ReadFault) => Err(Unread::ReadFault),
        Err(ReadStop::TooLong) => Err(Unread::Refused(TOO_LONG)),
        Err(ReadStop::NoMemory) => Err(Unread::NoMemory),
    }
}

/// Reads the source to its end, as a plan. Every plan that is spelled can be run.
pub fn read_runnable<S: Source>(alloc: Global, source: &mut S) -> Result<Plan, Unread>
    ensures ok { IfOk result (λ plan. IsSpelled (S.left source.old) (S.left source.new) plan) }
    ensures runnable { IfOk result (λ plan. IsRunnable plan) }
    ensures refused { (fault : PlanFault) → result ≡ Err (Unread.Refused fault) → IsRefused (S.left source.old) (S.left source.new) fault }
    ensures read { result ≡ Err Unread.ReadFault → Rose (S.faults source.old) (S.faults source.new) }
{
    let bytes = read_whole(alloc, source)?;
    match read_plan(alloc, &bytes) {
        Ok(plan) => {
            every_spelled_plan_runs();
            Ok(plan)
        }
        Err(PlanStop::Refused(fault)) => Err(Unread::Refused(fault)),
        Err(PlanStop::NoMemory) => Err(Unread::NoMemory),
    }
}
