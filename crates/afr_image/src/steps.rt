//! The steps of an image, as bytes and back.
ghost use Rattle.std.specs.Prelude.{◌≡◌, ◌+◌, ◌*◌, ◌<◌, ◌≤◌, ◌++◌, ◌∷◌, ◌^◌, [], Err, None, Some, IfOk, OnOk, length, slice_index, vec_capacity, vec_len};
ghost use Rattle.afr_image.specs.Frame.{step_fault};
ghost use Rattle.afr_image.specs.Steps.{first_bad, step_bytes, steps_bytes, steps_in};
ghost use Rattle.afr_image.specs.declared.image.ImageFault.{ImageFault};

use crate::frame::STEP;
use crate::image::{ImageFault, ImageStop, StepList, codes};
use crate::step::{Step, is_step};
use afr_base::NoMemory;
use std::alloc::Global;

/// The steps that bytes are, the first of which stands at a place of an image; or the place of the first that no line can have.
pub(crate) fn read_steps(
    alloc: Global,
    bytes: &[u8],
    count: u32,
    first: u32,
) -> Result<StepList, ImageStop>
    requires whole { length bytes.now ≡ 3 * count }
    requires fits { first + 3 * count < 2 ^ 32 }
    ensures steps { IfOk result (λ steps. steps ≡ steps_in bytes.now) }
    ensures good { OnOk result (step_fault first (first_bad (steps_in bytes.now)) ≡ None) }
    ensures refused { (fault : ImageFault) → result ≡ Err (ImageStop.Refused fault) → step_fault first (first_bad (steps_in bytes.now)) ≡ Some fault }
{
    let mut steps = room_for(alloc, count)?;
    for i in 0..count {
        let at = STEP * i as usize;
        let step = step_in(bytes, at);
        if !is_step(step) {
            return Err(ImageStop::Refused(ImageFault {
                at: first + at as u32,
                code: codes::STEP,
            }));
        }
        keep(&mut steps, step)?;
    }
    Ok(StepList::from_vec(steps))
}

fn room_for(alloc: Global, count: u32) -> Result<Vec<Step>, NoMemory>
    ensures { IfOk result (λ steps. steps.items ≡ []) }
{
    Ok(Vec::with_capacity(alloc, count as usize)?)
}

fn keep(steps: &mut Vec<Step>, step: Step) -> Result<(), NoMemory>
    ensures { OnOk result (steps.new.items ≡ steps.old.items ++ step ∷ []) }
{
    steps.push(step)?;
    Ok(())
}

/// The three bytes from a place on, as a step.
fn step_in(bytes: &[u8], at: usize) -> Step
    requires { at + 3 ≤ length bytes.now }
    ensures { result ≡ record { who = slice_index bytes.now at; brick = slice_index bytes.now (at + 1); code = slice_index bytes.now (at + 2) } }
{
    Step {
        who: bytes[at],
        brick: bytes[at + 1],
        code: bytes[at + 2],
    }
}

/// Adds the bytes of all steps. Room for them is made first.
pub(crate) fn push_steps(out: &mut Vec<u8>, steps: &[Step]) -> Result<(), NoMemory>
    requires { length steps.now < 2 ^ 32 }
    ensures ok { OnOk result (out.new.items ≡ out.old.items ++ steps_bytes steps.now) }
{
    out.try_reserve(STEP * steps.len())?;
    for step in steps {
        push_step(out, *step);
    }
    Ok(())
}

/// Adds the bytes of a step, for which there is room.
pub(crate) fn push_step(out: &mut Vec<u8>, step: Step)
    requires { vec_len out.old + 3 ≤ vec_capacity out.old }
    ensures items { out.new.items ≡ out.old.items ++ step_bytes step }
    ensures len { vec_len out.new ≡ vec_len out.old + 3 }
    ensures capacity { vec_capacity out.new ≡ vec_capacity out.old }
{
    out.push_reserved(step.who);
    out.push_reserved(step.brick);
    out.push_reserved(step.code);
}
