//! Reading an image.
ghost use Rattle.std.specs.Prelude.{◌≡◌, ◌⊎◌, ◌-◌, ◌<◌, ◌≤◌, ◌^◌, ℕ, List, Ok, Err, None, Option, Some, IfOk, length};
ghost use Rattle.std.specs.Bool.{Decides};
ghost use Rattle.afr_plan.specs.Spells.{Spells};
ghost use Rattle.afr_image.specs.Frames.{IsFramed};
ghost use Rattle.afr_image.specs.Answers.{Answers};
ghost use Rattle.afr_image.specs.Images.{IsImageOf, is_over};
ghost use Rattle.afr_image.specs.Refusals.{IsNoPlanText, IsPlanText, IsRefused};
ghost use Rattle.afr_image.specs.Frame.{refusal};
ghost use Rattle.afr_image.specs.declared.image.Image.{Image as TheImage};
ghost use Rattle.afr_image.specs.declared.image.ImageFault.{ImageFault as TheFault};

use crate::frame::{Frame, NUMBER, TEXT_AT, frame_of};
use crate::image::{Image, ImageFault, ImageStop, codes};
use crate::steps::read_steps;
use afr_plan::{Plan, PlanStop};
use afr_plan_print::print_plan;
use afr_plan_read::{one_plan_for_a_text, read_plan};
use std::alloc::Global;

/// The text is that of no plan.
const NO_PLAN: ImageFault = ImageFault {
    at: TEXT_AT as u32,
    code: codes::PLAN,
};

/// The image that bytes stand for, or the first reason for which they stand for none. Memory is linear in their length and in
/// the data that the plan stands for; so is time, but for chance, as at a plan.
pub fn read_image(alloc: Global, bytes: &[u8]) -> Result<Image, ImageStop>
    requires { length bytes.now < 2 ^ 32 }
    ensures read { IfOk result (λ image. IsImageOf None bytes.now image) }
    ensures again { (image : TheImage) → IsImageOf None bytes.now image → (result ≡ Ok image) ⊎ (result ≡ Err ImageStop.NoMemory) }
    ensures refused { (fault : TheFault) → result ≡ Err (ImageStop.Refused fault) → IsRefused None bytes.now fault }
    ensures exact { (fault : TheFault) → IsRefused None bytes.now fault → (result ≡ Err (ImageStop.Refused fault)) ⊎ (result ≡ Err ImageStop.NoMemory) }
{
    read_within(alloc, bytes, None)
}

/// The same for a run of at most so many turns: more steps are refused where more than the plan's own turns are.
pub fn read_image_for(alloc: Global, bytes: &[u8], turns: u32) -> Result<Image, ImageStop>
    requires { length bytes.now < 2 ^ 32 }
    ensures read { IfOk result (λ image. IsImageOf (Some turns) bytes.now image) }
    ensures again { (image : TheImage) → IsImageOf (Some turns) bytes.now image → (result ≡ Ok image) ⊎ (result ≡ Err ImageStop.NoMemory) }
    ensures refused { (fault : TheFault) → result ≡ Err (ImageStop.Refused fault) → IsRefused (Some turns) bytes.now fault }
    ensures exact { (fault : TheFault) → IsRefused (Some turns) bytes.now fault → (result ≡ Err (ImageStop.Refused fault)) ⊎ (result ≡ Err ImageStop.NoMemory) }
{
    read_within(alloc, bytes, Some(turns))
}

/// Bytes stand for at most one image, and have at most one fault; they don't stand for an image and have a fault.
pub fn one_image_for_bytes()
    ensures same { (most : Option ℕ) (bytes : List ℕ) (image other : TheImage) → IsImageOf most bytes image → IsImageOf most bytes other → image ≡ other }
    ensures once { (most : Option ℕ) (bytes : List ℕ) (fault other : TheFault) → IsRefused most bytes fault → IsRefused most bytes other → fault ≡ other }
    ensures never { (most : Option ℕ) (bytes : List ℕ) (image : TheImage) (fault : TheFault) → IsImageOf most bytes image → IsRefused most bytes fault → ⊥ }
{
    one_plan_for_a_text();
}

fn read_within(alloc: Global, bytes: &[u8], most: Option<u32>) -> Result<Image, ImageStop>
    requires { length bytes.now < 2 ^ 32 }
    ensures read { IfOk result (λ image. IsImageOf most bytes.now image) }
    ensures again { (image : TheImage) → IsImageOf most bytes.now image → (result ≡ Ok image) ⊎ (result ≡ Err ImageStop.NoMemory) }
    ensures refused { (fault : TheFault) → result ≡ Err (ImageStop.Refused fault) → IsRefused most bytes.now fault }
    ensures exact { (fault : TheFault) → IsRefused most bytes.now fault → (result ≡ Err (ImageStop.Refused fault)) ⊎ (result ≡ Err ImageStop.NoMemory) }
{
    one_plan_for_a_text();
    answer_of(alloc, bytes, most)
}

/// The parts in their order: the frame, the plan, the number of steps, the steps.
fn answer_of(alloc: Global, bytes: &[u8], most: Option<u32>) -> Result<Image, ImageStop>
    requires { length bytes.now < 2 ^ 32 }
    ensures { Answers most bytes.now result }
{
    match frame_of(bytes) {
        Ok(frame) => image_in(alloc, bytes, &frame, most),
        Err(fault) => Err(ImageStop::Refused(fault)),
    }
}

/// The plan of the text, and what follows it.
fn image_in(
    alloc: Global,
    bytes: &[u8],
    frame: &Frame<'_>,
    most: Option<u32>,
) -> Result<Image, ImageStop>
    requires short { length bytes.now < 2 ^ 32 }
    requires framed { IsFramed bytes.now frame.now.text.now frame.now.count frame.now.steps.now }
    ensures { Answers most bytes.now result }
{
    match plan_in(alloc, frame.text) {
        Ok(plan) => with_steps(alloc, bytes, frame, most, plan),
        Err(stop) => Err(stop),
    }
}

/// The steps, where they aren't too many.
fn with_steps(
    alloc: Global,
    bytes: &[u8],
    frame: &Frame<'_>,
    most: Option<u32>,
    plan: Plan,
) -> Result<Image, ImageStop>
    requires short { length bytes.now < 2 ^ 32 }
    requires framed { IsFramed bytes.now frame.now.text.now frame.now.count frame.now.steps.now }
    requires text { IsPlanText frame.now.text.now plan }
    ensures { Answers most bytes.now result }
{
    let steps_at = place_of(bytes, frame.steps);
    if is_over(most, plan.turns, frame.count) {
        return Err(ImageStop::Refused(ImageFault {
            at: steps_at - NUMBER as u32,
            code: codes::TURNS,
        }));
    }
    match read_steps(alloc, frame.steps, frame.count, steps_at) {
        Ok(steps) => Ok(Image { plan, steps }),
        Err(stop) => Err(stop),
    }
}

/// Where the last of some bytes begin.
fn place_of(bytes: &[u8], last: &[u8]) -> u32
    requires short { length bytes.now < 2 ^ 32 }
    requires within { length last.now ≤ length bytes.now }
    ensures { result ≡ length bytes.now - length last.now }
{
    (bytes.len() - last.len()) as u32
}

/// The plan that a text spells, where it is printed as this text.
fn plan_in(alloc: Global, text: &[u8]) -> Result<Plan, ImageStop>
    ensures read { IfOk result (λ plan. IsPlanText text.now plan) }
    ensures refused { (fault : TheFault) → result ≡ Err (ImageStop.Refused fault) → IsNoPlanText text.now × (fault ≡ refusal 12 13) }
{
    match read_plan(alloc, text) {
        Ok(plan) => as_printed(alloc, text, plan),
        Err(PlanStop::Refused(_)) => Err(ImageStop::Refused(NO_PLAN)),
        Err(PlanStop::NoMemory) => Err(ImageStop::NoMemory),
    }
}

/// The plan, where it is printed as the text that spells it.
fn as_printed(alloc: Global, text: &[u8], plan: Plan) -> Result<Plan, ImageStop>
    requires { Spells text.now plan }
    ensures read { IfOk result (λ plan. IsPlanText text.now plan) }
    ensures refused { (fault : TheFault) → result ≡ Err (ImageStop.Refused fault) → IsNoPlanText text.now × (fault ≡ refusal 12 13) }
{
    one_plan_for_a_text();
    let Ok(printed) = print_plan(alloc, &plan) else {
        return Err(ImageStop::NoMemory);
    };
    if are_same(printed.as_bytes(), text) {
        return Ok(plan);
    }
    Err(ImageStop::Refused(NO_PLAN))
}

fn are_same(printed: &[u8], text: &[u8]) -> bool
    ensures { Decides result (printed.now ≡ text.now) }
{
    printed == text
}

/// Whether there are more steps than turns of the plan, or than so many.
fn is_over(most: Option<u32>, turns: u32, steps: u32) -> bool
    ensures { result ≡ is_over most turns steps }
{
    match most {
        None => turns < steps,
        Some(most) => turns < steps || most < steps,
    }
}
