//! The bytes of an image.
ghost use Rattle.std.specs.Prelude.{◌≡◌, ◌++◌, ◌<◌, ◌^◌, IfOk, OnOk, length, map};
ghost use Rattle.afr_image.specs.Images.{HasShortNumbers, image_bytes};
ghost use Rattle.afr_image.specs.Frame.{bytes_with, magic, number_bytes};
ghost use Rattle.afr_image.specs.Logs.{HasShortActors};
ghost use Rattle.afr_image.specs.Steps.{step_of};
ghost use Rattle.afr_plan_print.specs.PrintedPlan.{plan_text};

use crate::frame::MAGIC;
use crate::image::Image;
use crate::recorded::push_lines;
use crate::steps::push_steps;
use afr_base::NoMemory;
use afr_log::Log;
use afr_plan::Plan;
use afr_plan_print::print_plan;
use byteorder::{BigEndian, ByteOrder};
use std::alloc::Global;

/// The bytes of an image whose two numbers are of four bytes. Time and memory are linear in their length.
pub fn print_image(alloc: Global, image: &Image) -> Result<Vec<u8>, NoMemory>
    requires { HasShortNumbers image.now }
    ensures ok { IfOk result (λ bytes. bytes.items ≡ image_bytes image.now) }
{
    let mut out = print_head(alloc, &image.plan, image.steps.len() as u32)?;
    push_steps(&mut out, image.steps.as_slice())?;
    Ok(out)
}

/// The bytes of the image of a plan and a log. No image is made of them.
pub fn print_run(alloc: Global, plan: &Plan, log: &Log) -> Result<Vec<u8>, NoMemory>
    requires text { length (plan_text plan.now) < 2 ^ 32 }
    requires lines { length log.now.items < 2 ^ 32 }
    requires short { HasShortActors log.now.items }
    ensures ok { IfOk result (λ bytes. bytes.items ≡ bytes_with (plan_text plan.now) (map step_of log.now.items)) }
{
    let mut out = print_head(alloc, plan, log.len() as u32)?;
    push_lines(&mut out, log)?;
    Ok(out)
}

/// The bytes before so many steps.
fn print_head(alloc: Global, plan: &Plan, count: u32) -> Result<Vec<u8>, NoMemory>
    requires { length (plan_text plan.now) < 2 ^ 32 }
    ensures ok { IfOk result (λ bytes. bytes.items ≡ magic ++ (number_bytes (length (plan_text plan.now)) ++ (plan_text plan.now ++ number_bytes count))) }
{
    let text = print_plan(alloc, plan)?;
    let mut out = Vec::new(alloc);
    push_magic(&mut out)?;
    push_text(&mut out, text.as_bytes())?;
    push_number(&mut out, count)?;
    Ok(out)
}

#[tactic(auto, unfolding(crate::specs::Frame::magic))]
fn push_magic(out: &mut Vec<u8>) -> Result<(), NoMemory>
    ensures ok { OnOk result (out.new.items ≡ out.old.items ++ magic) }
{
    out.extend_from_slice(&MAGIC)?;
    Ok(())
}

/// Adds a text after the number of its bytes.
fn push_text(out: &mut Vec<u8>, text: &[u8]) -> Result<(), NoMemory>
    requires { length text.now < 2 ^ 32 }
    ensures ok { OnOk result (out.new.items ≡ out.old.items ++ (number_bytes (length text.now) ++ text.now)) }
{
    push_number(out, text.len() as u32)?;
    out.extend_from_slice(text)?;
    Ok(())
}

#[tactic(auto, unfolding(crate::specs::Frame::number_bytes))]
fn push_number(out: &mut Vec<u8>, n: u32) -> Result<(), NoMemory>
    ensures ok { OnOk result (out.new.items ≡ out.old.items ++ number_bytes n) }
{
    let mut bytes = [0; 4];
    BigEndian::write_u32(&mut bytes, n);
    out.extend_from_slice(&bytes)?;
    Ok(())
}
