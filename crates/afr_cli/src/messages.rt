//! What goes to the sink, and the status that it gives.
ghost use Rattle.std.specs.Prelude.{◌≡◌, ◌≢◌, ◌⊎◌, IfOk, string_bytes};
ghost use Rattle.std.specs.Io.KnownBytes.{Appends};
ghost use Rattle.afr_text.specs.Causes.{Rose};
ghost use Rattle.afr_text.specs.Parts.{AppendsFront};
ghost use Rattle.afr_cli.specs.Replay.{difference_line, image_code_name, image_refusal_line};
ghost use Rattle.afr_cli.specs.Statuses.{name_of, refusal_line};

use crate::status::Status;
use afr_base::NoMemory;
use afr_image::ImageFault;
use afr_plan::PlanFault;
use afr_text::{Sink, write_all};
use std::alloc::Global;

/// The line that tells how the program is called.
pub const USAGE: &[u8] =
    b"usage: afr run | trace | info | gen N | live | crawl | record | replay T | check\n";

/// The line that refuses a plan that can't be crawled.
pub const CRAWL_REFUSED: &[u8] = b"crawl refused: healers\n";

/// The line that tells that a check is past its limit.
pub const PAST_LIMIT: &[u8] = b"check limit\n";

/// Writes a text, and answers the status, or 5 where the sink failed.
pub fn answer<K: Sink>(sink: &mut K, text: &[u8], status: u8) -> u8
    requires { status ≢ 5 }
    ensures whole { result ≢ 5 → (result ≡ status) × Appends (K.taken sink.old) (K.taken sink.new) text.now }
    ensures fault { result ≡ 5 → Rose (K.faults sink.old) (K.faults sink.new) × AppendsFront (K.taken sink.old) (K.taken sink.new) text.now }
{
    match write_all(sink, text) {
        Ok(()) => status,
        Err(_) => Status::WriteFault as u8,
    }
}

/// Writes the line that refuses a plan.
pub fn refuse<K: Sink>(alloc: Global, sink: &mut K, fault: PlanFault) -> u8
    ensures few { (result ≡ 3) ⊎ (result ≡ 5) ⊎ (result ≡ 6) }
    ensures refused { result ≡ 3 → Appends (K.taken sink.old) (K.taken sink.new) (refusal_line fault) }
    ensures write { result ≡ 5 → Rose (K.faults sink.old) (K.faults sink.new) × AppendsFront (K.taken sink.old) (K.taken sink.new) (refusal_line fault) }
    ensures memory { result ≡ 6 → sink.new ≡ sink.old }
{
    match refusal_text(alloc, fault) {
        Ok(text) => answer(sink, text.as_bytes(), Status::Refused as u8),
        Err(_) => Status::NoMemory as u8,
    }
}

fn refusal_text(alloc: Global, fault: PlanFault) -> Result<String, NoMemory>
    ensures ok { IfOk result (λ text. string_bytes text ≡ refusal_line fault) }
{
    let PlanFault { line, code } = fault;
    let name = name_of(code);
    let mut text = String::new(alloc);
    write!(text, "plan refused: line {line}, code {code} {name}\n")?;
    Ok(text)
}

fn name_of(code: u8) -> &'static str
    ensures { result.now ≡ name_of code }
{
    match code {
        0 => "long",
        1 => "byte",
        2 => "unended",
        3 => "head",
        4 => "word",
        5 => "form",
        6 => "range",
        7 => "order",
        8 => "total",
        _ => "end",
    }
}

/// Writes the line that refuses an image.
pub fn refuse_image<K: Sink>(alloc: Global, sink: &mut K, fault: ImageFault) -> u8
    ensures few { (result ≡ 9) ⊎ (result ≡ 5) ⊎ (result ≡ 6) }
    ensures refused { result ≡ 9 → Appends (K.taken sink.old) (K.taken sink.new) (image_refusal_line fault) }
    ensures write { result ≡ 5 → Rose (K.faults sink.old) (K.faults sink.new) × AppendsFront (K.taken sink.old) (K.taken sink.new) (image_refusal_line fault) }
    ensures memory { result ≡ 6 → sink.new ≡ sink.old }
{
    match image_refusal_text(alloc, fault) {
        Ok(text) => answer(sink, text.as_bytes(), Status::ImageRefused as u8),
        Err(_) => Status::NoMemory as u8,
    }
}

fn image_refusal_text(alloc: Global, fault: ImageFault) -> Result<String, NoMemory>
    ensures ok { IfOk result (λ text. string_bytes text ≡ image_refusal_line fault) }
{
    let ImageFault { at, code } = fault;
    let name = image_code_name(code);
    let mut text = String::new(alloc);
    write!(text, "image refused: at {at}, code {code} {name}\n")?;
    Ok(text)
}

fn image_code_name(code: u8) -> &'static str
    ensures { result.now ≡ image_code_name code }
{
    match code {
        0 => "long",
        11 => "magic",
        12 => "short",
        13 => "plan",
        14 => "step",
        15 => "tail",
        _ => "turns",
    }
}

/// Writes the line that tells at which line a replay differs from its image.
pub fn tell_difference<K: Sink>(alloc: Global, sink: &mut K, line: u32) -> u8
    ensures few { (result ≡ 10) ⊎ (result ≡ 5) ⊎ (result ≡ 6) }
    ensures told { result ≡ 10 → Appends (K.taken sink.old) (K.taken sink.new) (difference_line line) }
    ensures write { result ≡ 5 → Rose (K.faults sink.old) (K.faults sink.new) × AppendsFront (K.taken sink.old) (K.taken sink.new) (difference_line line) }
    ensures memory { result ≡ 6 → sink.new ≡ sink.old }
{
    match difference_text(alloc, line) {
        Ok(text) => answer(sink, text.as_bytes(), Status::Differs as u8),
        Err(_) => Status::NoMemory as u8,
    }
}

fn difference_text(alloc: Global, line: u32) -> Result<String, NoMemory>
    ensures ok { IfOk result (λ text. string_bytes text ≡ difference_line line) }
{
    let mut text = String::new(alloc);
    write!(text, "replay differs: line {line}\n")?;
    Ok(text)
}
