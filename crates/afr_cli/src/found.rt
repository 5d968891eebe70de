//! What is said of a trace that was checked.
ghost use Rattle.std.specs.Prelude.{◌≡◌, ◌⊎◌, IfOk, string_bytes};
ghost use Rattle.std.specs.Io.KnownBytes.{Appends};
ghost use Rattle.afr_text.specs.Causes.{Rose};
ghost use Rattle.afr_text.specs.Parts.{AppendsFront};
ghost use Rattle.afr_cli.specs.Checking.{finding_line, finding_status, rule_name};

use crate::messages::answer;
use crate::status::Status;
use afr_base::NoMemory;
use afr_text::Sink;
use afr_trace_check::{Finding, Rule};
use std::alloc::Global;

/// Writes the line that tells what was found.
pub fn tell_finding<K: Sink>(alloc: Global, sink: &mut K, found: Finding) -> u8
    ensures few { (result ≡ finding_status found) ⊎ (result ≡ 5) ⊎ (result ≡ 6) }
    ensures told { result ≡ finding_status found → Appends (K.taken sink.old) (K.taken sink.new) (finding_line found) }
    ensures write { result ≡ 5 → Rose (K.faults sink.old) (K.faults sink.new) × AppendsFront (K.taken sink.old) (K.taken sink.new) (finding_line found) }
    ensures memory { result ≡ 6 → sink.new ≡ sink.old }
{
    let status = finding_status(found);
    match finding_text(alloc, found) {
        Ok(text) => answer(sink, text.as_bytes(), status),
        Err(_) => Status::NoMemory as u8,
    }
}

fn finding_status(found: Finding) -> u8
    ensures value { result ≡ finding_status found }
    ensures two { (result ≡ 0) ⊎ (result ≡ 11) }
{
    match found {
        Finding::Yes(_) => Status::Done as u8,
        Finding::No { .. } => Status::Breaks as u8,
    }
}

fn finding_text(alloc: Global, found: Finding) -> Result<String, NoMemory>
    ensures ok { IfOk result (λ text. string_bytes text ≡ finding_line found) }
{
    match found {
        Finding::Yes(count) => yes_text(alloc, count),
        Finding::No { line, rule } => no_text(alloc, line, rule),
    }
}

fn yes_text(alloc: Global, count: u32) -> Result<String, NoMemory>
    ensures ok { IfOk result (λ text. string_bytes text ≡ finding_line (Finding.Yes count)) }
{
    let mut text = String::new(alloc);
    write!(text, "check yes: {count} lines\n")?;
    Ok(text)
}

fn no_text(alloc: Global, line: u32, rule: Rule) -> Result<String, NoMemory>
    ensures ok { IfOk result (λ text. string_bytes text ≡ finding_line (Finding.No line rule)) }
{
    let name = rule_name(rule);
    let mut text = String::new(alloc);
    write!(text, "check no: line {line}, {name}\n")?;
    Ok(text)
}

fn rule_name(rule: Rule) -> &'static str
    ensures { result.now ≡ rule_name rule }
{
    match rule {
        Rule::Text => "text",
        Rule::Follows => "follows",
        Rule::Honest => "honest",
        Rule::Blamed => "blamed",
        Rule::Safe => "safe",
    }
}
