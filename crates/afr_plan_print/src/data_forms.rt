//! Data as a plan writes it, in the shortest of three forms.
ghost use Rattle.std.specs.Prelude.{◌≡◌, ◌++◌, ◌==◌, ◌≤◌, ℕ, List, OnOk, Some, length, string_bytes, true};
ghost use Rattle.std.specs.List.{list_all};
ghost use Rattle.afr_plan.specs.Data.{IsData};
ghost use Rattle.afr_plan_print.specs.PrintedData.{data_text, fill_form, hex_form, is_text_data, only_byte, text_form};
ghost use Rattle.afr_plan_print.specs.DataForm.{form_text, is_fill_shorter, picked, plain_form};

use crate::words::as_text;
use afr_base::NoMemory;
use std::alloc::Global;

/// How data is written. A fill names its one byte.
#[derive(Clone, Copy)]
enum Form {
    Text,
    Hex,
    Fill(u8),
}

/// What is printed of data spells it, and no word that spells it is shorter.
pub fn no_word_of_data_is_shorter()
    ensures spelled { (word bytes : List ℕ) → IsData word bytes → length bytes ≤ 65536 → IsData (data_text bytes) bytes }
    ensures short { (word bytes : List ℕ) → IsData word bytes → length bytes ≤ 65536 → length (data_text bytes) ≤ length word }
{}

/// Adds bytes in the shortest form that spells them.
pub(crate) fn push_data(alloc: Global, out: &mut String, bytes: &[u8]) -> Result<(), NoMemory>
    ensures ok { OnOk result (string_bytes out.new ≡ string_bytes out.old ++ data_text bytes.now) }
{
    match form_of(bytes) {
        Form::Text => push_text(out, bytes),
        Form::Hex => push_hex(alloc, out, bytes),
        Form::Fill(byte) => push_fill(alloc, out, bytes.len(), byte),
    }
}

/// The shortest form, and of equally short ones the first.
fn form_of(bytes: &[u8]) -> Form
    ensures shortest { form_text result bytes.now ≡ data_text bytes.now }
    ensures text { result ≡ Form.Text → is_text_data bytes.now ≡ true }
{
    picked(is_text(bytes), only_byte(bytes), bytes.len())
}

fn picked(text: bool, byte: Option<u8>, count: usize) -> Form
    ensures { result ≡ picked text byte count }
{
    match byte {
        Some(byte) => filled_or(text, byte, count),
        None => plain_form(text),
    }
}

fn filled_or(text: bool, byte: u8, count: usize) -> Form
    ensures { result ≡ picked text (Some byte) count }
{
    if is_fill_shorter(text, count) {
        Form::Fill(byte)
    } else {
        plain_form(text)
    }
}

fn plain_form(text: bool) -> Form
    ensures { result ≡ plain_form text }
{
    if text { Form::Text } else { Form::Hex }
}

/// Whether a fill is shorter than the other form. With a count of one digit it has nine bytes.
fn is_fill_shorter(text: bool, count: usize) -> bool
    ensures { result ≡ is_fill_shorter text count }
{
    if text { 8 <= count } else { 3 <= count }
}

fn is_text(bytes: &[u8]) -> bool
    ensures { result ≡ is_text_data bytes.now }
{
    bytes.iter().all(|b| b' ' <= *b && *b <= b'~' && *b != b'"')
}

fn are_all(bytes: &[u8], byte: u8) -> bool
    ensures { result ≡ list_all (λ x. x == byte) bytes.now }
{
    bytes.iter().all(|b| *b == byte)
}

/// The one byte that all are.
fn only_byte(bytes: &[u8]) -> Option<u8>
    ensures { result ≡ only_byte bytes.now }
{
    let (first, rest) = bytes.split_first()?;
    if are_all(rest, *first) {
        Some(*first)
    } else {
        None
    }
}

#[tactic(auto, using(crate::proofs::DataFormLemmas::text_ascii))]
fn push_text(out: &mut String, bytes: &[u8]) -> Result<(), NoMemory>
    requires text { is_text_data bytes.now ≡ true }
    ensures ok { OnOk result (string_bytes out.new ≡ string_bytes out.old ++ text_form bytes.now) }
{
    let text = as_text(bytes);
    write!(out, "\"{text}\"")?;
    Ok(())
}

fn push_hex(alloc: Global, out: &mut String, bytes: &[u8]) -> Result<(), NoMemory>
    ensures ok { OnOk result (string_bytes out.new ≡ string_bytes out.old ++ hex_form bytes.now) }
{
    let digits = hex::encode(alloc, bytes)?;
    out.push_str("hex:")?;
    out.push_str(digits.as_str())?;
    Ok(())
}

fn push_fill(alloc: Global, out: &mut String, count: usize, byte: u8) -> Result<(), NoMemory>
    ensures ok { OnOk result (string_bytes out.new ≡ string_bytes out.old ++ fill_form count byte) }
{
    let digits = hex::encode(alloc, [byte].as_slice())?;
    let digits = digits.as_str();
    write!(out, "fill:{count}:{digits}")?;
    Ok(())
}
