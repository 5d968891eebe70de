//! What a command gave, as its text stands behind the word `ok`.
ghost use Rattle.std.specs.Prelude.{◌≡◌, ◌^◌, codes, is_some, length, take_while};
ghost use Rattle.std.specs.Option.{option_copied, option_map};
ghost use Rattle.std.specs.Str.{bytes_eq};
ghost use Rattle.afr_base.specs.Text.{gfid_spelling};
ghost use Rattle.afr_plan.specs.Bytes.{hex_digit};
ghost use Rattle.afr_plan.specs.Reading.{as_a, both, run_of, whole, word, word_then};
ghost use Rattle.afr_trace_read.specs.Contents.{comes_after, digits_at, dir_of, file_of, gfid_at, gfid_told, is_before, is_contents, is_some_paired, name_behind, names_told, stat_at, value_given_at};
ghost use Rattle.afr_trace_read.specs.Forms.{number_below, then_word};
ghost use Rattle.afr_trace_read.specs.Parts.{value_at};

use crate::bytes::{MOST_SMALL, number};
use crate::words::{bytes_of_name, name, value};
use afr_base::{Gfid, NameId, ValueId, What};
use afr_object::Entry;
use afr_plan::Plan;
use afr_plan_line::{is_same, skip};
use uuid::Uuid;

/// How many characters the text of a gfid has.
const GFID_LEN: usize = 36;

// ---- bytes

fn is_hex_digit(byte: u8) -> bool
    ensures { result ≡ hex_digit byte }
{
    (b'0' <= byte && byte <= b'9') || (b'a' <= byte && byte <= b'f')
}

fn hex_len(bytes: &[u8]) -> usize
    ensures { result ≡ length (take_while hex_digit bytes.now) }
{
    bytes.iter().take_while(|b| is_hex_digit(**b)).count()
}

fn are_paired(digits: &[u8]) -> bool
    ensures { result ≡ is_some_paired digits.now }
{
    !digits.is_empty() && digits.len() % 2 == 0
}

fn hex_digits(bytes: &[u8]) -> Option<(&[u8], &[u8])>
    ensures { option_map (λ x. (x.0.now, x.1.now)) result ≡ run_of hex_digit is_some_paired bytes.now }
{
    let count = hex_len(bytes);
    let digits = &bytes[..count];
    if !are_paired(digits) {
        return None;
    }
    Some((digits, &bytes[count..]))
}

fn spaced_digits(bytes: &[u8]) -> Option<(&[u8], &[u8])>
    ensures { option_map (λ x. (x.0.now, x.1.now)) result ≡ word_then (codes " ") (run_of hex_digit is_some_paired) bytes.now }
{
    let rest = skip(b" ", bytes)?;
    hex_digits(rest)
}

#[tactic(auto, unfolding(crate::specs::Contents::digits_at))]
fn digits(bytes: &[u8]) -> Option<(&[u8], &[u8])>
    ensures { option_map (λ x. (x.0.now, x.1.now)) result ≡ digits_at bytes.now }
{
    if let Some(x) = spaced_digits(bytes) {
        return Some(x);
    }
    let rest = skip(b" -", bytes)?;
    Some((&[], rest))
}

/// The digits of the bytes that a read gave, if this is the text of bytes.
pub fn digits_given(text: &[u8]) -> Option<&[u8]>
    ensures { option_copied result ≡ whole digits_at text.now }
{
    let (digits, rest) = digits(text)?;
    if !rest.is_empty() {
        return None;
    }
    Some(digits)
}

// ---- a value

fn some_value<'a>(plan: &Plan, bytes: &'a [u8]) -> Option<(Option<ValueId>, &'a [u8])>
    ensures { option_map (λ x. (x.0, x.1.now)) result ≡ as_a Some (word_then (codes " ") (value_at plan.now)) bytes.now }
{
    let rest = skip(b" ", bytes)?;
    let (value, rest) = value(plan, rest)?;
    Some((Some(value), rest))
}

fn no_value(bytes: &[u8]) -> Option<(Option<ValueId>, &[u8])>
    ensures { option_map (λ x. (x.0, x.1.now)) result ≡ word (codes " -") None bytes.now }
{
    let rest = skip(b" -", bytes)?;
    Some((None, rest))
}

#[tactic(auto, unfolding(crate::specs::Contents::value_given_at))]
fn maybe_value<'a>(plan: &Plan, bytes: &'a [u8]) -> Option<(Option<ValueId>, &'a [u8])>
    ensures { option_map (λ x. (x.0, x.1.now)) result ≡ value_given_at plan.now bytes.now }
{
    if let Some(x) = some_value(plan, bytes) {
        return Some(x);
    }
    no_value(bytes)
}

/// The value that an attribute has, or none, if this is the text of one.
pub fn value_given(plan: &Plan, text: &[u8]) -> Option<Option<ValueId>>
    ensures { result ≡ whole (value_given_at plan.now) text.now }
{
    let (value, rest) = maybe_value(plan, text)?;
    if !rest.is_empty() {
        return None;
    }
    Some(value)
}

// ---- a stat

fn is_spelled(gfid: Gfid, word: &[u8]) -> bool
    ensures { result ≡ bytes_eq (gfid_spelling gfid.0) word.now }
{
    let mut buffer = Uuid::encode_buffer();
    let text = Uuid::from_u128(gfid.0)
        .hyphenated()
        .encode_lower(&mut buffer);
    is_same(text.as_bytes(), word)
}

/// The gfid that is written so.
#[tactic(auto, unfolding(crate::specs::Contents::gfid_told))]
fn gfid_told(word: &[u8]) -> Option<Gfid>
    ensures { result ≡ gfid_told word.now }
{
    let Ok(id) = Uuid::try_parse_ascii(word) else {
        return None;
    };
    let gfid = Gfid(id.as_u128());
    if is_spelled(gfid, word) {
        Some(gfid)
    } else {
        None
    }
}

fn gfid(bytes: &[u8]) -> Option<(Gfid, &[u8])>
    ensures { option_map (λ x. (x.0, x.1.now)) result ≡ gfid_at bytes.now }
{
    let count = bytes.len().min(GFID_LEN);
    let Some(gfid) = gfid_told(&bytes[..count]) else {
        return None;
    };
    Some((gfid, &bytes[count..]))
}

fn file(bytes: &[u8]) -> Option<((Entry, u32), &[u8])>
    ensures { option_map (λ x. (x.0, x.1.now)) result ≡ as_a file_of (both (then_word (word_then (codes " file ") gfid_at) (codes " ")) (number_below (2 ^ 32))) bytes.now }
{
    let rest = skip(b" file ", bytes)?;
    let (gfid, rest) = gfid(rest)?;
    let rest = skip(b" ", rest)?;
    let (len, rest) = number(rest, MOST_SMALL)?;
    let entry = Entry {
        gfid,
        what: What::File,
    };
    Some(((entry, len as u32), rest))
}

fn dir(bytes: &[u8]) -> Option<((Entry, u32), &[u8])>
    ensures { option_map (λ x. (x.0, x.1.now)) result ≡ as_a dir_of (word_then (codes " dir ") gfid_at) bytes.now }
{
    let rest = skip(b" dir ", bytes)?;
    let (gfid, rest) = gfid(rest)?;
    let entry = Entry {
        gfid,
        what: What::Dir,
    };
    Some(((entry, 0), rest))
}

#[tactic(auto, unfolding(crate::specs::Contents::stat_at))]
fn stat(bytes: &[u8]) -> Option<((Entry, u32), &[u8])>
    ensures { option_map (λ x. (x.0, x.1.now)) result ≡ stat_at bytes.now }
{
    if let Some(x) = file(bytes) {
        return Some(x);
    }
    dir(bytes)
}

/// What a stat gave, if this is the text of one. The length of a directory is 0.
pub fn stat_given(text: &[u8]) -> Option<(Entry, u32)>
    ensures { result ≡ whole stat_at text.now }
{
    let (x, rest) = stat(text)?;
    if !rest.is_empty() {
        return None;
    }
    Some(x)
}

// ---- names

fn is_before(one: &[u8], other: &[u8]) -> bool
    ensures { result ≡ is_before one.now other.now }
{
    one.cmp(other).is_lt()
}

fn comes_after(plan: &Plan, last: Option<NameId>, name: NameId) -> bool
    ensures { result ≡ comes_after plan.now last name }
{
    match last {
        None => true,
        Some(last) => is_before(bytes_of_name(plan, last), bytes_of_name(plan, name)),
    }
}

/// The next name of a list, and what follows it: a name of the plan that comes after the last one in the order of bytes.
#[tactic(auto, unfolding(crate::specs::Contents::name_behind))]
pub fn name_behind<'a>(
    plan: &Plan,
    last: Option<NameId>,
    bytes: &'a [u8],
) -> Option<(NameId, &'a [u8])>
    ensures { option_map (λ x. (x.0, x.1.now)) result ≡ name_behind plan.now last bytes.now }
{
    let rest = skip(b" ", bytes)?;
    let (name, rest) = name(plan, rest)?;
    if !comes_after(plan, last, name) {
        return None;
    }
    Some((name, rest))
}

#[tactic(auto, using(crate::proofs::NamesLaws::one_name, crate::proofs::NamesLaws::no_name, crate::proofs::NamesLaws::shorter))]
fn are_names(plan: &Plan, text: &[u8]) -> bool
    ensures { result ≡ is_some (names_told plan.now None text.now) }
{
    let mut last: Option<NameId> = None;
    let mut rest = text;
    while !rest.is_empty() {
        let Some((name, more)) = name_behind(plan, last, rest) else {
            return false;
        };
        last = Some(name);
        rest = more;
    }
    true
}

// ---- any of these

fn are_bytes(text: &[u8]) -> bool
    ensures { result ≡ is_some (whole digits_at text.now) }
{
    match digits_given(text) {
        Some(_) => true,
        None => false,
    }
}

/// Whether a text may stand behind `ok`.
pub(crate) fn is_contents(plan: &Plan, text: &[u8]) -> bool
    ensures { result ≡ is_contents plan.now text.now }
{
    are_bytes(text)
        || value_given(plan, text).is_some()
        || stat_given(text).is_some()
        || are_names(plan, text)
}
