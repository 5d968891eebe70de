//! The names, keys and values of a plan, by their places.
ghost use Rattle.std.specs.Prelude.{◌≡◌, length, take_while};
ghost use Rattle.std.specs.Option.{option_map};
ghost use Rattle.afr_plan.specs.Bytes.{is_key, key_byte, name_byte};
ghost use Rattle.afr_plan.specs.Bytes as allowed;
ghost use Rattle.afr_trace_read.specs.Contents.{bytes_of_name};
ghost use Rattle.afr_trace_read.specs.Forms.{place_in, word_among};
ghost use Rattle.afr_trace_read.specs.Parts.{key_at, keyed_at, name_at, named_at, value_at};

use crate::parts::object;
use afr_base::{Gfid, KeyId, NameId, ValueId};
use afr_plan::{Plan, WordList};
use afr_plan_line::{is_name, is_name_byte, is_same, key as any_key, skip};

fn name_len(bytes: &[u8]) -> usize
    ensures { result ≡ length (take_while name_byte bytes.now) }
{
    bytes.iter().take_while(|b| is_name_byte(**b)).count()
}

fn place_of(words: &WordList, word: &[u8]) -> Option<usize>
    ensures { result ≡ place_in words.now word.now }
{
    words
        .as_slice()
        .iter()
        .position(|other| is_same(word, other.as_slice()))
}

#[tactic(auto, unfolding(crate::specs::Forms::word_among), using(afr_plan_line::proofs::Front::front_take))]
fn among_names<'a>(words: &WordList, bytes: &'a [u8]) -> Option<(usize, &'a [u8])>
    ensures { option_map (λ x. (x.0, x.1.now)) result ≡ word_among name_byte allowed.is_name words.now bytes.now }
{
    let count = name_len(bytes);
    let word = &bytes[..count];
    if !is_name(word) {
        return None;
    }
    let place = place_of(words, word)?;
    Some((place, &bytes[count..]))
}

#[tactic(auto, unfolding(crate::specs::Forms::word_among, afr_plan::specs::Reading::key_at))]
fn among_keys<'a>(words: &WordList, bytes: &'a [u8]) -> Option<(usize, &'a [u8])>
    ensures { option_map (λ x. (x.0, x.1.now)) result ≡ word_among key_byte is_key words.now bytes.now }
{
    let (word, rest) = any_key(bytes)?;
    let place = place_of(words, word)?;
    Some((place, rest))
}

/// A name of the plan.
#[tactic(auto, unfolding(crate::specs::Parts::name_at))]
pub(crate) fn name<'a>(plan: &Plan, bytes: &'a [u8]) -> Option<(NameId, &'a [u8])>
    ensures { option_map (λ x. (x.0, x.1.now)) result ≡ name_at plan.now bytes.now }
{
    let (place, rest) = among_names(&plan.words.names, bytes)?;
    if place >= 4_294_967_296 {
        return None;
    }
    Some((NameId(place as u32), rest))
}

#[tactic(auto, unfolding(crate::specs::Parts::key_at))]
fn key<'a>(plan: &Plan, bytes: &'a [u8]) -> Option<(KeyId, &'a [u8])>
    ensures { option_map (λ x. (x.0, x.1.now)) result ≡ key_at plan.now bytes.now }
{
    let (place, rest) = among_keys(&plan.words.keys, bytes)?;
    if place >= 4_294_967_296 {
        return None;
    }
    Some((KeyId(place as u32), rest))
}

/// A value of the plan.
#[tactic(auto, unfolding(crate::specs::Parts::value_at))]
pub(crate) fn value<'a>(plan: &Plan, bytes: &'a [u8]) -> Option<(ValueId, &'a [u8])>
    ensures { option_map (λ x. (x.0, x.1.now)) result ≡ value_at plan.now bytes.now }
{
    let (place, rest) = among_keys(&plan.words.values, bytes)?;
    if place >= 4_294_967_296 {
        return None;
    }
    Some((ValueId(place as u32), rest))
}

/// A name in a directory.
#[tactic(auto, unfolding(crate::specs::Parts::named_at))]
pub(crate) fn named<'a>(plan: &Plan, bytes: &'a [u8]) -> Option<(Gfid, NameId, &'a [u8])>
    ensures { option_map (λ x. ((x.0, x.1), x.2.now)) result ≡ named_at plan.now bytes.now }
{
    let (gfid, rest) = object(plan, bytes)?;
    let rest = skip(b"/", rest)?;
    let (name, rest) = name(plan, rest)?;
    Some((gfid, name, rest))
}

/// An attribute of an object.
#[tactic(auto, unfolding(crate::specs::Parts::keyed_at))]
pub(crate) fn keyed<'a>(plan: &Plan, bytes: &'a [u8]) -> Option<(Gfid, KeyId, &'a [u8])>
    ensures { option_map (λ x. ((x.0, x.1), x.2.now)) result ≡ keyed_at plan.now bytes.now }
{
    let (gfid, rest) = object(plan, bytes)?;
    let rest = skip(b" ", rest)?;
    let (key, rest) = key(plan, rest)?;
    Some((gfid, key, rest))
}

/// The bytes of a name; none where the plan lacks it.
pub(crate) fn bytes_of_name(plan: &Plan, name: NameId) -> &[u8]
    ensures { result.now ≡ bytes_of_name plan.now name }
{
    match plan.words.names.as_slice().get(name.0 as usize) {
        Some(word) => word.as_slice(),
        None => &[],
    }
}
