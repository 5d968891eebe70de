//! The words of a plan as text.
ghost use Rattle.std.specs.Prelude.{◌≡◌, ◌++◌, [], OnOk, slice_index_or, string_bytes};

use crate::text::push_word;
use afr_base::NoMemory;
use afr_plan::WordList;

/// Adds bytes as they stand. Each word of a plan that was read is ASCII; bytes that aren't UTF-8
/// fit no text, and are answered as if memory ran out.
pub fn push_bytes_as_text(out: &mut String, bytes: &[u8]) -> Result<(), NoMemory>
    ensures ok { OnOk result (string_bytes out.new ≡ string_bytes out.old ++ bytes.now) }
{
    match std::str::from_utf8(bytes) {
        Ok(text) => push_word(out, text),
        Err(_) => Err(NoMemory),
    }
}

/// Adds the word at a place; nothing where there is none.
pub fn push_word_at(out: &mut String, words: &WordList, place: u32) -> Result<(), NoMemory>
    ensures ok { OnOk result (string_bytes out.new ≡ string_bytes out.old ++ slice_index_or words.now place []) }
{
    match words.as_slice().get(place as usize) {
        Some(word) => push_bytes_as_text(out, word.as_slice()),
        None => Ok(()),
    }
}

/// The word at a place; an empty one where there is none.
pub fn word_at(words: &WordList, place: u32) -> &[u8]
    ensures { result.now ≡ slice_index_or words.now place [] }
{
    match words.as_slice().get(place as usize) {
        Some(word) => word.as_slice(),
        None => &[],
    }
}
