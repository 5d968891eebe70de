//! Bytes of a plan as text, and the words and paths that its lines name by their places.
ghost use Rattle.std.specs.Prelude.{◌≡◌, ◌++◌, OnOk, [], codes, string_bytes, nat_lt, map};
ghost use Rattle.std.specs.List.{list_all};
ghost use Rattle.std.specs.Str.{IsAscii};
ghost use Rattle.afr_plan_print.specs.PrintedLine.{path_text, slashed};
ghost use Rattle.afr_plan_print.specs.PrintedPlan.{as_ascii, names_of, word_at};

use afr_base::{NameId, NoMemory};
use afr_plan::{NamePath, WordList, Words};

/// Bytes of ASCII as text.
pub(crate) fn as_text(bytes: &[u8]) -> &str
    requires ascii { IsAscii bytes.now }
    ensures { result.now ≡ bytes.now }
{
    match std::str::from_utf8(bytes) {
        Ok(text) => text,
        Err(_) => unreachable!(),
    }
}

fn is_ascii(bytes: &[u8]) -> bool
    ensures { result ≡ list_all (λ b. nat_lt b 128) bytes.now }
{
    bytes.iter().all(|b| *b < 128)
}

/// A word as text. Each word of a plan that was read is ASCII.
#[tactic(auto, using(crate::proofs::DataFormLemmas::all_ascii))]
fn word_text(word: &[u8]) -> &str
    ensures { result.now ≡ as_ascii word.now }
{
    if is_ascii(word) { as_text(word) } else { "?" }
}

/// The word at a place. A plan that was read has a word at each place that it names.
pub(crate) fn word_at(words: &WordList, place: u32) -> &str
    ensures { result.now ≡ word_at words.now place }
{
    match words.as_slice().get(place as usize) {
        Some(word) => word_text(word.as_slice()),
        None => "?",
    }
}

/// Adds a word and a path.
pub(crate) fn push_path(
    out: &mut String,
    word: &str,
    words: &Words,
    path: &NamePath,
) -> Result<(), NoMemory>
    ensures ok { OnOk result (string_bytes out.new ≡ string_bytes out.old ++ (word.now ++ path_text (names_of words.now path.now))) }
{
    out.push_str(word)?;
    match path.as_slice() {
        [] => push_root(out),
        names => push_names(out, &words.names, names),
    }
}

fn push_root(out: &mut String) -> Result<(), NoMemory>
    ensures ok { OnOk result (string_bytes out.new ≡ string_bytes out.old ++ path_text []) }
{
    out.push_str("/")?;
    Ok(())
}

/// Adds each name after a slash.
fn push_names(out: &mut String, words: &WordList, names: &[NameId]) -> Result<(), NoMemory>
    ensures ok { OnOk result (string_bytes out.new ≡ string_bytes out.old ++ slashed (map (λ id. word_at words.now id.0) names.now)) }
{
    for id in names {
        push_name(out, word_at(words, id.0))?;
    }
    Ok(())
}

fn push_name(out: &mut String, name: &str) -> Result<(), NoMemory>
    ensures ok { OnOk result (string_bytes out.new ≡ string_bytes out.old ++ (codes "/" ++ name.now)) }
{
    write!(out, "/{name}")?;
    Ok(())
}
