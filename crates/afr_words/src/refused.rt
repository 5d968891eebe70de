//! The words that are refused before they are read.
ghost use Rattle.std.specs.Prelude.{◌↔◌, IsTrue};
ghost use Rattle.std.specs.List.{Any};
ghost use Rattle.afr_words.specs.Forms.{AreRefused, IsDashed};

/// Whether the words are no form at sight: there are none, the first is `help`, or one begins with `-`.
/// This takes no memory.
pub fn are_refused(words: &[String]) -> bool
    ensures { IsTrue result ↔ AreRefused words.now }
{
    match words.first() {
        None => true,
        Some(first) => first.as_str() == "help" || is_any_dashed(words),
    }
}

/// Whether one of the words begins with `-`.
fn is_any_dashed(words: &[String]) -> bool
    ensures { IsTrue result ↔ Any IsDashed words.now }
{
    words.iter().any(|word| is_dashed(word))
}

/// Whether the word begins with `-`.
fn is_dashed(word: &String) -> bool
    ensures { IsTrue result ↔ IsDashed word.now }
{
    word.as_bytes().first() == Some(&b'-')
}
