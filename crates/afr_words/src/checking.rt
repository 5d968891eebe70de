//! The word that asks for a check of a given trace.
ghost use Rattle.std.specs.Prelude.{◌↔◌, IsTrue};
ghost use Rattle.afr_words.specs.Forms.{AskCheck};

/// Whether the words ask for a check: `check`, and no more. It takes no memory.
pub fn is_check(words: &[String]) -> bool
    ensures { IsTrue result ↔ AskCheck words.now }
{
    match words {
        [word] => word.as_str() == "check",
        _ => false,
    }
}
