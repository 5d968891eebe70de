//! The words of a form with a number: its name and that number. They are not left to `clap`, whose numbers may have a sign
//! and leading zeros.
ghost use Rattle.std.specs.Prelude.{◌≡◌, ◌<◌, ◌≤◌, ◌↔◌, ℕ, IfSome, IsTrue, None, decimal, map, slice_index, string_bytes};
ghost use Rattle.afr_words.specs.Forms.{AreNumbered, AskFor};

use crate::form::Form;

/// The largest number of a generated load.
const LARGEST: u32 = 2_000;

/// The most turns of a replay, as of a plan.
const MOST_TURNS: u32 = 4_000_000;

/// The number of the generated load that the words ask for.
pub(crate) fn load_asked(words: &[String]) -> Option<u32>
    ensures some { IfSome result (λ n. AskFor words.now (Form.Gen n)) }
    ensures none { result ≡ None → (n : ℕ) → AskFor words.now (Form.Gen n) → ⊥ }
{
    number_after(words, "gen", LARGEST)
}

/// The turns of the replay that the words ask for.
pub(crate) fn replay_asked(words: &[String]) -> Option<u32>
    ensures some { IfSome result (λ turns. AskFor words.now (Form.Replay turns)) }
    ensures none { result ≡ None → (turns : ℕ) → AskFor words.now (Form.Replay turns) → ⊥ }
{
    number_after(words, "replay", MOST_TURNS)
}

/// The number that follows the name, where the words are these two and it is at most so large.
fn number_after(words: &[String], name: &str, most: u32) -> Option<u32>
    ensures some { IfSome result (λ n. AreNumbered name.now n most (map string_bytes words.now)) }
    ensures none { result ≡ None → (n : ℕ) → AreNumbered name.now n most (map string_bytes words.now) → ⊥ }
{
    match words {
        [first, number] if first.as_str() == name => number_spelled(number.as_str(), most),
        _ => None,
    }
}

/// The number from 1 to `most` that the text spells in decimal digits, with no sign and no leading zero.
fn number_spelled(text: &str, most: u32) -> Option<u32>
    ensures some { IfSome result (λ n. (text.now ≡ decimal n) × (1 ≤ n) × (n ≤ most)) }
    ensures none { result ≡ None → (n : ℕ) → text.now ≡ decimal n → 1 ≤ n → n ≤ most → ⊥ }
{
    match text.parse::<u32>() {
        Ok(number) if number <= most && begins_above_zero(text) => Some(number),
        _ => None,
    }
}

/// Whether the first byte is above `0`, as that of a number is, but for a sign.
fn begins_above_zero(text: &str) -> bool
    ensures { IsTrue result ↔ (48 < slice_index text.now 0) }
{
    match text.as_bytes().first() {
        Some(first) => *first > b'0',
        None => false,
    }
}
