//! Numbers and words at the front of some bytes.
ghost use Rattle.std.specs.Prelude.{◌≡◌, ◌+◌, ◌<◌, IfSome, map, nat_lt};
ghost use Rattle.std.specs.Option.{option_map};
ghost use Rattle.std.specs.Str.Parse.{AllDigits, digits_value};
ghost use Rattle.afr_plan.specs.Reading.{checked};
ghost use Rattle.afr_trace_read.specs.Forms.{first_of, number_below, said};

use afr_plan_line::{numeral, skip};

/// The highest number of 32 bits.
pub(crate) const MOST_SMALL: u128 = 4_294_967_295;

/// What digits come to, if it is at most so much.
fn value_of(ds: &[u8], most: u128) -> Option<u128>
    requires digits { AllDigits 10 ds.now }
    ensures { result ≡ checked (nat_lt (digits_value 10 ds.now) (most + 1)) (digits_value 10 ds.now) }
{
    let mut n: u128 = 0;
    for d in ds {
        let digit = u128::from(*d - b'0');
        if digit > most || n > (most - digit) / 10 {
            return None;
        }
        n = n * 10 + digit;
    }
    Some(n)
}

/// A number, if it is at most so much.
#[tactic(auto, unfolding(crate::specs::Forms::number_below))]
pub(crate) fn number(bytes: &[u8], most: u128) -> Option<(u128, &[u8])>
    ensures read { option_map (λ x. (x.0, x.1.now)) result ≡ number_below (most + 1) bytes.now }
    ensures small { IfSome result (λ x. x.0 < most + 1) }
{
    let (digits, rest) = numeral(bytes)?;
    let n = value_of(digits, most)?;
    Some((n, rest))
}

/// What the first of some words that stands there stands for, and what follows it.
pub(crate) fn first_of<'a, T: Copy>(words: &[(&[u8], T)], bytes: &'a [u8]) -> Option<(T, &'a [u8])>
    ensures { option_map (λ x. (x.0, x.1.now)) result ≡ first_of (map said words.now) bytes.now }
{
    for (word, value) in words {
        if let Some(rest) = skip(*word, bytes) {
            return Some((*value, rest));
        }
    }
    None
}
