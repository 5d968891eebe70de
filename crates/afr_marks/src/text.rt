//! The value of a changelog attribute as text.
ghost use Rattle.std.specs.Prelude.{◌≡◌, IfOk, length, string_bytes};
ghost use Rattle.afr_marks.specs.Values.{text_of};

use afr_base::NoMemory;
use std::alloc::Global;

/// A value as `0x` and 24 lower-case hexadecimal digits.
pub fn value_text(alloc: Global, bytes: &[u8; 12]) -> Result<String, NoMemory>
    ensures ok { IfOk result (λ text. string_bytes text ≡ text_of bytes.now) }
    ensures len { IfOk result (λ text. length (string_bytes text) ≡ 26) }
{
    let mut text = String::from_str(alloc, "0x")?;
    let digits = hex::encode(alloc, *bytes)?;
    text.push_str(&digits)?;
    Ok(text)
}
