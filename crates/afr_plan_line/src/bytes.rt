//! Bytes, and the words that stand at the front of some bytes.
ghost use Rattle.std.specs.Prelude.{◌≡◌, IfSome, ◌+◌, ◌*◌, length, take_while, ◌<◌};
ghost use Rattle.std.specs.Option.{option_copied, option_map};
ghost use Rattle.std.specs.List.{list_all};
ghost use Rattle.std.specs.Str.{bytes_eq};
ghost use Rattle.std.specs.Str.Parse.{AllDigits};
ghost use Rattle.afr_plan.specs.Bytes.{digit, letter, name_byte, path_byte, key_byte, text_byte, plain, is_numeral, value};
ghost use Rattle.afr_plan.specs.Bytes as spec;
ghost use Rattle.afr_plan.specs.Data as datum;
ghost use Rattle.afr_plan.specs.Reading.{after, front, run_of, number_at, small_at, key_at};

/// So many bytes of a path are looked at in one step.
const STEP: usize = 16;

fn is_digit(byte: u8) -> bool
    ensures { result ≡ digit byte }
{
    b'0' <= byte && byte <= b'9'
}

fn is_letter(byte: u8) -> bool
    ensures { result ≡ letter byte }
{
    (b'a' <= byte && byte <= b'z') || (b'A' <= byte && byte <= b'Z')
}

/// Whether a byte may stand in a name.
pub fn is_name_byte(byte: u8) -> bool
    ensures { result ≡ name_byte byte }
{
    is_letter(byte) || is_digit(byte) || byte == b'.' || byte == b'_' || byte == b'-'
}

fn is_path_byte(byte: u8) -> bool
    ensures { result ≡ path_byte byte }
{
    is_name_byte(byte) || byte == b'/'
}

fn is_key_byte(byte: u8) -> bool
    ensures { result ≡ key_byte byte }
{
    is_letter(byte) || is_digit(byte) || byte == b'.' || byte == b'_'
}

pub(crate) fn is_hex_digit(byte: u8) -> bool
    ensures { result ≡ spec.hex_digit byte }
{
    is_digit(byte) || (b'a' <= byte && byte <= b'f')
}

fn is_text_byte(byte: u8) -> bool
    ensures { result ≡ text_byte byte }
{
    b' ' <= byte && byte <= b'~' && byte != b'"'
}

fn is_plain_byte(byte: u8) -> bool
    ensures { result ≡ plain byte }
{
    b' ' <= byte && byte <= b'~'
}

/// Whether no byte is other than from a space to a tilde. Here and in the next three each byte is looked at, whatever those
/// before it are, so that many are looked at in one step.
pub fn is_plain(bytes: &[u8]) -> bool
    ensures { result ≡ list_all plain bytes.now }
{
    let mut all = true;
    for b in bytes {
        if !is_plain_byte(*b) {
            all = false;
        }
    }
    all
}

fn are_hex_digits(bytes: &[u8]) -> bool
    ensures { result ≡ list_all spec.hex_digit bytes.now }
{
    let mut odd: u8 = 0;
    for b in bytes {
        odd = odd.max(u8::from(!is_hex_digit(*b)));
    }
    odd == 0
}

fn are_path_bytes(bytes: &[u8]) -> bool
    ensures { result ≡ list_all path_byte bytes.now }
{
    let mut odd: u8 = 0;
    for b in bytes {
        odd = odd.max(u8::from(!is_path_byte(*b)));
    }
    odd == 0
}

fn are_text_bytes(bytes: &[u8]) -> bool
    ensures { result ≡ list_all text_byte bytes.now }
{
    let mut odd: u8 = 0;
    for b in bytes {
        odd = odd.max(u8::from(!is_text_byte(*b)));
    }
    odd == 0
}

/// Whether two words are the same.
pub fn is_same(word: &[u8], other: &[u8]) -> bool
    ensures { result ≡ bytes_eq word.now other.now }
{
    word == other
}

/// What follows a word.
pub fn skip<'a>(word: &[u8], bytes: &'a [u8]) -> Option<&'a [u8]>
    ensures { option_copied result ≡ after word.now bytes.now }
{
    let mut rest = bytes;
    for w in word {
        let Some((b, more)) = rest.split_first() else {
            return None;
        };
        if *b != *w {
            return None;
        }
        rest = more;
    }
    Some(rest)
}

fn digits(bytes: &[u8]) -> usize
    ensures { result ≡ length (take_while digit bytes.now) }
{
    bytes.iter().take_while(|b| is_digit(**b)).count()
}

fn path_run(bytes: &[u8]) -> usize
    ensures { result ≡ length (take_while path_byte bytes.now) }
{
    bytes.iter().take_while(|b| is_path_byte(**b)).count()
}

pub(crate) fn path_len(bytes: &[u8]) -> usize
    ensures { result ≡ length (take_while path_byte bytes.now) }
{
    let mut count = 0;
    while bytes.len() - count >= STEP && are_path_bytes(&bytes[count..count + STEP]) {
        count += STEP;
    }
    count + path_run(&bytes[count..])
}

fn key_len(bytes: &[u8]) -> usize
    ensures { result ≡ length (take_while key_byte bytes.now) }
{
    bytes.iter().take_while(|b| is_key_byte(**b)).count()
}

fn text_len(bytes: &[u8]) -> usize
    ensures { result ≡ length (take_while text_byte bytes.now) }
{
    let count = bytes.len();
    // Most texts are all that is left of a line but for its closing quote.
    if count > 0 && bytes[count - 1] == b'"' && are_text_bytes(&bytes[..count - 1]) {
        return count - 1;
    }
    bytes.iter().take_while(|b| is_text_byte(**b)).count()
}

fn hex_len(bytes: &[u8]) -> usize
    ensures { result ≡ length (take_while spec.hex_digit bytes.now) }
{
    // Most digits are all that is left of a line.
    if are_hex_digits(bytes) {
        return bytes.len();
    }
    bytes.iter().take_while(|b| is_hex_digit(**b)).count()
}

fn value_of(ds: &[u8]) -> u32
    requires digits { AllDigits 10 ds.now }
    ensures { result ≡ value ds.now }
{
    let mut n: u32 = 0;
    for d in ds {
        n = (n * 10 + u32::from(*d - b'0')).min(10_000_000);
    }
    n
}

/// Digits with no leading zero.
pub fn numeral(bytes: &[u8]) -> Option<(&[u8], &[u8])>
    ensures read { option_map (λ x. (x.0.now, x.1.now)) result ≡ run_of digit is_numeral bytes.now }
    ensures digits { IfSome result (λ x. AllDigits 10 x.0.now) }
{
    let count = digits(bytes);
    if count == 0 || (count > 1 && bytes[0] == b'0') {
        return None;
    }
    Some((&bytes[..count], &bytes[count..]))
}

#[tactic(auto, unfolding(afr_plan::specs::Reading::number_at))]
pub(crate) fn number(bytes: &[u8]) -> Option<(u32, &[u8])>
    ensures { option_map (λ x. (x.0, x.1.now)) result ≡ number_at bytes.now }
{
    let (digits, rest) = numeral(bytes)?;
    Some((value_of(digits), rest))
}

/// A number of which 255 is as good as any that is higher.
#[tactic(auto, unfolding(afr_plan::specs::Reading::small_at))]
pub(crate) fn small(bytes: &[u8]) -> Option<(u8, &[u8])>
    ensures { option_map (λ x. (x.0, x.1.now)) result ≡ small_at bytes.now }
{
    let (digits, rest) = numeral(bytes)?;
    Some((value_of(digits).min(255) as u8, rest))
}

/// A key or a value.
#[tactic(auto, unfolding(afr_plan::specs::Reading::key_at))]
pub fn key(bytes: &[u8]) -> Option<(&[u8], &[u8])>
    ensures { option_map (λ x. (x.0.now, x.1.now)) result ≡ key_at bytes.now }
{
    let count = key_len(bytes);
    if count == 0 {
        return None;
    }
    Some((&bytes[..count], &bytes[count..]))
}

/// The longest front that may be a text, and the rest.
pub(crate) fn text(bytes: &[u8]) -> (&[u8], &[u8])
    ensures { (result.0.now, result.1.now) ≡ front text_byte bytes.now }
{
    let count = text_len(bytes);
    (&bytes[..count], &bytes[count..])
}

/// The longest front of hexadecimal digits, and the rest.
pub(crate) fn hex_digits(bytes: &[u8]) -> (&[u8], &[u8])
    ensures { (result.0.now, result.1.now) ≡ front spec.hex_digit bytes.now }
{
    let count = hex_len(bytes);
    (&bytes[..count], &bytes[count..])
}

fn hex_value(byte: u8) -> u8
    ensures value { result ≡ datum.hex_value byte }
    ensures small { result < 16 }
{
    if is_digit(byte) {
        byte - b'0'
    } else if is_hex_digit(byte) {
        byte - b'a' + 10
    } else {
        0
    }
}

/// The byte of two hexadecimal digits.
pub fn hex_byte(high: u8, low: u8) -> u8
    ensures { result ≡ 16 * datum.hex_value high + datum.hex_value low }
{
    16 * hex_value(high) + hex_value(low)
}
