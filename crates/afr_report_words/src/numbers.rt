//! Numbers in decimal digits, and bytes in hexadecimal ones.
ghost use Rattle.std.specs.Prelude.{◌≡◌, ◌++◌, ◌*◌, ◌<◌, ◌≤◌, OnOk, decimal, length, string_bytes, take};
ghost use Rattle.afr_model.specs.ReportReplies.{hex_digit, hex_text};

use crate::words::push_bytes_as_text;
use afr_base::NoMemory;
use itoa::Buffer;

/// So many bytes become digits in one step.
const STEP: usize = 64;

/// Adds a number in decimal digits. It is much quicker than `write!`.
pub fn push_number(out: &mut String, number: u64) -> Result<(), NoMemory>
    ensures ok { OnOk result (string_bytes out.new ≡ string_bytes out.old ++ decimal number) }
{
    if number < 100 {
        return push_short_number(out, number as u8);
    }
    let mut buffer = Buffer::new();
    out.push_str(buffer.format(number))?;
    Ok(())
}

/// Adds a number of any size in decimal digits.
pub fn push_long_number(out: &mut String, number: u128) -> Result<(), NoMemory>
    ensures ok { OnOk result (string_bytes out.new ≡ string_bytes out.old ++ decimal number) }
{
    if number <= u128::from(u64::MAX) {
        return push_number(out, number as u64);
    }
    let mut buffer = Buffer::new();
    out.push_str(buffer.format(number))?;
    Ok(())
}

/// A number of one digit or two.
#[tactic(auto, using(crate::proofs::NumberLemmas::two_digits))]
fn push_short_number(out: &mut String, number: u8) -> Result<(), NoMemory>
    requires { number < 100 }
    ensures ok { OnOk result (string_bytes out.new ≡ string_bytes out.old ++ decimal number) }
{
    if number < 10 {
        return push_digit(out, number);
    }
    push_digits(out, number / 10, number % 10)
}

fn push_digits(out: &mut String, tens: u8, units: u8) -> Result<(), NoMemory>
    requires tens { tens < 10 }
    requires units { units < 10 }
    ensures ok { OnOk result (string_bytes out.new ≡ string_bytes out.old ++ (decimal tens ++ decimal units)) }
{
    push_digit(out, tens)?;
    push_digit(out, units)
}

#[tactic(auto, using(crate::proofs::NumberLemmas::one_digit))]
fn push_digit(out: &mut String, number: u8) -> Result<(), NoMemory>
    requires { number < 10 }
    ensures ok { OnOk result (string_bytes out.new ≡ string_bytes out.old ++ decimal number) }
{
    out.push(char::from(b'0' + number))?;
    Ok(())
}

/// Adds each byte as two lower-case hexadecimal digits, with nothing between them.
pub fn push_hex(out: &mut String, bytes: &[u8]) -> Result<(), NoMemory>
    ensures ok { OnOk result (string_bytes out.new ≡ string_bytes out.old ++ hex_text bytes.now) }
{
    let mut rest = bytes;
    while rest.len() > STEP {
        push_few_hex(out, &rest[..STEP])?;
        rest = &rest[STEP..];
    }
    push_few_hex(out, rest)
}

/// Adds the digits of a few bytes.
fn push_few_hex(out: &mut String, bytes: &[u8]) -> Result<(), NoMemory>
    requires { length bytes.now ≤ 64 }
    ensures ok { OnOk result (string_bytes out.new ≡ string_bytes out.old ++ hex_text bytes.now) }
{
    let mut digits = [0; 2 * STEP];
    write_hex(&mut digits, bytes);
    push_bytes_as_text(out, &digits[..2 * bytes.len()])
}

/// Writes two digits for each byte. Each byte stands by itself, so that many are looked at in one step.
fn write_hex(digits: &mut [u8], bytes: &[u8])
    requires { 2 * length bytes.now ≤ length digits.old }
    ensures { take (2 * length bytes.now) digits.new ≡ hex_text bytes.now }
{
    for i in 0..bytes.len() {
        digits[2 * i] = hex_digit(bytes[i] / 16);
        digits[2 * i + 1] = hex_digit(bytes[i] % 16);
    }
}

fn hex_digit(value: u8) -> u8
    requires { value < 16 }
    ensures { result ≡ hex_digit value }
{
    if value < 10 {
        b'0' + value
    } else {
        b'a' - 10 + value
    }
}
