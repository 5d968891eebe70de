//! The value of a changelog attribute: three numbers in twelve bytes.
ghost use Rattle.std.specs.Prelude.{◌≡◌, ◌≤◌, drop};
ghost use Rattle.byteorder.specs.Endian.{big_number};
ghost use Rattle.afr_marks.specs.Values.{number, numbers, numbers_in, value};

use crate::attribute::Which;
use afr_base::{AllMarks, Marks};
use byteorder::{BigEndian, ByteOrder};

/// The value of an attribute, in constant time.
pub fn value_bytes(marks: &AllMarks, which: Which) -> [u8; 12]
    ensures value { result ≡ value (numbers which marks.now) }
    ensures back { numbers_in result ≡ numbers which marks.now }
{
    let mut bytes = [0; 12];
    BigEndian::write_u32(&mut bytes[0..4], number(&marks.bytes, which));
    BigEndian::write_u32(&mut bytes[4..8], number(&marks.attrs, which));
    BigEndian::write_u32(&mut bytes[8..12], number(&marks.names, which));
    bytes
}

/// The three numbers of a value: for data, metadata and entries, in constant time.
pub fn numbers_of(bytes: &[u8; 12]) -> [u32; 3]
    ensures numbers { result ≡ numbers_in bytes.now }
    ensures back { value result ≡ bytes.now }
{
    [
        number_at(bytes, 0),
        number_at(bytes, 4),
        number_at(bytes, 8),
    ]
}

fn number_at(bytes: &[u8; 12], at: usize) -> u32
    requires { at ≤ 8 }
    ensures { result ≡ big_number 4 (drop at bytes.now) }
{
    BigEndian::read_u32(&bytes[at..])
}

/// The number of an attribute for one kind.
fn number(marks: &Marks, which: Which) -> u32
    ensures { result ≡ number which marks.now }
{
    match which {
        Which::Dirty => marks.dirty,
        Which::Client(brick) => match marks.pending.get(brick.0 as usize) {
            Some(pending) => *pending,
            None => 0,
        },
    }
}
