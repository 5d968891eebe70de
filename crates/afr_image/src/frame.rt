//! The frame of an image: its first bytes, its two numbers, and where it ends.
ghost use Rattle.std.specs.Prelude.{◌≡◌, ◌+◌, ◌<◌, ◌≤◌, ◌^◌, true, Some, IfOk, IfErr, length, nat_eq};
ghost use Rattle.std.specs.List.{starts_with};
ghost use Rattle.afr_image.specs.Frame.{magic, frame_fault, number_at};
ghost use Rattle.afr_image.specs.Frames.{IsFramed};

use crate::image::{ImageFault, codes};
use byteorder::{BigEndian, ByteOrder};

/// The first bytes of an image.
pub(crate) const MAGIC: [u8; 8] = [0x41, 0x46, 0x52, 0x49, 0x4D, 0x47, 0x00, 0x01];

/// Where the length of the plan's text stands, and the text.
const TEXT_LEN_AT: usize = 8;

pub(crate) const TEXT_AT: usize = 12;

/// The bytes of a number, and of a step.
pub(crate) const NUMBER: usize = 4;

pub(crate) const STEP: usize = 3;

/// What stands between the numbers of an image.
#[derive(Clone, Copy, Debug)]
pub(crate) struct Frame<'a> {
    pub text: &'a [u8],
    /// How many steps there are.
    pub count: u32,
    pub steps: &'a [u8],
}

/// Cuts bytes into the parts of an image.
pub(crate) fn frame_of(bytes: &[u8]) -> Result<Frame<'_>, ImageFault>
    requires { length bytes.now < 2 ^ 32 }
    ensures ok { IfOk result (λ f. IsFramed bytes.now f.text.now f.count f.steps.now) }
    ensures err { IfErr result (λ fault. frame_fault bytes.now ≡ Some fault) }
{
    if !bytes.starts_with(&MAGIC) {
        return Err(ImageFault {
            at: 0,
            code: codes::MAGIC,
        });
    }
    cut(bytes)
}

/// The same of bytes that begin as an image does.
fn cut(bytes: &[u8]) -> Result<Frame<'_>, ImageFault>
    requires short { length bytes.now < 2 ^ 32 }
    requires magic { starts_with nat_eq bytes.now magic ≡ true }
    ensures ok { IfOk result (λ f. IsFramed bytes.now f.text.now f.count f.steps.now) }
    ensures err { IfErr result (λ fault. frame_fault bytes.now ≡ Some fault) }
{
    let short = ImageFault {
        at: bytes.len() as u32,
        code: codes::SHORT,
    };
    if bytes.len() < TEXT_AT {
        return Err(short);
    }
    let text_len = number_at(bytes, TEXT_LEN_AT) as usize;
    let count_at = TEXT_AT + text_len;
    if bytes.len() < count_at + NUMBER {
        return Err(short);
    }
    let count = number_at(bytes, count_at);
    let steps_at = count_at + NUMBER;
    let end = steps_at + STEP * count as usize;
    if bytes.len() < end {
        return Err(short);
    }
    if end < bytes.len() {
        return Err(ImageFault {
            at: end as u32,
            code: codes::TAIL,
        });
    }
    Ok(Frame {
        text: &bytes[TEXT_AT..count_at],
        count,
        steps: &bytes[steps_at..],
    })
}

#[tactic(auto, unfolding(crate::specs::Frame::number_at))]
fn number_at(bytes: &[u8], at: usize) -> u32
    requires { at + 4 ≤ length bytes.now }
    ensures { result ≡ number_at at bytes.now }
{
    BigEndian::read_u32(&bytes[at..])
}
