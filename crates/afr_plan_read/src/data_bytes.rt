//! The bytes that data of each form stands for.
ghost use Rattle.std.specs.Prelude.{◌≡◌, ◌++◌, ◌/◌, IfOk, length, replicate};
ghost use Rattle.afr_plan.specs.Data.{hex_bytes};
ghost use Rattle.afr_plan_line.specs.Seen.{seen_data};

use crate::runs::Runs;
use crate::texts::LastText;
use afr_base::NoMemory;
use afr_object::Chunk;
use afr_plan_line::{SpokenData, hex_byte};
use std::alloc::Global;

/// The bytes of pairs of digits.
fn decoded(alloc: Global, digits: &[u8]) -> Result<Vec<u8>, NoMemory>
    ensures ok { IfOk result (λ v. v.items ≡ hex_bytes digits.now) }
{
    let mut bytes = Vec::new(alloc);
    bytes.resize(digits.len() / 2, 0)?;
    decode(bytes.as_mut_slice(), digits);
    Ok(bytes)
}

/// Writes the bytes of pairs of digits. Each stands by itself, so that many are made in one step.
fn decode(bytes: &mut [u8], digits: &[u8])
    requires { length bytes.old ≡ length digits.now / 2 }
    ensures { bytes.new ≡ hex_bytes digits.now }
{
    for i in 0..bytes.len() {
        bytes[i] = hex_byte(digits[2 * i], digits[2 * i + 1]);
    }
}

/// What the data of a plan shares: runs of one byte, and the last text.
#[derive(Drop)]
pub(crate) struct SharedData<'t> {
    runs: Runs,
    text: LastText<'t>,
}

impl<'t> SharedData<'t> {
    pub(crate) fn new(alloc: Global) -> SharedData<'t> {
        SharedData {
            runs: Runs::new(alloc),
            text: LastText::new(alloc),
        }
    }

    /// The bytes that data stands for.
    pub(crate) fn chunk(
        &mut self,
        alloc: Global,
        spoken: &SpokenData<'t>,
    ) -> Result<Chunk, NoMemory>
        ensures ok { IfOk result (λ chunk. chunk ≡ seen_data spoken.now) }
    {
        match spoken {
            SpokenData::Text(text) => self.text.chunk(alloc, *text),
            SpokenData::Hex(digits) => Chunk::from_vec(decoded(alloc, digits)?),
            SpokenData::Fill(count, byte) => self.runs.fill(alloc, *count, *byte),
        }
    }
}
