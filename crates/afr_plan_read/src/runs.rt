//! Runs of one byte, which the fills of a plan share.
ghost use Rattle.std.specs.Prelude.{◌≡◌, ◌≤◌, IfOk, IfSome, replicate};

use afr_base::{LONGEST_WRITE, NoMemory};
use afr_object::Chunk;
use std::alloc::Global;
use std::collections::BTreeMap;
use std::marker::Model;

/// A run that is too short is followed by one that is so many times as long, where a write may be that long.
const GROWTH: usize = 4;

/// One byte, many times.
#[derive(Drop)]
struct Run {
    byte: u8,
    bytes: Chunk,
}

impl Model for Run {
    ghost use Rattle.std.specs.Prelude.{◌≡◌, ℕ, List, length, replicate};

    ghost Value = { List ℕ };

    ghost view = { λ r. r.bytes };

    ghost invariant = { λ r. r.bytes ≡ replicate (length r.bytes) r.byte };
}

impl Run {
    fn new(alloc: Global, count: usize, byte: u8) -> Result<Run, NoMemory>
        ensures { IfOk result (λ run. run ≡ replicate count byte) }
    {
        let mut bytes = Vec::new(alloc);
        bytes.resize(count, byte)?;
        let bytes = Chunk::from_vec(bytes)?;
        Ok(Run { byte, bytes })
    }

    /// A byte, so many times, where the run has them.
    fn fill(&self, count: usize, byte: u8) -> Result<Option<Chunk>, NoMemory>
        ensures { IfOk result (λ found. IfSome found (λ chunk. chunk ≡ replicate count byte)) }
    {
        if self.byte == byte && count <= self.bytes.len() {
            return Ok(Some(self.bytes.front(count)?));
        }
        Ok(None)
    }
}

/// The longest run of each byte so far. All fills with a byte are fronts of a few runs, so that their bytes take the memory of
/// the longest, twice at most, however many fills there are.
#[derive(Drop)]
pub(crate) struct Runs {
    longest: BTreeMap<u8, Run>,
}

impl Runs {
    pub(crate) fn new(alloc: Global) -> Runs {
        Runs {
            longest: BTreeMap::new(alloc),
        }
    }

    /// A byte, so many times.
    pub(crate) fn fill(&mut self, alloc: Global, count: u32, byte: u8) -> Result<Chunk, NoMemory>
        ensures { IfOk result (λ chunk. chunk ≡ replicate count byte) }
    {
        let count = count as usize;
        let mut last = 0;
        if let Some(run) = self.longest.get(&byte) {
            if let Some(bytes) = run.fill(count, byte)? {
                return Ok(bytes);
            }
            last = run.bytes.len();
        }
        self.begin(alloc, last, count, byte)
    }

    /// The front of a new run, which is longer than the last one.
    fn begin(
        &mut self,
        alloc: Global,
        last: usize,
        count: usize,
        byte: u8,
    ) -> Result<Chunk, NoMemory>
        ensures { IfOk result (λ chunk. chunk ≡ replicate count byte) }
    {
        let grown = last.saturating_mul(GROWTH).min(LONGEST_WRITE as usize);
        let run = Run::new(alloc, count.max(grown), byte)?;
        let bytes = run.bytes.front(count)?;
        let _ = self.longest.insert(byte, run)?;
        Ok(bytes)
    }
}
