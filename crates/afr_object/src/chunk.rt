//! Bytes that several owners share.
ghost use Rattle.std.specs.Prelude.{◌≡◌, ◌++◌, ◌∷◌, ◌<◌, ◌≤◌, [], length, slice_get, take, Some, OnOk, OnErr, IfOk};

use crate::try_copy::TryCopy;
use afr_base::NoMemory;
use std::alloc::Global;
use std::marker::Model;
use std::sync::Arc;

/// Some bytes of a file. Copies share the bytes, and so does a front of them: either costs the same however long it is, and
/// takes no memory. Contracts see the plain list.
#[derive(Debug, Drop)]
pub struct Chunk {
    alloc: Global,
    /// Its bytes are the first of these; where there are none, nothing is shared.
    shared: Option<Arc<Vec<u8>>>,
    len: usize,
}

impl Model for Chunk {
    ghost use Rattle.std.specs.Prelude.{ℕ, List as PlainList, take};
    ghost use Rattle.afr_object.specs.Shared.{shared_bytes};

    ghost Value = { PlainList ℕ };

    ghost view = { λ c. take c.len (shared_bytes (λ it. it.value.items) c.shared) };
}

impl Chunk {
    pub fn new(alloc: Global) -> Chunk
        ensures { result ≡ [] }
    {
        Chunk {
            alloc,
            shared: None,
            len: 0,
        }
    }

    /// The bytes of a vector, which are not copied; to share them takes the memory of a count.
    pub fn from_vec(bytes: Vec<u8>) -> Result<Chunk, NoMemory>
        ensures { IfOk result (λ chunk. chunk ≡ bytes.items) }
    {
        let alloc = *bytes.allocator();
        let len = bytes.len();
        match Arc::new(alloc, bytes) {
            Ok(shared) => Ok(Chunk {
                alloc,
                shared: Some(shared),
                len,
            }),
            Err(_) => Err(NoMemory),
        }
    }

    pub fn as_slice(&self) -> &[u8]
        ensures { result.now ≡ self.now }
    {
        match &self.shared {
            Some(shared) => {
                let bytes = (**shared).as_slice();
                &bytes[..self.len.min(bytes.len())]
            }
            None => &[],
        }
    }

    pub fn len(&self) -> usize
        ensures { result ≡ length self.now }
    {
        self.as_slice().len()
    }

    pub fn item(&self, i: usize) -> &u8
        requires { i < length self.now }
        ensures { slice_get self.now i ≡ Some result.now }
    {
        &self.as_slice()[i]
    }

    /// The first bytes, shared with this chunk.
    pub fn front(&self, count: usize) -> Result<Chunk, NoMemory>
        requires { count ≤ length self.now }
        ensures { IfOk result (λ front. front ≡ take count self.now) }
    {
        let mut front = self.copy()?;
        front.len = count;
        Ok(front)
    }

    /// Adds a byte at the end, which copies the bytes: others may share them. Many bytes are better put in a vector first.
    pub fn push(&mut self, byte: u8) -> Result<(), NoMemory>
        ensures ok { OnOk result (self.new ≡ self.old ++ byte ∷ []) }
        ensures err { OnErr result (self.new ≡ self.old) }
    {
        let mut bytes = Vec::with_capacity(self.alloc, self.len() + 1)?;
        bytes.extend_from_slice(self.as_slice())?;
        bytes.push(byte)?;
        *self = Chunk::from_vec(bytes)?;
        Ok(())
    }
}

impl TryCopy for Chunk {
    fn copy(&self) -> Result<Chunk, NoMemory> {
        let shared = match &self.shared {
            Some(shared) => Some(shared.clone()?),
            None => None,
        };
        Ok(Chunk {
            alloc: self.alloc,
            shared,
            len: self.len,
        })
    }
}
