//! Copies that need memory.
ghost use Rattle.std.specs.Prelude.{◌≡◌, IfOk};

use crate::entry::Entry;
use afr_base::{BrickId, Gfid, KeyId, NameId, NoMemory, ValueId, What};
use std::alloc::Global;

/// A value that can be copied where there is memory. Items of lists have it, so that lists have it too.
pub trait TryCopy: Drop + Sized {
    fn copy(&self) -> Result<Self, NoMemory>
        ensures ok { IfOk result (λ copy. copy ≡ self.now) };

    /// Copies of all of these items.
    fn copy_all(alloc: Global, items: &[Self]) -> Result<Vec<Self>, NoMemory>
        ensures ok { IfOk result (λ copies. copies.items ≡ items.now) }
    {
        let mut copies = Vec::with_capacity(alloc, items.len())?;
        for item in items {
            copies.push(item.copy()?)?;
        }
        Ok(copies)
    }
}

impl TryCopy for u8 {
    fn copy(&self) -> Result<u8, NoMemory> {
        Ok(*self)
    }

    /// Bytes go over as a whole, and not one by one.
    fn copy_all(alloc: Global, items: &[u8]) -> Result<Vec<u8>, NoMemory> {
        Ok(items.to_vec(alloc)?)
    }
}

impl TryCopy for BrickId {
    fn copy(&self) -> Result<BrickId, NoMemory> {
        Ok(*self)
    }
}

impl TryCopy for NameId {
    fn copy(&self) -> Result<NameId, NoMemory> {
        Ok(*self)
    }
}

impl TryCopy for (NameId, Entry) {
    fn copy(&self) -> Result<(NameId, Entry), NoMemory> {
        Ok(*self)
    }
}

impl TryCopy for (KeyId, ValueId) {
    fn copy(&self) -> Result<(KeyId, ValueId), NoMemory> {
        Ok(*self)
    }
}

impl TryCopy for (Gfid, What) {
    fn copy(&self) -> Result<(Gfid, What), NoMemory> {
        Ok(*self)
    }
}
