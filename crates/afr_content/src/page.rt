//! One page of a file, which takes memory for its bytes as they are written.
ghost use Rattle.std.specs.Prelude.{◌≡◌, ℕ, [], ◌+◌, ◌<◌, ◌≤◌, true, false, length, nat_lt, take, OnOk, slice_index};
ghost use Rattle.afr_object.specs.Bytes.{byte_at, written, zeroed};

use crate::bytes::{put, show, zero};
use crate::content::NoMemory;
use std::alloc::Global;
use std::marker::Model;

/// How many bytes a page has.
pub(crate) const PAGE: usize = 4096;

/// The bytes of a page up to the last that was written. Those after them are zeros.
#[derive(Drop)]
pub(crate) struct Page {
    bytes: Vec<u8>,
}

impl Model for Page {
    ghost use Rattle.std.specs.Prelude.{vec_capacity};
    ghost use Rattle.afr_content.specs.Kept.{PageBytes};

    ghost Value = { PageBytes };

    ghost view = { λ p. record { bytes = p.bytes.items; room = vec_capacity p.bytes } };
}

impl Page {
    /// A page without memory.
    pub(crate) fn new(alloc: Global) -> Page
        ensures { result.bytes ≡ [] }
    {
        Page {
            bytes: Vec::new(alloc),
        }
    }

    /// Takes memory for so many bytes from the page's begin on.
    pub(crate) fn reserve(&mut self, need: usize) -> Result<(), NoMemory>
        requires { need ≤ 4096 }
        ensures bytes { self.new.bytes ≡ self.old.bytes }
        ensures room { self.old.room ≤ self.new.room }
        ensures ok { OnOk result (need ≤ self.new.room) }
    {
        let len = self.bytes.len();
        if need > len {
            // Twice what there is, so that many short writes don't move a page's bytes each time.
            let room = need.max(len.saturating_mul(2).min(PAGE));
            self.bytes.try_reserve_exact(room - len)?;
        }
        Ok(())
    }

    /// Writes the bytes, if there is memory for them.
    pub(crate) fn write_in_room(&mut self, at: usize, bytes: &[u8]) -> bool
        requires { at + length bytes.now ≤ 4096 }
        ensures yes { result ≡ true → self.new.bytes ≡ written at bytes.now self.old.bytes }
        ensures no { result ≡ false → self.new.bytes ≡ self.old.bytes }
    {
        if at + bytes.len() > self.bytes.capacity() {
            return false;
        }
        put(&mut self.bytes, at, bytes);
        true
    }

    pub(crate) fn write(&mut self, at: usize, bytes: &[u8])
        requires { at + length bytes.now ≤ self.old.room }
        ensures bytes { self.new.bytes ≡ written at bytes.now self.old.bytes }
        ensures room { self.old.room ≤ self.new.room }
    {
        put(&mut self.bytes, at, bytes);
    }

    pub(crate) fn zero(&mut self, from: usize, to: usize)
        requires { from ≤ to }
        ensures { self.new.bytes ≡ zeroed from to self.old.bytes }
    {
        zero(&mut self.bytes, from, to);
    }

    pub(crate) fn cut(&mut self, len: usize)
        ensures { self.new.bytes ≡ take len self.old.bytes }
    {
        self.bytes.truncate(len);
    }

    /// Whether any byte of the page is kept.
    pub(crate) fn has_bytes(&self) -> bool
        ensures { result ≡ nat_lt 0 (length self.now.bytes) }
    {
        0 < self.bytes.len()
    }

    pub(crate) fn read(&self, at: usize, into: &mut [u8])
        ensures len { length into.new ≡ length into.old }
        ensures bytes { (k : ℕ) → k < length into.old → slice_index into.new k ≡ byte_at (at + k) self.now.bytes }
    {
        show(&self.bytes, at, into);
    }
}
