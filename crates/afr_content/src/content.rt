//! A file's content, seen by contracts as a list of bytes and the set of the pages that are there.
ghost use Rattle.std.specs.Prelude.{◌≡◌, ℕ, ◌+◌, ◌-◌, ◌*◌, ◌/◌, ◌<◌, ◌≤◌, ◌↔◌, ◌&&◌, ◌||◌, [], false, true, length, take, drop, min, nat_lt, OnOk, OnErr};
ghost use Rattle.std.specs.FinSet.{contains, empty};
ghost use Rattle.afr_object.specs.Bytes.{byte_at, copied_in, written, zeroed};
ghost use Rattle.afr_content.specs.FileContent.{reaches};

use crate::page::Page;
use crate::pages;
use crate::pages::Pages;
use std::alloc::{AllocError, AllocFailed, Global};
use std::collections::BTreeMap;
use std::marker::Model;

/// There was no memory for a call, which then has changed nothing.
#[derive(Clone, Copy, Debug, PartialEq, Eq, Drop)]
pub struct NoMemory;

impl From<AllocError> for NoMemory {
    fn from(_e: AllocError) -> NoMemory {
        NoMemory
    }
}

impl From<AllocFailed<(u32, Page)>> for NoMemory {
    fn from(_e: AllocFailed<(u32, Page)>) -> NoMemory {
        NoMemory
    }
}

/// The bytes of a file, at most 1,048,576 of them, in pages of 4,096. A page that isn't there is all
/// zeros, so that a gap takes neither time nor memory.
#[derive(Drop)]
pub struct Content {
    alloc: Global,
    len: u32,
    pages: Pages,
}

impl Model for Content {
    ghost use Rattle.afr_content.specs.FileContent.{FileContent, file_content_code};

    ghost Value = { FileContent };

    ghost coded = { file_content_code };

    ghost use Rattle.afr_content.specs.Kept.{IsFile, file_of, kept};

    ghost view = { λ c. file_of c.len (kept c.pages.entries) };

    ghost invariant = { λ c. IsFile c.len (kept c.pages.entries) };
}

impl Content {
    /// A file with no bytes.
    pub fn new(alloc: Global) -> Content
        ensures bytes { result.bytes ≡ [] }
        ensures pages { result.pages ≡ empty }
    {
        Content {
            alloc,
            len: 0,
            pages: BTreeMap::new(alloc),
        }
    }

    pub fn len(&self) -> u32
        ensures { result ≡ length self.now.bytes }
    {
        self.len
    }

    /// Whether a page is there. Each byte of one that isn't is 0.
    pub fn has_page(&self, number: u32) -> bool
        ensures value { result ≡ contains self.now.pages number }
        ensures zeros { result ≡ false → (i : ℕ) → i / 4096 ≡ number → byte_at i self.now.bytes ≡ 0 }
    {
        pages::has(&self.pages, number)
    }

    /// Writes the bytes at an offset. A gap between the file's end and the offset becomes zeros, and
    /// gets no page.
    ///
    /// Takes time and memory for the bytes, and a search among the pages for each page they fall into.
    pub fn write_at(&mut self, at: u32, bytes: &[u8]) -> Result<(), NoMemory>
        requires { at + length bytes.now ≤ 1048576 }
        ensures ok { OnOk result (self.new.bytes ≡ written at bytes.now self.old.bytes) }
        ensures pages { OnOk result ((number : ℕ) → contains self.new.pages number ≡ (contains self.old.pages number || reaches at (at + length bytes.now) number)) }
        ensures err { OnErr result (self.new ≡ self.old) }
    {
        if bytes.is_empty() {
            return Ok(());
        }
        pages::overlay(&mut self.pages, self.alloc, at as usize, bytes)?;
        self.len = self.len.max(at + bytes.len() as u32);
        Ok(())
    }

    /// Drops the bytes from an offset on. A file that is no longer than that stays as it is.
    pub fn cut(&mut self, len: u32)
        ensures bytes { self.new.bytes ≡ take len self.old.bytes }
        ensures pages { (number : ℕ) → contains self.new.pages number ≡ (contains self.old.pages number && nat_lt (number * 4096) len) }
    {
        let before = self.len;
        if before <= len {
            return;
        }
        pages::cut(&mut self.pages, len as usize);
        self.len = len;
    }

    /// Makes a span of the file what it is in another file, whose bytes there end in zeros or at its
    /// end: writes the bytes, and makes what is present of the rest of the span zero.
    pub fn copy_in(&mut self, at: u32, span: u32, bytes: &[u8]) -> Result<(), NoMemory>
        requires end { at + span ≤ 1048576 }
        requires len { length bytes.now ≤ span }
        ensures ok { OnOk result (self.new.bytes ≡ copied_in at span bytes.now self.old.bytes) }
        ensures pages { OnOk result ((number : ℕ) → contains self.new.pages number ≡ (contains self.old.pages number || reaches at (at + length bytes.now) number)) }
        ensures err { OnErr result (self.new ≡ self.old) }
    {
        self.write_at(at, bytes)?;
        self.zero(at as usize + bytes.len(), (at + span) as usize);
        Ok(())
    }

    /// Makes the present bytes from one offset up to another zero. Where the file ends before them, that is one comparison.
    fn zero(&mut self, from: usize, to: usize)
        requires order { from ≤ to }
        requires end { to ≤ 1048576 }
        ensures bytes { self.new.bytes ≡ zeroed from to self.old.bytes }
        ensures pages { self.new.pages ≡ self.old.pages }
    {
        let present = self.len as usize;
        if present <= from {
            return;
        }
        pages::zero(&mut self.pages, from, to);
    }

    /// Copies the bytes from an offset on into the front of `into`, and answers how many.
    pub fn read(&self, at: u32, into: &mut [u8]) -> usize
        ensures value { result ≡ min (length into.old) (length self.now.bytes - at) }
        ensures bytes { take result into.new ≡ take result (drop at self.now.bytes) }
        ensures rest { drop result into.new ≡ drop result into.old }
    {
        let at = at as usize;
        let len = self.len as usize;
        if at >= len {
            return 0;
        }
        let count = into.len().min(len - at);
        pages::read(&self.pages, at, &mut into[..count]);
        count
    }
}

/// What it means that the bytes from one offset up to another reach a page.
pub fn bytes_reach_a_page()
    ensures { (from to number : ℕ) → (reaches from to number ≡ true) ↔ ((i : ℕ) × (from ≤ i) × (i < to) × (i / 4096 ≡ number)) }
{}
