//! The text that data had last, which the next shares where it has the same.
ghost use Rattle.std.specs.Prelude.{◌≡◌, [], IfOk};

use afr_base::NoMemory;
use afr_object::{Chunk, TryCopy};
use afr_plan_line::is_same;
use std::alloc::Global;
use std::marker::Model;

/// A text, and its bytes as a chunk.
#[derive(Drop)]
pub(crate) struct LastText<'t> {
    text: &'t [u8],
    bytes: Chunk,
}

impl<'t> Model for LastText<'t> {
    ghost use Rattle.std.specs.Prelude.{◌≡◌, List, ℕ};

    ghost Value = { List ℕ };

    ghost view = { λ t. t.text.now };

    ghost invariant = { λ t. t.bytes ≡ t.text.now };
}

impl<'t> LastText<'t> {
    pub(crate) fn new(alloc: Global) -> LastText<'t>
        ensures { result ≡ [] }
    {
        LastText {
            text: &[],
            bytes: Chunk::new(alloc),
        }
    }

    /// The bytes of a text, which becomes the last one.
    pub(crate) fn chunk(&mut self, alloc: Global, text: &'t [u8]) -> Result<Chunk, NoMemory>
        ensures { IfOk result (λ chunk. chunk ≡ text.now) }
    {
        if !is_same(text, self.text) {
            self.bytes = Chunk::from_vec(text.to_vec(alloc)?)?;
            self.text = text;
        }
        self.bytes.copy()
    }
}
