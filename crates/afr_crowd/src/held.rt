//! Who was told that another holds its lock, since the last line that told of something else.
ghost use Rattle.std.specs.Prelude.{◌≡◌, ◌<◌, ◌≤◌, nat_lt, replicate, slice_index_or, slice_set};

use afr_base::ActorId;

const ACTORS: usize = afr_base::ACTORS;

/// What is noted of the lines that told an actor so.
#[derive(Drop)]
pub struct Held {
    /// The length of the log after the last line that told of something else.
    moved: u32,
    /// By the numbers of the actors: the length of the log after the last line of each that was told so.
    told: [u32; ACTORS],
}

impl Held {
    pub fn new() -> Held
        ensures { result ≡ record { moved = 0; told = replicate 20 0 } }
    {
        Held {
            moved: 0,
            told: [0; ACTORS],
        }
    }

    /// The log has come to this length by a line that told of something else.
    pub fn note_moved(&mut self, len: u32)
        ensures { self.new ≡ record self.old { moved = len } }
    {
        self.moved = len;
    }

    /// The same of the events that came since the log had so many lines.
    pub fn note_events(&mut self, before: u32, len: u32)
        ensures some { before < len → self.new ≡ record self.old { moved = len } }
        ensures none { len ≤ before → self.new ≡ self.old }
    {
        if len > before {
            self.moved = len;
        }
    }

    /// The log has come to this length by a line that told the actor so.
    pub fn note_held(&mut self, a: ActorId, len: u32)
        ensures { a.0 < 20 → self.new ≡ record self.old { told = slice_set self.old.told a.0 len } }
    {
        let at = a.0 as usize;
        if at < ACTORS {
            self.told[at] = len;
        }
    }

    /// Whether a line that told of something else came after so many lines.
    pub fn has_moved(&self, before: u32) -> bool {
        self.moved > before
    }

    /// Whether the actor was told so, and since then came no other line than such ones.
    pub fn has(&self, a: ActorId) -> bool
        ensures { a.0 < 20 → result ≡ nat_lt self.now.moved (slice_index_or self.now.told a.0 0) }
    {
        match self.told.get(a.0 as usize) {
            Some(told) => *told > self.moved,
            None => false,
        }
    }
}
