//! The two traits for what lies outside: a source of bytes and a sink for them.
ghost use Rattle.std.specs.Prelude.{ℕ, List, ◌<◌, ◌≤◌, ◌≡◌, ◌+◌, ◌-◌, ◌^◌, min, IfOk, length, Option};
ghost use Rattle.std.specs.Io.{ReadsAtMost, WritesAtMost};
ghost use Rattle.std.specs.Io.KnownBytes.{ReadConsumes, WriteAppends};
ghost use Rattle.afr_text.specs.Causes.{HasCause};

/// One read or write failed. It says no more: the count of the source or the sink tells that it is true.
#[derive(Clone, Copy, Debug, PartialEq, Eq)]
pub struct Failed;

impl Failed {
    /// The answer of a call that failed, once its fault is counted.
    pub(crate) fn counted(faults: &mut u64) -> Failed
        ensures value { faults.new ≡ min (faults.old + 1) (2 ^ 64 - 1) }
        ensures later { faults.old ≤ faults.new }
    {
        *faults = faults.saturating_add(1);
        Failed
    }
}

/// Bytes that come in pieces.
pub trait Source {
    /// The bytes still to come, where the source tells them.
    ghost left: { Self → Option (List ℕ) };

    /// How often the source has failed.
    ghost faults: { Self → ℕ };

    /// Gives the next bytes, and how many they are. None come only at the end, or where there is no room for one.
    fn read(&mut self, into: &mut [u8]) -> Result<usize, Failed>
        ensures len { ReadsAtMost result into.new }
        ensures value { ReadConsumes (left self.old) (left self.new) result into.new }
        ensures cause { HasCause (faults self.old) (faults self.new) result };
}

/// Bytes that go out in pieces.
pub trait Sink {
    /// The bytes taken so far, where the sink tells them.
    ghost taken: { Self → Option (List ℕ) };

    /// How often the sink has failed.
    ghost faults: { Self → ℕ };

    /// Takes the first bytes of a piece, and says how many. To take none of a piece that has bytes is a fault.
    fn write(&mut self, from: &[u8]) -> Result<usize, Failed>
        ensures len { WritesAtMost result from.now }
        ensures ok { 0 < length from.now → IfOk result (λ count. 0 < count) }
        ensures value { WriteAppends (taken self.old) (taken self.new) result from.now }
        ensures cause { HasCause (faults self.old) (faults self.new) result };
}
