//! Sources and sinks in memory: two that fail in planned calls, and two that never fail.
ghost use Rattle.std.specs.Prelude.{Some, None, Ok, [], drop, take, min, ◌++◌, length, ◌+◌, ◌-◌, ◌^◌, ◌≡◌, ◌≤◌, ◌<◌, ◌↔◌, IsErr, IfOk};
ghost use Rattle.std.specs.Io.{ReadsAtMost, WritesAtMost};
ghost use Rattle.std.specs.Io.KnownBytes.{ReadConsumes, WriteAppends};
ghost use Rattle.afr_text.specs.Causes.{HasCause};
ghost use Rattle.afr_text.specs.Memory.{scheduled, IsToFail, after_call};

use crate::outside::{Failed, Sink, Source};
use std::alloc::Global;
use std::marker::Model;

/// Which calls are to fail, and how often one did.
#[derive(Drop)]
struct Faults {
    fails: Vec<u32>,
    calls: u32,
    count: u64,
}

impl Model for Faults {
    ghost use Rattle.afr_text.specs.Memory.{Schedule};

    ghost Value = { Schedule };

    ghost view = { λ f. record { fails = f.fails.items; calls = f.calls; faults = f.count } };
}

impl Faults {
    fn new(fails: Vec<u32>) -> Faults
        ensures value { result ≡ scheduled fails.items }
    {
        Faults {
            fails,
            calls: 0,
            count: 0,
        }
    }

    /// Begins a call, which fails where that is planned.
    fn begin(&mut self) -> Result<(), Failed>
        ensures planned { IsErr result ↔ IsToFail self.old }
        ensures value { self.new ≡ after_call result self.old }
        ensures cause { HasCause self.old.faults self.new.faults result }
    {
        self.calls = self.calls.saturating_add(1);
        if self.fails.contains(&self.calls) {
            return Err(Failed::counted(&mut self.count));
        }
        Ok(())
    }

    /// The call that began well has failed after all.
    fn fail(&mut self) -> Failed
        ensures value { self.new ≡ record self.old { faults = min (self.old.faults + 1) (2 ^ 64 - 1) } }
        ensures later { self.old.faults ≤ self.new.faults }
    {
        Failed::counted(&mut self.count)
    }
}

/// Gives bytes from memory in pieces, and fails in the planned calls.
#[derive(Drop)]
pub struct MemSource {
    bytes: Vec<u8>,
    at: usize,
    most: usize,
    faults: Faults,
}

impl Model for MemSource {
    ghost use Rattle.std.specs.Prelude.{◌≤◌, ◌<◌, drop, vec_len};
    ghost use Rattle.afr_text.specs.Memory.{Given};

    ghost Value = { Given };

    ghost view = { λ s. record { left = drop s.at s.bytes.items; most = s.most; schedule = s.faults } };

    ghost invariant = { λ s. (s.at ≤ vec_len s.bytes) × (0 < s.most) };
}

impl MemSource {
    /// One call gives at most `most` bytes. The calls listed in `fails` fail; the first call is 1.
    pub fn new(bytes: Vec<u8>, most: usize, fails: Vec<u32>) -> MemSource
        requires { 0 < most }
        ensures value { result ≡ record { left = bytes.items; most = most; schedule = scheduled fails.items } }
        ensures left { ⟦<MemSource as Source>⟧.left result ≡ Some bytes.items }
        ensures faults { ⟦<MemSource as Source>⟧.faults result ≡ 0 }
    {
        MemSource {
            bytes,
            at: 0,
            most,
            faults: Faults::new(fails),
        }
    }
}

impl Source for MemSource {
    ghost left = { λ s. Some s.left };

    ghost faults = { λ s. s.schedule.faults };

    fn read(&mut self, into: &mut [u8]) -> Result<usize, Failed>
        ensures len { ReadsAtMost result into.new }
        ensures value { ReadConsumes (Some self.old.left) (Some self.new.left) result into.new }
        ensures cause { HasCause self.old.schedule.faults self.new.schedule.faults result }
        ensures planned { IsErr result ↔ IsToFail self.old.schedule }
        ensures schedule { self.new.schedule ≡ after_call result self.old.schedule }
        ensures most { self.new.most ≡ self.old.most }
        ensures ok { IfOk result (λ count. count ≡ min (min (length into.new) self.old.most) (length self.old.left)) }
    {
        self.faults.begin()?;
        let most = self.most;
        Ok(give(&self.bytes, &mut self.at, into, most))
    }
}

/// Takes bytes in pieces and keeps them, and fails in the planned calls and where memory is refused.
#[derive(Drop)]
pub struct MemSink {
    bytes: Vec<u8>,
    most: usize,
    faults: Faults,
}

impl Model for MemSink {
    ghost use Rattle.std.specs.Prelude.{◌<◌};
    ghost use Rattle.afr_text.specs.Memory.{Kept};

    ghost Value = { Kept };

    ghost view = { λ s. record { taken = s.bytes.items; most = s.most; schedule = s.faults } };

    ghost invariant = { λ s. 0 < s.most };
}

impl MemSink {
    /// One call takes at most `most` bytes. The calls listed in `fails` fail; the first call is 1.
    pub fn new(alloc: Global, most: usize, fails: Vec<u32>) -> MemSink
        requires { 0 < most }
        ensures value { result ≡ record { taken = []; most = most; schedule = scheduled fails.items } }
        ensures taken { ⟦<MemSink as Sink>⟧.taken result ≡ Some [] }
        ensures faults { ⟦<MemSink as Sink>⟧.faults result ≡ 0 }
    {
        MemSink {
            bytes: Vec::new(alloc),
            most,
            faults: Faults::new(fails),
        }
    }

    /// The bytes taken so far.
    pub fn taken(&self) -> &[u8]
        ensures value { Some result.now ≡ ⟦<MemSink as Sink>⟧.taken self.now }
    {
        self.bytes.as_slice()
    }
}

impl Sink for MemSink {
    ghost taken = { λ s. Some s.taken };

    ghost faults = { λ s. s.schedule.faults };

    fn write(&mut self, from: &[u8]) -> Result<usize, Failed>
        ensures len { WritesAtMost result from.now }
        ensures ok { 0 < length from.now → IfOk result (λ count. 0 < count) }
        ensures value { WriteAppends (Some self.old.taken) (Some self.new.taken) result from.now }
        ensures cause { HasCause self.old.schedule.faults self.new.schedule.faults result }
        ensures planned { IsToFail self.old.schedule → IsErr result }
        ensures schedule { self.new.schedule ≡ after_call result self.old.schedule }
        ensures most { self.new.most ≡ self.old.most }
        ensures count { IfOk result (λ count. count ≡ min (length from.now) self.old.most) }
    {
        self.faults.begin()?;
        let count = from.len().min(self.most);
        if self.bytes.extend_from_slice(&from[..count]).is_err() {
            return Err(self.faults.fail());
        }
        Ok(count)
    }
}

/// Gives bytes from memory, as many as there is room for, and never fails.
#[derive(Drop)]
pub struct SureSource {
    bytes: Vec<u8>,
    at: usize,
}

impl Model for SureSource {
    ghost use Rattle.std.specs.Prelude.{ℕ, List, ◌≤◌, drop, vec_len};

    ghost Value = { List ℕ };

    ghost view = { λ s. drop s.at s.bytes.items };

    ghost invariant = { λ s. s.at ≤ vec_len s.bytes };
}

impl SureSource {
    /// All the bytes are still to come.
    pub fn new(bytes: Vec<u8>) -> SureSource
        ensures left { ⟦<SureSource as Source>⟧.left result ≡ Some bytes.items }
        ensures faults { ⟦<SureSource as Source>⟧.faults result ≡ 0 }
    {
        SureSource { bytes, at: 0 }
    }
}

impl Source for SureSource {
    ghost left = { λ s. Some s };

    ghost faults = { λ s. 0 };

    fn read(&mut self, into: &mut [u8]) -> Result<usize, Failed>
        ensures len { ReadsAtMost result into.new }
        ensures value { ReadConsumes (Some self.old) (Some self.new) result into.new }
        ensures cause { HasCause 0 0 result }
        ensures ok { result ≡ Ok (min (length into.new) (length self.old)) }
    {
        Ok(give(&self.bytes, &mut self.at, into, usize::MAX))
    }
}

/// Takes each piece whole, keeps nothing of it, and never fails.
#[derive(Clone, Copy, Debug, Default)]
pub struct SureSink;

impl SureSink {
    /// It tells no bytes taken, at the start and later.
    pub fn new() -> SureSink
        ensures taken { ⟦<SureSink as Sink>⟧.taken result ≡ None }
        ensures faults { ⟦<SureSink as Sink>⟧.faults result ≡ 0 }
    {
        SureSink
    }
}

impl Sink for SureSink {
    ghost taken = { λ s. None };

    ghost faults = { λ s. 0 };

    fn write(&mut self, from: &[u8]) -> Result<usize, Failed>
        ensures len { WritesAtMost result from.now }
        ensures ok { 0 < length from.now → IfOk result (λ count. 0 < count) }
        ensures value { WriteAppends None None result from.now }
        ensures cause { HasCause 0 0 result }
        ensures whole { result ≡ Ok (length from.now) }
    {
        Ok(from.len())
    }
}

/// Copies the next bytes into a piece, as many as there are and fit, at most so many, and says how many.
fn give(bytes: &[u8], at: &mut usize, into: &mut [u8], most: usize) -> usize
    requires within { at.old ≤ length bytes.now }
    ensures within { at.new ≤ length bytes.now }
    ensures len { length into.new ≡ length into.old }
    ensures count { result ≡ min (min (length into.new) most) (length (drop at.old bytes.now)) }
    ensures value { take result into.new ++ drop at.new bytes.now ≡ drop at.old bytes.now }
    ensures end { result ≡ 0 → 0 < most → 0 < length into.new → length bytes.now ≤ at.new }
{
    let count = into.len().min(most).min(bytes.len() - *at);
    into[..count].copy_from_slice(&bytes[*at..*at + count]);
    *at += count;
    count
}
