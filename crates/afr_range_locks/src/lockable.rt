//! What a lock can cover, where it stands, and where what conflicts with it can stand.
ghost use Rattle.std.specs.Prelude.{◌≡◌, ◌<◌, ◌^◌, Bool, true};
ghost use Rattle.afr_range_locks.specs.Reached.{IsForward, reaches};
ghost use Rattle.afr_range_locks.specs.declared.lockable.Place.{Place as APlace};

use afr_base::Gfid;

/// Where what a lock covers stands: on an object, from a start on.
#[derive(Clone, Copy, Debug)]
pub struct Place {
    pub gfid: Gfid,
    pub start: u64,
}

/// The starts from one number up to another, both included.
#[derive(Clone, Copy, Debug)]
pub struct Span {
    pub from: u64,
    pub to: u64,
}

/// The starts, on the same object, of all that may overlap with something: one span, or two.
#[derive(Clone, Copy, Debug)]
pub struct Reach {
    pub first: Span,
    pub second: Option<Span>,
}

/// What a lock can cover.
pub trait Lockable: Copy {
    /// Two owners can't lock both at a time.
    ghost overlap: { Self → Self → Bool };

    /// They are the same.
    ghost same: { Self → Self → Bool };

    /// Where it stands.
    ghost at: { Self → APlace };

    fn overlaps(&self, other: &Self) -> bool
        ensures { result ≡ overlap self.now other.now };

    fn is_same(&self, other: &Self) -> bool
        ensures { result ≡ same self.now other.now };

    fn place(&self) -> Place
        ensures value { result ≡ at self.now }
        ensures same { (other : Self) → same self.now other ≡ true → at other ≡ at self.now };

    /// Where what overlaps stands; a search for conflicts looks nowhere else.
    fn reach(&self) -> Reach
        ensures order { IsForward result }
        ensures object { (other : Self) → overlap self.now other ≡ true → (at other).gfid ≡ (at self.now).gfid }
        ensures start { (other : Self) → overlap self.now other ≡ true → (at other).start < 2 ^ 64 → reaches result (at other).start ≡ true };
}
