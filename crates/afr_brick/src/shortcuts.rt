//! Places of objects that are found without a search.
ghost use Rattle.std.specs.Prelude.{◌≡◌, ◌+◌, ◌^◌, ℕ, [], Some, slice_get};
ghost use Rattle.afr_brick.specs.Placed.{Knows, Learns, Keeps, Remembers};

use afr_base::{Gfid, OPENING_GFIDS};
use std::alloc::Global;

/// The gfid of the first opening file.
const FIRST_OPENING: u128 = OPENING_GFIDS + 1;

/// So many slots there are for objects that are no opening files.
const SLOTS: usize = 256;

/// The places of the first opening files, and of some other objects, each in a slot by the end of its gfid. What is here is
/// right; an object that is not here may be placed all the same.
#[derive(Drop)]
pub struct Shortcuts {
    pub(crate) opening: Vec<usize>,
    pub(crate) others: Vec<(Gfid, usize)>,
}

impl Shortcuts {
    /// No place is known. It takes no memory.
    pub(crate) fn new(alloc: Global) -> Shortcuts
        ensures opening { result.opening.items ≡ [] }
        ensures others { result.others.items ≡ [] }
    {
        Shortcuts {
            opening: Vec::new(alloc),
            others: Vec::new(alloc),
        }
    }

    /// The place of an object, where it is known, in constant time.
    #[inline]
    pub(crate) fn place_of(&self, g: Gfid) -> Option<usize>
        ensures { (place : ℕ) → result ≡ Some place → Knows self.now g place }
    {
        if g.0 < FIRST_OPENING {
            return slot_place(self.others.as_slice(), g);
        }
        opening_place(self.opening.as_slice(), g)
    }

    /// Keeps the place of an object, where there is memory for it; that of another whose gfid ends alike is forgotten.
    pub(crate) fn add(&mut self, g: Gfid, place: usize)
        ensures { Learns g place self.old self.new }
    {
        if g.0 < FIRST_OPENING {
            note(&mut self.others, g, place);
        } else {
            remember(&mut self.opening, g, place);
        }
    }

    /// Forgets all.
    pub(crate) fn clear(&mut self)
        ensures opening { self.new.opening.items ≡ [] }
        ensures others { self.new.others.items ≡ [] }
    {
        self.opening.clear();
        self.others.clear();
    }
}

/// The place of one of the first opening files.
#[inline]
fn opening_place(opening: &[usize], g: Gfid) -> Option<usize>
    ensures { (place : ℕ) → result ≡ Some place → (i : ℕ) × (g.0 ≡ 2 ^ 64 + 1 + i) × (slice_get opening.now i ≡ Some place) }
{
    if g.0 < FIRST_OPENING {
        return None;
    }
    let number = g.0 - FIRST_OPENING;
    if number >= opening.len() as u128 {
        return None;
    }
    let at = number as usize;
    Some(opening[at])
}

/// The place of another object, where its slot has it.
#[inline]
fn slot_place(others: &[(Gfid, usize)], g: Gfid) -> Option<usize>
    ensures { (place : ℕ) → result ≡ Some place → (i : ℕ) × (slice_get others.now i ≡ Some (g, place)) }
{
    let at = slot_of(g);
    if at >= others.len() {
        return None;
    }
    let (known, place) = others[at];
    if known.0 != g.0 {
        return None;
    }
    Some(place)
}

fn slot_of(g: Gfid) -> usize {
    (g.0 & 0xff) as usize
}

/// Keeps the place of the next opening file, where there is memory for it.
fn remember(opening: &mut Vec<usize>, g: Gfid, place: usize)
    ensures { Remembers g place opening.old.items opening.new.items }
{
    if g.0 == FIRST_OPENING + opening.len() as u128 {
        match opening.push(place) {
            Ok(()) => {}
            Err(_) => {}
        }
    }
}

/// Keeps the place of an object in its slot. The first has all of them.
fn note(others: &mut Vec<(Gfid, usize)>, g: Gfid, place: usize)
    ensures { Keeps g place others.old.items others.new.items }
{
    if others.is_empty() {
        fill(others, g, place);
        return;
    }
    let at = slot_of(g);
    if at < others.len() {
        others[at] = (g, place);
    }
}

fn fill(others: &mut Vec<(Gfid, usize)>, g: Gfid, place: usize)
    ensures { Keeps g place others.old.items others.new.items }
{
    let _ = others.resize(SLOTS, (g, place));
}
