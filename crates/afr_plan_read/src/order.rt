//! What a line may say only after certain others.
ghost use Rattle.std.specs.Prelude.{◌≡◌, ◌∷◌, ◌++◌, [], false, OnOk, OnErr, reverse, map};
ghost use Rattle.std.specs.List.{list_any};
ghost use Rattle.afr_plan_read.specs.Counts.{IsCounted};
ghost use Rattle.afr_plan_read.specs.FaultPlaces.{is_place, ArePlaces, place_at};
ghost use Rattle.afr_plan.specs.Rules as rule;
ghost use Rattle.afr_plan_line.specs.Seen.{seen, seen_who, seen_event};

use crate::keyed::Keyed;
use crate::totals::LineCounts;
use afr_base::NoMemory;
use afr_plan_line::{Spoken, SpokenEvent, SpokenWho};
use indexmap::IndexSet;
use std::alloc::Global;
use std::marker::Model;

/// The brick of a fault, and which request to it goes wrong.
#[derive(Clone, Copy, PartialEq, Eq, Hash)]
pub(crate) struct FaultPlace {
    brick: u8,
    at: u32,
}

/// The places of the faults so far. Contracts see them as a list. They are hashed without a key, since
/// a plan has at most 1024 faults: all of them are read in a millisecond, however they collide.
#[derive(Drop)]
pub(crate) struct FaultPlaces {
    set: IndexSet<FaultPlace, Keyed>,
}

impl Model for FaultPlaces {
    ghost use Rattle.std.specs.Prelude.{List};
    ghost use Rattle.afr_plan_read.specs.declared.order.FaultPlace.{FaultPlace};

    ghost Value = { List FaultPlace };

    ghost view = { λ p. p.set.keys };
}

impl FaultPlaces {
    pub(crate) fn new(alloc: Global) -> FaultPlaces
        ensures { result ≡ [] }
    {
        FaultPlaces {
            set: IndexSet::with_hasher(alloc, Keyed::unkeyed()),
        }
    }

    /// Whether a fault stands at this place, in one look-up.
    fn has(&self, brick: u8, at: u32) -> bool
        ensures { result ≡ list_any (is_place brick at) self.now }
    {
        self.set.contains(&FaultPlace { brick, at })
    }

    /// One place more.
    pub(crate) fn add(&mut self, brick: u8, at: u32) -> Result<(), NoMemory>
        requires new { list_any (is_place brick at) self.old ≡ false }
        ensures ok { OnOk result (self.new ≡ self.old ++ place_at brick at ∷ []) }
        ensures err { OnErr result (self.new ≡ self.old) }
    {
        self.set.insert(FaultPlace { brick, at })?;
        Ok(())
    }
}

fn lacks_brick(before: &[Spoken], counts: &LineCounts, brick: u8) -> bool
    requires counts { IsCounted (reverse (map seen before.now)) counts.now }
    ensures { result ≡ rule.lacks_brick (reverse (map seen before.now)) brick }
{
    brick >= counts.bricks
}

fn lacks_who(before: &[Spoken], counts: &LineCounts, who: &SpokenWho) -> bool
    requires counts { IsCounted (reverse (map seen before.now)) counts.now }
    ensures { result ≡ rule.lacks_who (reverse (map seen before.now)) (seen_who who.now) }
{
    match who {
        SpokenWho::OfClient(number) => *number == 0 || counts.clients < u32::from(*number),
        SpokenWho::OfHealer(number) => *number == 0 || counts.healers < u32::from(*number),
    }
}

fn is_event_disordered(before: &[Spoken], counts: &LineCounts, event: &SpokenEvent) -> bool
    requires counts { IsCounted (reverse (map seen before.now)) counts.now }
    ensures { result ≡ rule.is_event_disordered (reverse (map seen before.now)) (seen_event event.now) }
{
    match event {
        SpokenEvent::Stop(brick) => lacks_brick(before, counts, *brick),
        SpokenEvent::Start(brick) => lacks_brick(before, counts, *brick),
        SpokenEvent::Cut(who, brick) => lacks_who(before, counts, who)
            || lacks_brick(before, counts, *brick),
        SpokenEvent::Join(who, brick) => lacks_who(before, counts, who)
            || lacks_brick(before, counts, *brick),
        SpokenEvent::Kill(who) => lacks_who(before, counts, who),
    }
}

/// Whether a number isn't the next one, a brick or an actor isn't there, a fault stands before, or
/// a position falls.
pub(crate) fn is_disordered(
    before: &[Spoken],
    counts: &LineCounts,
    places: &FaultPlaces,
    spoken: &Spoken,
) -> bool
    requires counts { IsCounted (reverse (map seen before.now)) counts.now }
    requires places { ArePlaces (reverse (map seen before.now)) places.now }
    ensures { result ≡ rule.is_disordered (reverse (map seen before.now)) (seen spoken.now) }
{
    match spoken {
        Spoken::Client(number) => *number != counts.clients + 1,
        Spoken::Healer(number) => *number != counts.healers + 1,
        Spoken::Round(brick) => lacks_brick(before, counts, *brick),
        Spoken::Faulty {
            brick,
            at,
            fault: _,
        } => lacks_brick(before, counts, *brick) || places.has(*brick, *at),
        Spoken::At { at, event } => {
            *at < counts.last_at || is_event_disordered(before, counts, event)
        }
        Spoken::Go { who, count: _ } => lacks_who(before, counts, who),
        Spoken::Afr(_) => false,
        Spoken::Volume(_, _) => false,
        Spoken::Files(_) => false,
        Spoken::Turns(_) => false,
        Spoken::Command { path: _, action: _ } => false,
        Spoken::End => false,
    }
}
