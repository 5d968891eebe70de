//! What a tally tells of its log.
ghost use Rattle.std.specs.Prelude.{◌≡◌, ◌-◌, ◌<◌, ◌≤◌, ℕ, reverse, length, slice_index, option_map, IfOk};
ghost use Rattle.afr_base.specs.Bricks.{member};
ghost use Rattle.afr_lines.specs.Locks.{first_conflict};
ghost use Rattle.afr_lines.specs.Overlap.{overlap};
ghost use Rattle.afr_lines.specs.Places.{opens, place_of};
ghost use Rattle.afr_lines.specs.Work.{ended, events_made, is_killed};
ghost use Rattle.afr_model.specs.Honest.{requests_to};
ghost use Rattle.afr_model.specs.Locks.{locks_held};
ghost use Rattle.afr_model.specs.Report.{started_bricks};
ghost use Rattle.afr_model.specs.Sessions.{is_joined, is_linked, opens_with};
ghost use Rattle.afr_model.specs.Sums.{dirty_of, has_object, pending_of};
ghost use Rattle.afr_model.specs.Tables.{bytes_shown, held_before, keeps_bytes, names_shown};
ghost use Rattle.afr_lines.specs.Log.{from_oldest};
ghost use Rattle.afr_object.specs.Tables.{copy_at, view_of};
ghost use Rattle.afr_trace_tables.specs.Plain.{plain_tables};
ghost use Rattle.afr_trace_tally.specs.Actors.{IsActorTally};
ghost use Rattle.afr_trace_tally.specs.Bricks.{IsBrickTally};
ghost use Rattle.afr_trace_tally.specs.Contents.{IsShort, bytes_among, contents_seen};
ghost use Rattle.afr_trace_tally.specs.Counts.{IsSmall, count_of};
ghost use Rattle.afr_trace_tally.specs.Entries.{entry_shown};
ghost use Rattle.afr_trace_tally.specs.Flags.{five};
ghost use Rattle.afr_trace_tally.specs.Tally.{IsTally};

use crate::actors::ActorTally;
use crate::bricks::BrickTally;
use crate::contents::{Kept, kept_at, names_in};
use crate::counts::{Count, count_at};
use crate::entries::entry_in;
use crate::locks::first_conflict;
use crate::sessions::{opens, opens_with};
use crate::tally::Tally;
use afr_base::{ActorId, BrickId, Gfid, Kind, Marks, NoMemory};
use afr_brick::Brick;
use afr_lines::{Area, Domain, Line};
use afr_object::{Entry, List, NameList, View};
use afr_plan::Plan;
use std::alloc::Global;

fn less(more: u64, taken: u64) -> u32
    requires { more < 2147483648 }
    ensures { result ≡ more - taken }
{
    more.saturating_sub(taken) as u32
}

fn marks_in(count: &Count) -> Marks
    requires opened { count.now.opened < 2147483648 }
    requires blamed { (b : ℕ) → b < 5 → slice_index count.now.blamed b < 2147483648 }
    ensures { result ≡ record { dirty = count.now.opened - count.now.closed; pending = five (λ b. slice_index count.now.blamed b - slice_index count.now.settled b) } }
{
    Marks {
        dirty: less(count.opened, count.closed),
        pending: [
            less(count.blamed[0], count.settled[0]),
            less(count.blamed[1], count.settled[1]),
            less(count.blamed[2], count.settled[2]),
            less(count.blamed[3], count.settled[3]),
            less(count.blamed[4], count.settled[4]),
        ],
    }
}

/// How many bytes contents have.
fn len_in(kept: &Kept) -> u32
    requires { IsShort (contents_seen kept.now) }
    ensures { result ≡ length (bytes_among (contents_seen kept.now)) }
{
    match kept {
        Kept::Bytes(bytes) => bytes.len() as u32,
        Kept::Nothing => 0,
        Kept::Attrs(_) => 0,
        Kept::Names(_) => 0,
    }
}

impl Tally {
    fn actor(&self, plan: &Plan, log: &[Line], a: ActorId) -> &ActorTally
        requires tally { IsTally plan.now (reverse log.now) self.now }
        requires known { a.0 < 20 }
        ensures { IsActorTally plan.now (reverse log.now) a.0 result.now }
    {
        let _plan = plan;
        let _log = log;
        &self.actors[a.0 as usize]
    }

    fn brick(&self, plan: &Plan, log: &[Line], b: BrickId) -> &BrickTally
        requires tally { IsTally plan.now (reverse log.now) self.now }
        requires known { b.0 < 5 }
        ensures { IsBrickTally plan.now (reverse log.now) b.0 result.now }
    {
        let _plan = plan;
        let _log = log;
        &self.bricks[b.0 as usize]
    }

    // ---- actors

    /// How many works of the actor have ended.
    pub fn ended(&self, plan: &Plan, log: &[Line], a: ActorId) -> u32
        requires tally { IsTally plan.now (reverse log.now) self.now }
        requires known { a.0 < 20 }
        ensures { result ≡ ended a.0 (reverse log.now) }
    {
        self.actor(plan, log, a).ended
    }

    pub fn is_killed(&self, plan: &Plan, log: &[Line], a: ActorId) -> bool
        requires tally { IsTally plan.now (reverse log.now) self.now }
        requires known { a.0 < 20 }
        ensures { result ≡ is_killed a.0 (reverse log.now) }
    {
        self.actor(plan, log, a).killed
    }

    /// How many events have come.
    pub fn events(&self, plan: &Plan, log: &[Line]) -> u32
        requires tally { IsTally plan.now (reverse log.now) self.now }
        ensures { result ≡ events_made (reverse log.now) }
    {
        let _plan = plan;
        let _log = log;
        self.events
    }

    /// Whether a session is live.
    pub fn is_joined(&self, plan: &Plan, log: &[Line], a: ActorId, b: BrickId) -> bool
        requires tally { IsTally plan.now (reverse log.now) self.now }
        requires actor { a.0 < 20 }
        requires brick { b.0 < 5 }
        ensures { result ≡ is_joined plan.now a.0 b.0 (reverse log.now) }
    {
        self.actor(plan, log, a).joined[b.0 as usize]
    }

    /// Whether the link of an actor and a brick is up.
    fn is_linked(&self, plan: &Plan, log: &[Line], a: ActorId, b: BrickId) -> bool
        requires tally { IsTally plan.now (reverse log.now) self.now }
        requires actor { a.0 < 20 }
        requires brick { b.0 < 5 }
        ensures { result ≡ is_linked a.0 b.0 (reverse log.now) }
    {
        self.actor(plan, log, a).linked[b.0 as usize]
    }

    /// Whether a brick is started.
    pub fn is_started(&self, plan: &Plan, log: &[Line], b: BrickId) -> bool
        requires tally { IsTally plan.now (reverse log.now) self.now }
        requires brick { b.0 < 5 }
        ensures { result ≡ member (started_bricks plan.now.shape.n (reverse log.now)) b.0 }
    {
        let _plan = plan;
        let _log = log;
        self.started[b.0 as usize]
    }

    /// Whether the next line opens the actor's session with a brick.
    pub fn opens_with(&self, plan: &Plan, log: &[Line], a: ActorId, b: BrickId, line: &Line) -> bool
        requires tally { IsTally plan.now (reverse log.now) self.now }
        requires actor { a.0 < 20 }
        requires brick { b.0 < 5 }
        ensures { result ≡ opens_with plan.now a.0 b.0 line.now (reverse log.now) }
    {
        let place = self.actor(plan, log, a).place;
        let started = self.is_started(plan, log, b);
        let linked = self.is_linked(plan, log, a, b);
        opens_with(a, line, place, started, linked)
    }

    /// Whether the actor's next line is the first of a work or of a heal, where it is this one.
    pub fn opens(&self, plan: &Plan, log: &[Line], a: ActorId, line: &Line) -> bool
        requires tally { IsTally plan.now (reverse log.now) self.now }
        requires known { a.0 < 20 }
        ensures { result ≡ opens (place_of a.0 (reverse log.now)) line.now }
    {
        opens(self.actor(plan, log, a).place, line)
    }

    // ---- bricks

    /// Who is in the way of a lock.
    pub fn conflict(
        &self,
        plan: &Plan,
        log: &[Line],
        b: BrickId,
        a: ActorId,
        domain: Domain,
        area: &Area,
    ) -> Option<ActorId>
        requires tally { IsTally plan.now (reverse log.now) self.now }
        requires brick { b.0 < 5 }
        ensures { result ≡ first_conflict overlap (record { owner = a; domain = domain; area = area.now }) (locks_held b.0 (reverse log.now)) }
    {
        let locks = self.brick(plan, log, b).locks.as_slice();
        first_conflict(a, domain, area, locks)
    }

    /// How many requests a brick was asked.
    pub fn requests(&self, plan: &Plan, log: &[Line], b: BrickId) -> u32
        requires tally { IsTally plan.now (reverse log.now) self.now }
        requires brick { b.0 < 5 }
        ensures value { result ≡ requests_to b.0 (reverse log.now) }
        ensures few { result ≤ length log.now }
    {
        self.brick(plan, log, b).requests
    }

    /// The tables of a brick, with all numbers 0.
    pub fn tables(&self, plan: &Plan, log: &[Line], b: BrickId) -> &Brick
        requires tally { IsTally plan.now (reverse log.now) self.now }
        requires brick { b.0 < 5 }
        ensures { result.now ≡ record { keeps = keeps_bytes plan.now b.0; objects = (plain_tables plan.now (reverse log.now)).now b.0 } }
    {
        &self.brick(plan, log, b).brick
    }

    /// What a brick has of an object, with all numbers 0.
    pub fn look(&self, plan: &Plan, log: &[Line], b: BrickId, g: Gfid) -> Option<View>
        requires tally { IsTally plan.now (reverse log.now) self.now }
        requires brick { b.0 < 5 }
        ensures { result ≡ option_map view_of (copy_at g ((plain_tables plan.now (reverse log.now)).now b.0)) }
    {
        self.brick(plan, log, b).brick.look(g)
    }

    /// Whether a brick has an object.
    pub fn has_object(&self, plan: &Plan, log: &[Line], b: BrickId, g: Gfid) -> bool
        requires tally { IsTally plan.now (reverse log.now) self.now }
        requires brick { b.0 < 5 }
        ensures { result ≡ has_object plan.now (reverse log.now) g b.0 }
    {
        self.look(plan, log, b, g).is_some()
    }

    /// What was counted in the numbers of a copy.
    fn count(&self, plan: &Plan, log: &[Line], b: BrickId, g: Gfid, kind: Kind) -> Count
        requires tally { IsTally plan.now (reverse log.now) self.now }
        requires brick { b.0 < 5 }
        ensures value { result ≡ count_of plan.now (reverse log.now) b.0 g kind }
        ensures small { IsSmall (length log.now) result }
    {
        count_at(&self.brick(plan, log, b).counts, g, kind)
    }

    /// The numbers of a copy as sums over the log.
    pub fn marks(&self, plan: &Plan, log: &[Line], b: BrickId, g: Gfid, kind: Kind) -> Marks
        requires tally { IsTally plan.now (reverse log.now) self.now }
        requires brick { b.0 < 5 }
        requires few { length log.now < 2147483648 }
        ensures { result ≡ record { dirty = dirty_of plan.now (reverse log.now) b.0 g kind; pending = five (λ c. pending_of plan.now (reverse log.now) b.0 c g kind) } }
    {
        let count = self.count(plan, log, b, g, kind);
        marks_in(&count)
    }

    // ---- reads

    /// How many bytes the line at a position showed.
    pub fn read_len(&self, plan: &Plan, log: &[Line], position: u32) -> u32
        requires tally { IsTally plan.now (reverse log.now) self.now }
        ensures { result ≡ length (bytes_shown (held_before plan.now (reverse log.now)) position (from_oldest position (reverse log.now))) }
    {
        let _plan = plan;
        let _log = log;
        match kept_at(self.shown.as_slice(), position) {
            Some(kept) => len_in(kept),
            None => 0,
        }
    }

    /// The names that the line at a position showed.
    pub fn names_shown(
        &self,
        alloc: Global,
        plan: &Plan,
        log: &[Line],
        position: u32,
    ) -> Result<NameList, NoMemory>
        requires tally { IsTally plan.now (reverse log.now) self.now }
        ensures { IfOk result (λ names. names ≡ names_shown (held_before plan.now (reverse log.now)) position (from_oldest position (reverse log.now))) }
    {
        let _plan = plan;
        let _log = log;
        match kept_at(self.shown.as_slice(), position) {
            Some(kept) => names_in(alloc, kept),
            None => Ok(List::new(alloc)),
        }
    }

    /// The entry that the line at a position showed, which asked for a name.
    pub fn entry_shown(&self, plan: &Plan, log: &[Line], position: u32) -> Option<Entry>
        requires tally { IsTally plan.now (reverse log.now) self.now }
        ensures { result ≡ entry_shown (held_before plan.now (reverse log.now)) position (from_oldest position (reverse log.now)) }
    {
        let _plan = plan;
        let _log = log;
        entry_in(self.entries.as_slice(), position)
    }
}
