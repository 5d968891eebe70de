//! All that is kept of a log, one line more at a time.
ghost use Rattle.std.specs.Prelude.{Err, true, ◌≡◌, ◌+◌, ◌-◌, ◌<◌, ◌≤◌, ◌^◌, [], ◌∷◌, ◌++◌, length, reverse, IfOk, OnOk, if◌then◌else◌};
ghost use Rattle.afr_lines.specs.Work.{is_event};
ghost use Rattle.afr_base.specs.Bricks.{member};
ghost use Rattle.afr_model.specs.Report.{started_bricks};
ghost use Rattle.afr_object.specs.State.{IsInOrder};
ghost use Rattle.afr_trace_tables.specs.Plain.{plain_tables};
ghost use Rattle.afr_trace_tally.specs.Bricks.{AreBricks};
ghost use Rattle.afr_lines.specs.declared.line.Line.{Line};
ghost use Rattle.afr_plan.specs.declared.plan.Plan.{Plan};
ghost use Rattle.afr_trace_tally.specs.Contents.{IsShort, contents_seen, shown_at, shown_of};
ghost use Rattle.afr_trace_tally.specs.Flags.{flags};
ghost use Rattle.afr_trace_tally.specs.Room.{HasRoom};
ghost use Rattle.afr_trace_tally.specs.Tally.{AreActors, AsksKnown, IsTally};

use crate::actors::{ActorTally, first_started, new_actor, next_actor, next_started};
use crate::bricks::{BrickTally, add_to_bricks, new_bricks};
use crate::contents::{Kept, asked_by, carried_for, shown_of};
use crate::entries::{entry_now, keep_entry};
use crate::stop::TallyStop;
use crate::works::is_event;
use afr_base::{ActorId, BrickId, NoMemory};
use afr_lines::{Line, Request};
use afr_object::Entry;
use afr_plan::Plan;
use std::alloc::Global;

/// What the lines of a log so far have made of bricks and actors, how many events have come, what each line
/// showed that reads bytes, attributes or names, and which entry each showed that asked for a name.
#[derive(Drop)]
pub struct Tally {
    pub(crate) bricks: Vec<BrickTally>,
    pub(crate) actors: [ActorTally; 20],
    pub(crate) started: [bool; 5],
    pub(crate) events: u32,
    pub(crate) shown: Vec<Kept>,
    pub(crate) entries: Vec<Option<Entry>>,
}

fn new_actors() -> [ActorTally; 20]
    ensures { (p : Plan) → AreActors p [] result }
{
    [new_actor(); 20]
}

/// Each actor after one more line.
fn add_to_actors(
    actors: &mut [ActorTally; 20],
    plan: &Plan,
    line: &Line,
    older: &[Line],
    started: &[bool; 5],
)
    requires was { AreActors plan.now (reverse older.now) actors.old }
    requires started { started.now ≡ flags (λ b. member (started_bricks plan.now.shape.n (reverse older.now)) b) }
    requires few { length older.now < 2147483648 }
    ensures { AreActors plan.now (line.now ∷ reverse older.now) actors.new }
{
    for a in 0..20 {
        actors[a] = next_actor(ActorId(a as u16), line, started, &actors[a]);
    }
}

fn shown_by_brick(
    alloc: Global,
    bricks: &[BrickTally],
    plan: &Plan,
    older: &[Line],
    b: BrickId,
    request: &Request,
) -> Result<Kept, NoMemory>
    requires are { AreBricks plan.now (reverse older.now) bricks.now }
    requires brick { b.0 < 5 }
    ensures ok { IfOk result (λ kept. contents_seen kept ≡ shown_of request.now ((plain_tables plan.now (reverse older.now)).now b.0)) }
    ensures order { IfOk result (λ kept. IsInOrder (contents_seen kept)) }
    ensures short { IfOk result (λ kept. IsShort (contents_seen kept)) }
{
    let _plan = plan;
    let _older = older;
    shown_of(alloc, &bricks[b.0 as usize].brick, request)
}

/// What a line shows that reads.
fn shown_now(
    alloc: Global,
    bricks: &[BrickTally],
    plan: &Plan,
    line: &Line,
    older: &[Line],
) -> Result<Kept, NoMemory>
    requires are { AreBricks plan.now (reverse older.now) bricks.now }
    requires known { AsksKnown line.now }
    ensures ok { IfOk result (λ kept. contents_seen kept ≡ shown_at (plain_tables plan.now (reverse older.now)).now line.now) }
    ensures order { IfOk result (λ kept. IsInOrder (contents_seen kept)) }
    ensures short { IfOk result (λ kept. IsShort (contents_seen kept)) }
{
    match asked_by(line) {
        Some((b, request)) => shown_by_brick(alloc, bricks, plan, older, b, request),
        None => Ok(Kept::Nothing),
    }
}

fn keep(shown: &mut Vec<Kept>, more: Kept) -> Result<(), NoMemory>
    ensures ok { OnOk result (shown.new.items ≡ shown.old.items ++ more ∷ []) }
{
    shown.push(more)?;
    Ok(())
}

fn events_after(line: &Line, events: u32) -> u32
    requires { events < 2 ^ 32 - 1 }
    ensures { result ≡ (if is_event line.now then events + 1 else events) }
{
    if is_event(line) { events + 1 } else { events }
}

impl Tally {
    /// Before the first line.
    pub fn new(alloc: Global, plan: &Plan) -> Result<Tally, NoMemory>
        requires { plan.now.shape.n ≤ 5 }
        ensures { IfOk result (λ t. IsTally plan.now [] t) }
    {
        let bricks = new_bricks(alloc, plan)?;
        Ok(Tally {
            bricks,
            actors: new_actors(),
            started: first_started(plan.shape.n),
            events: 0,
            shown: Vec::new(alloc),
            entries: Vec::new(alloc),
        })
    }

    /// After one more line. It takes O(log n) steps on n objects, and one step for each lock on a brick, for each byte, name and
    /// attribute that the line moves or shows, and for each actor. What was kept before is given up where it stops.
    pub fn add(
        &mut self,
        alloc: Global,
        plan: &Plan,
        older: &[Line],
        line: &Line,
    ) -> Result<(), TallyStop>
        requires was { IsTally plan.now (reverse older.now) self.old }
        requires known { AsksKnown line.now }
        requires few { length older.now < 2147483648 }
        ensures ok { OnOk result (IsTally plan.now (line.now ∷ reverse older.now) self.new) }
        ensures too_long { result ≡ Err TallyStop.TooLong → HasRoom plan.now line.now (reverse older.now) → ⊥ }
    {
        let kept = carried_for(alloc, self.shown.as_slice(), line)?;
        let shown = shown_now(alloc, self.bricks.as_slice(), plan, line, older)?;
        let entry = entry_now(self.bricks.as_slice(), plan, line, older);
        keep(&mut self.shown, shown)?;
        keep_entry(&mut self.entries, entry)?;
        add_to_bricks(&mut self.bricks, plan, line, older, &kept)?;
        add_to_actors(&mut self.actors, plan, line, older, &self.started);
        self.started = next_started(line, &self.started);
        self.events = events_after(line, self.events);
        Ok(())
    }
}
