//! The plan that lines give, line by line.
ghost use Rattle.std.specs.Prelude.{◌≡◌, ◌++◌, ◌∷◌, [], IfOk, OnOk, map, reverse};
ghost use Rattle.afr_plan.specs.Paths.{names_in};
ghost use Rattle.afr_plan.specs.PlanOf.{empty_plan, onto_last, with_line, plan_of, actor_of};
ghost use Rattle.afr_plan.specs.PlanOf as plans;
ghost use Rattle.afr_plan.specs.Said as said;
ghost use Rattle.afr_plan_line.specs.Seen.{seen, seen_action, seen_who, seen_event};

use crate::words::WordTables;
use afr_base::{ActorId, BrickId, NoMemory, Shape};
use afr_lines::Event;
use afr_object::List;
use afr_plan::{Go, Plan, PlannedEvent, PlannedFault, Words, limits};
use afr_plan_line::{Spoken, SpokenAction, SpokenEvent, SpokenWho};
use std::alloc::Global;
use std::marker::Model;

fn actor(who: &SpokenWho) -> ActorId
    ensures { result ≡ actor_of (seen_who who.now) }
{
    match who {
        SpokenWho::OfClient(number) => ActorId(u16::from(*number)),
        SpokenWho::OfHealer(number) => ActorId(u16::from(limits::CLIENTS) + u16::from(*number)),
    }
}

fn event(event: &SpokenEvent) -> Event
    ensures { result ≡ plans.event_of (seen_event event.now) }
{
    match event {
        SpokenEvent::Stop(brick) => Event::Stop(BrickId(*brick)),
        SpokenEvent::Start(brick) => Event::Start(BrickId(*brick)),
        SpokenEvent::Cut(who, brick) => Event::Cut(actor(who), BrickId(*brick)),
        SpokenEvent::Join(who, brick) => Event::Join(actor(who), BrickId(*brick)),
        SpokenEvent::Kill(who) => Event::Kill(actor(who)),
    }
}

/// A plan of which some lines are still to come. Contracts see the plan that it is so far.
#[derive(Drop)]
struct Draft<'t> {
    /// All but the words.
    plan: Plan,
    words: WordTables<'t>,
    alloc: Global,
}

impl<'t> Model for Draft<'t> {
    ghost use Rattle.afr_plan.specs.declared.plan.Plan.{Plan};

    ghost Value = { Plan };

    ghost view = { λ d. record d.plan { words = d.words } };
}

fn no_words(alloc: Global) -> Words
    ensures { result ≡ empty_plan.words }
{
    Words {
        names: List::new(alloc),
        keys: List::new(alloc),
        values: List::new(alloc),
    }
}

/// Three bricks without an arbiter, and nothing else.
fn no_lines(alloc: Global) -> Plan
    ensures { result ≡ empty_plan }
{
    Plan {
        shape: Shape {
            n: limits::FEWEST_BRICKS,
            arbiter: false,
        },
        files: 0,
        turns: 0,
        clients: List::new(alloc),
        healers: List::new(alloc),
        faults: List::new(alloc),
        events: List::new(alloc),
        go: List::new(alloc),
        words: no_words(alloc),
    }
}

impl<'t> Draft<'t> {
    fn new(alloc: Global, text: &'t [u8]) -> Draft<'t>
        ensures { result ≡ empty_plan }
    {
        Draft {
            plan: no_lines(alloc),
            words: WordTables::new(alloc, text),
            alloc,
        }
    }

    fn set_files(&mut self, files: u32) -> Result<(), NoMemory>
        ensures ok { OnOk result (self.new ≡ with_line (said.Files files) self.old) }
    {
        self.words.name_files(self.alloc, files)?;
        self.plan.files = files;
        Ok(())
    }

    fn add_client(&mut self) -> Result<(), NoMemory>
        ensures ok { OnOk result (self.new ≡ record self.old { clients = self.old.clients ++ [] ∷ [] }) }
    {
        self.plan.clients.push(List::new(self.alloc))?;
        Ok(())
    }

    fn add_command(&mut self, path: &'t [u8], action: &SpokenAction<'t>) -> Result<(), NoMemory>
        ensures ok { OnOk result (self.new ≡ with_line (said.Command (names_in path.now) (seen_action action.now)) self.old) }
    {
        let command = self.words.command(self.alloc, path, action)?;
        push_last(&mut self.plan.clients, command)
    }

    fn add_healer(&mut self) -> Result<(), NoMemory>
        ensures ok { OnOk result (self.new ≡ record self.old { healers = self.old.healers ++ [] ∷ [] }) }
    {
        self.plan.healers.push(List::new(self.alloc))?;
        Ok(())
    }

    fn add_round(&mut self, brick: u8) -> Result<(), NoMemory>
        ensures ok { OnOk result (self.new ≡ with_line (said.Round brick) self.old) }
    {
        push_last(&mut self.plan.healers, BrickId(brick))
    }

    fn add_fault(&mut self, fault: PlannedFault) -> Result<(), NoMemory>
        ensures ok { OnOk result (self.new ≡ record self.old { faults = self.old.faults ++ fault ∷ [] }) }
    {
        self.plan.faults.push(fault)
    }

    fn add_event(&mut self, event: PlannedEvent) -> Result<(), NoMemory>
        ensures ok { OnOk result (self.new ≡ record self.old { events = self.old.events ++ event ∷ [] }) }
    {
        self.plan.events.push(event)
    }

    fn add_order(&mut self, order: Go) -> Result<(), NoMemory>
        ensures ok { OnOk result (self.new ≡ record self.old { go = self.old.go ++ order ∷ [] }) }
    {
        self.plan.go.push(order)
    }

    /// What one line adds.
    fn add(&mut self, spoken: Spoken<'t>) -> Result<(), NoMemory>
        ensures ok { OnOk result (self.new ≡ with_line (seen spoken.entry) self.old) }
    {
        match spoken {
            Spoken::Volume(_, shape) => {
                self.plan.shape = shape;
                Ok(())
            }
            Spoken::Files(files) => self.set_files(files),
            Spoken::Turns(turns) => {
                self.plan.turns = turns;
                Ok(())
            }
            Spoken::Client(_) => self.add_client(),
            Spoken::Command { path, action } => self.add_command(path, &action),
            Spoken::Healer(_) => self.add_healer(),
            Spoken::Round(brick) => self.add_round(brick),
            Spoken::Faulty { brick, at, fault } => self.add_fault(PlannedFault {
                brick: BrickId(brick),
                at,
                fault,
            }),
            Spoken::At { at, event: spoken } => self.add_event(PlannedEvent {
                at,
                event: event(&spoken),
            }),
            Spoken::Go { who, count } => self.add_order(Go {
                actor: actor(&who),
                count,
            }),
            Spoken::Afr(_) => Ok(()),
            Spoken::End => Ok(()),
        }
    }

    fn finish(self) -> Result<Plan, NoMemory>
        ensures ok { IfOk result (λ plan. plan ≡ self.entry) }
    {
        let Draft {
            mut plan,
            words,
            alloc,
        } = self;
        plan.words = words.into_words(alloc)?;
        Ok(plan)
    }
}

/// Adds an item at the end of the last list.
fn push_last<T: Drop>(lists: &mut List<List<T>>, item: T) -> Result<(), NoMemory>
    ensures ok { OnOk result (lists.new ≡ onto_last item lists.old) }
{
    let Some(mut list) = lists.pop() else {
        return Ok(());
    };
    list.push(item)?;
    lists.push(list)?;
    Ok(())
}

/// The plan that lines give, in one pass with at most one look-up a word.
pub(crate) fn make_plan<'t>(
    alloc: Global,
    text: &'t [u8],
    lines: &[Spoken<'t>],
) -> Result<Plan, NoMemory>
    ensures ok { IfOk result (λ plan. plan ≡ plan_of (reverse (map seen lines.now))) }
{
    let mut draft = Draft::new(alloc, text);
    for spoken in lines {
        draft.add(*spoken)?;
    }
    draft.finish()
}
