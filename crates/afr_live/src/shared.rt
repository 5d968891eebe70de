//! What lies under the lock: the volume, and what its threads tell each other.
ghost use Rattle.std.specs.Prelude.{◌≡◌, ◌⊎◌, ◌<◌, ◌≤◌, ◌+◌, ℕ, true, false, None, Some, OnOk, IfOk, List, [], ◌∷◌, length, slice_get};
ghost use Rattle.afr_law_bound.specs.Ends.Law.{AreEager, is_back};
ghost use Rattle.afr_live.specs.Ends.{works_ended};
ghost use Rattle.afr_live.specs.Noted.{AreEager-prop, AreNoted, MayTakeTurn, noted_after};
ghost use Rattle.afr_live.specs.Turns.{TakesTurn};
ghost use Rattle.afr_lines.specs.Work.{is_end};
ghost use Rattle.afr_lines.specs.declared.line.Line.{Line};
ghost use Rattle.afr_log.specs.Log.{told_line};
ghost use Rattle.afr_model.specs.Actors.{IsActor, is_done};
ghost use Rattle.afr_model.specs.Following.{NoneDue};
ghost use Rattle.afr_volume.specs.Going.{Goes};
ghost use Rattle.afr_rule.specs.Choosing.{IsRule};
ghost use Rattle.afr_volume.specs.State.{State};
ghost use Rattle.afr_volume.specs.Turning.{Turns, due_of};

use crate::tally::{EndedWorks, Handed, Run};
use afr_base::{ActorId, NoMemory};
use afr_crowd::Held;
use afr_lines::Line;
use afr_log::{Log, ToldLine};
use afr_rule::{Candidate, Rules};
use afr_volume::{Turned, Volume, come_due};
use std::sync::ledger::Book;

/// A volume that threads share. Whenever its lock is free, its plan is that of the run, its healers go their own rounds, its book has counted the End
/// lines of its log, and nobody was told Held on a transaction's lock twice running: between two such lines of one actor
/// another line stands.
#[derive(Drop)]
pub struct Shared<J: Run> {
    pub volume: Volume,
    ended: Book<J>,
    held: Held,
    /// A turn or an event wanted memory.
    pub no_memory: bool,
    /// The last actor for which no thread could be made.
    unstarted: Option<ActorId>,
    ghost planned: { volume.plan ≡ J.plan },
    ghost plain: { volume.crawl ≡ false },
    ghost counted: { ended.total ≡ works_ended volume.log },
    ghost noted: { AreNoted volume.log held },
    ghost eager: { AreEager volume.log } by { AreEager-prop volume.log },
}

/// How a thread goes on after a turn.
#[derive(Clone, Copy, Debug)]
pub enum After {
    /// It takes its next turn.
    Goes,
    /// It waits for another line than one that is told Held on a transaction's lock.
    Waits,
    /// It ends.
    Ends,
}

impl<J: Run> Shared<J> {
    pub fn new(volume: Volume, ended: Book<J>) -> Shared<J>
        requires plan { volume.plan ≡ J.plan }
        requires plain { volume.crawl ≡ false }
        requires fresh { volume.log ≡ [] }
        requires none { ended.total ≡ 0 }
    {
        Shared {
            volume,
            ended,
            held: Held::new(),
            no_memory: false,
            unstarted: None,
        }
    }

    /// All events that are due. Each of them lets a thread that waits go on.
    pub fn come_due(&mut self) -> Result<(), NoMemory>
        ensures goes { Goes self.old.volume self.new.volume }
        ensures free { (a : ℕ) → MayTakeTurn a self.old.volume.plan self.old.volume.log → MayTakeTurn a self.new.volume.plan self.new.volume.log }
        ensures none { OnOk result (due_of self.new.volume ≡ None) }
        ensures events { OnOk result (length self.new.volume.log < self.new.volume.plan.turns → NoneDue self.new.volume.plan self.new.volume.log) }
    {
        let Shared { volume, held, .. } = self;
        let before = volume.len();
        let come = come_due(volume);
        held.note_events(before, volume.len());
        come
    }

    /// The events that are due, and then one turn of an actor, which counts a work that it ends. A thread does little else.
    #[inline(always)]
    pub fn take_turn<F: Fn(&[Candidate]) -> usize, G: Fn(&[Candidate]) -> usize>(
        &mut self,
        a: ActorId,
        rules: &Rules<F, G>,
        mine: &mut EndedWorks<J>,
    ) -> Result<Turned, NoMemory>
        requires rule { IsRule F.Fn rules.now.heal }
        requires read_rule { IsRule G.Fn rules.now.read }
        requires actor { IsActor J.plan a.0 }
        requires free { MayTakeTurn a.0 self.old.volume.plan self.old.volume.log }
        requires backed { 0 < mine.old.share.parts }
        ensures goes { Goes self.old.volume self.new.volume }
        ensures ok { IfOk result (λ turned. TakesTurn a self.old.volume turned self.new.volume) }
        ensures parts { mine.new.share.parts ≡ mine.old.share.parts }
    {
        self.come_due()?;
        let Shared {
            volume,
            ended,
            held,
            ..
        } = self;
        let turned = volume.turn(a, rules)?;
        volume.every_line();
        note(held, a, turned, volume.len());
        count(volume, a, turned, ended, mine);
        Ok(turned)
    }

    /// One turn of a thread. An actor that is held takes none, and where memory was wanting nobody takes a further one.
    pub fn step<F: Fn(&[Candidate]) -> usize, G: Fn(&[Candidate]) -> usize>(
        &mut self,
        a: ActorId,
        rules: &Rules<F, G>,
        mine: &mut EndedWorks<J>,
    ) -> After
        requires rule { IsRule F.Fn rules.now.heal }
        requires read_rule { IsRule G.Fn rules.now.read }
        requires actor { IsActor J.plan a.0 }
        requires backed { 0 < mine.old.share.parts }
        ensures goes { Goes self.old.volume self.new.volume }
        ensures more { result ≡ After.Goes → length self.old.volume.log < length self.new.volume.log }
        ensures ends { result ≡ After.Ends → (self.new.no_memory ≡ true) ⊎ (is_done self.new.volume.plan a.0 self.new.volume.log ≡ true) ⊎ (length self.new.volume.log ≡ self.new.volume.plan.turns) }
        ensures parts { mine.new.share.parts ≡ mine.old.share.parts }
    {
        if self.no_memory {
            return After::Ends;
        }
        if self.waits(a) {
            return After::Waits;
        }
        match self.take_turn(a, rules, mine) {
            Ok(Turned::Moved) => After::Goes,
            Ok(Turned::Waits(_)) => After::Waits,
            Ok(Turned::Ended | Turned::Full) => After::Ends,
            Err(NoMemory) => {
                self.no_memory = true;
                After::Ends
            }
        }
    }

    /// Takes over what a thread has counted.
    pub fn gather(&mut self, all: &mut EndedWorks<J>, handed: Handed<J>)
        ensures parts { all.new.share.parts ≡ all.old.share.parts + 1 }
        ensures same { self.new.volume ≡ self.old.volume }
    {
        let _len = self.volume.len();
        all.gather(&mut self.ended, handed);
    }

    /// How many works have ended, where every part of the ledger is there.
    pub fn sum(&mut self, all: &mut EndedWorks<J>) -> u64
        requires { all.old.share.parts ≡ J.parts }
        ensures sum { result ≡ works_ended self.new.volume.log }
        ensures same { self.new.volume ≡ self.old.volume }
    {
        all.sum(&mut self.ended)
    }

    /// Notes that no thread can be made for an actor: from then on no thread waits.
    pub fn note_unstarted(&mut self, a: ActorId) {
        self.unstarted = Some(a);
    }

    /// Whether this actor was the last for which no thread could be made.
    pub fn is_unstarted(&self, a: ActorId) -> bool {
        self.unstarted == Some(a)
    }

    /// Whether the actor was told Held on a transaction's lock, and since then came no other line than such ones.
    pub fn is_held(&self, a: ActorId) -> bool
        ensures { IsActor J.plan a.0 → result ≡ is_back a.0 self.now.volume.log }
    {
        self.volume.every_line();
        self.held.has(a)
    }

    /// Whether the actor's next turn waits: it is held, and the log has room for a line that lets it go on.
    pub fn waits(&self, a: ActorId) -> bool
        ensures { IsActor J.plan a.0 → result ≡ false → MayTakeTurn a.0 self.now.volume.plan self.now.volume.log }
    {
        if self.is_full() {
            return false;
        }
        self.is_held(a)
    }

    /// Whether the actor's thread goes on waiting.
    pub fn sleeps(&self, a: ActorId) -> bool {
        self.waits(a) && !self.no_memory && self.unstarted.is_none()
    }

    /// Whether what came after so many lines may let a thread go on that waits.
    pub fn wakes(&self, before: u32) -> bool {
        self.held.has_moved(before) || self.is_full() || self.no_memory
    }

    fn is_full(&self) -> bool
        ensures { result ≡ true → self.now.volume.plan.turns ≤ length self.now.volume.log }
    {
        self.volume.len() >= self.volume.plan().turns
    }
}

/// Notes the line of an actor's turn, which left the log so long.
fn note(held: &mut Held, a: ActorId, turned: Turned, len: u32)
    requires { a.0 < 20 }
    ensures { held.new ≡ noted_after held.old a turned len }
{
    match turned {
        Turned::Moved => held.note_moved(len),
        Turned::Waits(_) => held.note_held(a, len),
        Turned::Ended | Turned::Full => {}
    }
}

/// Counts the work that the line of an actor's turn has ended.
fn count<J: Run>(
    volume: &Volume,
    a: ActorId,
    turned: Turned,
    ended: &mut Book<J>,
    mine: &mut EndedWorks<J>,
)
    requires counted { (old : State) × Turns a old turned volume.now × (ended.old.total ≡ works_ended old.log) }
    requires backed { 0 < mine.old.share.parts }
    ensures counted { ended.new.total ≡ works_ended volume.now.log }
    ensures parts { mine.new.share.parts ≡ mine.old.share.parts }
{
    let _len = volume.len();
    match turned {
        Turned::Moved => {
            if is_last_end(volume) {
                mine.add(ended);
            }
        }
        _ => {}
    }
}

/// Whether the newest line ends a work. No line is made for it.
fn is_last_end(volume: &Volume) -> bool
    requires some { 0 < length volume.now.log }
    ensures { (line : Line) (older : List Line) → volume.now.log ≡ line ∷ older → result ≡ is_end line }
{
    let log = volume.lines();
    ends_at(log, log.len() - 1)
}

/// Whether the line at a position ends a work.
fn ends_at(log: &Log, at: usize) -> bool
    ensures { (line : Line) → slice_get log.now.items at ≡ Some line → result ≡ is_end line }
{
    if log.is_asked(at) {
        return false;
    }
    match log.told_at(at) {
        Some(told) => is_told_end(told),
        None => false,
    }
}

/// Whether what is told ends a work.
fn is_told_end(told: ToldLine<'_>) -> bool
    ensures { result ≡ is_end (told_line told.entry) }
{
    match told {
        ToldLine::Kept(line) => is_end(line),
        ToldLine::HealBegun { .. } => false,
        ToldLine::HealEnded { .. } => false,
    }
}

fn is_end(line: &Line) -> bool
    ensures { result ≡ is_end line.now }
{
    match line {
        Line::End { .. } => true,
        _ => false,
    }
}
