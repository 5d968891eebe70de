//! The volume: one log, and beside it the present state of servers and actors.
ghost use Rattle.std.specs.Prelude.{◌≡◌, ◌<◌, ◌≤◌, ◌-◌, ℕ, Some, None, OnOk, OnErr, IfOk, IsSome, false, is_some, length, option_map, reverse, slice_get, true, []};
ghost use Rattle.afr_base.specs.Bricks.{member};
ghost use Rattle.afr_lines.specs.Log.{from_oldest};
ghost use Rattle.afr_lines.specs.Work.{is_killed, work};
ghost use Rattle.afr_log.specs.Log.{shown_line};
ghost use Rattle.afr_law_runnable.specs.Runnable.{IsRunnable};
ghost use Rattle.afr_plan.specs.declared.schedule.Go.{Go};
ghost use Rattle.afr_model.specs.Actors.{IsActor};
ghost use Rattle.afr_model.specs.Crawl.{CanCrawl};
ghost use Rattle.afr_model.specs.Following.{NoneDue};
ghost use Rattle.afr_model.specs.Report.{started_bricks};
ghost use Rattle.afr_model.specs.State.{no_plan};
ghost use Rattle.afr_model.specs.Sums.{AreSums};
ghost use Rattle.afr_model.specs.Tables.{holds, keeps_bytes};
ghost use Rattle.afr_rule.specs.Choosing.{IsRule};
ghost use Rattle.afr_server.specs.Serving.{Serving};
ghost use Rattle.afr_law_picks.specs.Sources.Sources.{picks_of};
ghost use Rattle.afr_volume.specs.Right.{IsRightFor, KeepsChosen};
ghost use Rattle.afr_volume.specs.State.{HealsChosen, ReadsChosen, no_volume, opened, opened_for};
ghost use Rattle.afr_volume.specs.Tasks.{is_done_in};
ghost use Rattle.afr_volume.specs.Turning.{Comes, Turns, due_of, if_due};

use crate::actor::Actor;
use crate::healers::{HEALERS_FROM, all_healers, is_healer_done, kill_healer, ready_healer};
use crate::laws::{laws, rule_laws};
use crate::lists::step_listed;
use crate::set_up::all_actors;
use crate::turned::Turned;
use crate::turns::{answer_of, kill, ready_actor, step_actor};
use afr_base::{ActorId, BrickId, BrickSet, MOST_CLIENTS, NoMemory, Shape};
use afr_healer::Healer;
use afr_law::{
    accusations_have_causes, lawful_is_safe, lawful_lines_fit, nothing_diverges_unrecorded,
    reads_are_fresh,
};
use afr_law_fits::fits_its_types;
use afr_law_passes::{quiet_passes_reach, quiet_rounds_converge, what_all_have_never_splits};
use afr_law_picks::{a_line_keeps_its_source, chosen_source};
use afr_law_promises::{
    a_copy_is_whole, acknowledged_is_durable, changes_are_available, split_copies_missed,
    works_leave_no_lock,
};
use afr_law_quiet::quiet_rounds_are_whole;
use afr_lines::{Event, Line};
use afr_log::{Log, ShownLine};
use afr_object::{IndexList, List};
use afr_plan::{Plan, Words};
use afr_rule::{Candidate, ReadRule, Rules, SourceRule};
use afr_server::Server;
use afr_servers::{Exchange, Servers};
use std::alloc::Global;
use std::marker::Model;

mod crawl;

/// A plan on its way. Contracts see the plan, the log, the source that the running heal of each
/// healer has chosen, the copy that was picked for the reads of each client, and, where the healers
/// crawl, the tasks of the workers.
#[derive(Drop)]
pub struct Volume {
    alloc: Global,
    plan: Plan,
    log: Log,
    servers: Servers,
    actors: Vec<Actor>,
    healers: Vec<Healer>,
    /// How many events of the plan have come.
    made: u32,
    /// Whether the healers crawl.
    crawl: bool,
    /// What each round of a crawl was given, once it has asked.
    lists: Vec<Option<IndexList>>,
    /// The request of the latest line, and what it was given.
    exchange: Exchange,
}

impl Model for Volume {
    ghost use Rattle.std.specs.Prelude.{reverse};
    ghost use Rattle.afr_law_picks.specs.Sources.Sources.{sources_of};
    ghost use Rattle.afr_volume.specs.Acting.{picked_of};
    ghost use Rattle.afr_volume.specs.Lists.{IsListed};
    ghost use Rattle.afr_volume.specs.State.{State};
    ghost use Rattle.afr_volume.specs.Tasks.{tasks_of};

    ghost Value = { State };

    ghost view = { λ v. record { plan = v.plan; log = reverse v.log.items; sources = sources_of v.healers.items; picked = picked_of v.actors.items; crawl = v.crawl; tasks = tasks_of v.crawl v.healers.items } };

    ghost invariant = { λ v. IsListed v.crawl v.plan (reverse v.log.items) v.servers v.actors.items v.healers.items v.made v.lists.items };
}

impl Volume {
    /// No actor, no brick, no line. It takes no memory.
    pub fn empty(alloc: Global) -> Volume
        ensures { result ≡ no_volume }
    {
        Volume {
            alloc,
            plan: empty_plan(alloc),
            log: Log::new(alloc),
            servers: Servers::empty(alloc),
            actors: Vec::new(alloc),
            healers: Vec::new(alloc),
            made: 0,
            crawl: false,
            lists: Vec::new(alloc),
            exchange: Exchange::new(),
        }
    }

    /// Takes a plan over. The bricks have its opening files, and no actor has begun.
    pub fn set_up(&mut self, plan: Plan) -> Result<(), NoMemory>
        requires runs { IsRunnable plan }
        ensures ok { OnOk result (self.new ≡ opened plan) }
        ensures err { OnErr result (self.new ≡ self.old) }
    {
        laws();
        let log = Log::new(self.alloc);
        let servers = Servers::new(self.alloc, &plan)?;
        let actors = all_actors(self.alloc, plan.clients.len())?;
        let healers = all_healers(self.alloc, plan.healers.len())?;
        *self = Volume {
            alloc: self.alloc,
            log,
            plan,
            servers,
            actors,
            healers,
            made: 0,
            crawl: false,
            lists: Vec::new(self.alloc),
            exchange: Exchange::new(),
        };
        Ok(())
    }

    /// One line of the actor, where it has work left and the log has room. It takes its memory
    /// before anything changes, in O(log n) for n objects and names of the bricks, and the bytes
    /// that the line moves; it never walks the log. A heal that chooses its source asks the rule
    /// for heals, and a command that has looked at the copies of what it reads the rule for reads.
    pub fn turn<F: Fn(&[Candidate]) -> usize, G: Fn(&[Candidate]) -> usize>(
        &mut self,
        a: ActorId,
        rules: &Rules<F, G>,
    ) -> Result<Turned, NoMemory>
        requires rule { IsRule F.Fn rules.now.heal }
        requires read_rule { IsRule G.Fn rules.now.read }
        requires actor { IsActor self.old.plan a.0 }
        requires none { due_of self.old ≡ None }
        ensures ok { IfOk result (λ turned. Turns a self.old turned self.new) }
        ensures err { OnErr result (self.new ≡ self.old) }
        ensures right { IsRightFor self.new.crawl self.new.plan self.new.log }
        ensures chosen { KeepsChosen F.Fn G.Fn rules.now self.old self.new }
    {
        let turned = self.take_turn(a, rules);
        self.every_line();
        turned
    }

    fn take_turn<F: Fn(&[Candidate]) -> usize, G: Fn(&[Candidate]) -> usize>(
        &mut self,
        a: ActorId,
        rules: &Rules<F, G>,
    ) -> Result<Turned, NoMemory>
        requires rule { IsRule F.Fn rules.now.heal }
        requires read_rule { IsRule G.Fn rules.now.read }
        requires actor { IsActor self.old.plan a.0 }
        requires none { due_of self.old ≡ None }
        ensures ok { IfOk result (λ turned. Turns a self.old turned self.new) }
        ensures err { OnErr result (self.new ≡ self.old) }
        ensures heals { 17 ≤ a.0 → HealsChosen (picks_of F.Fn rules.now.heal) self.old → HealsChosen (picks_of F.Fn rules.now.heal) self.new }
        ensures reads { a.0 ≤ 16 → ReadsChosen (picks_of G.Fn rules.now.read) self.old → ReadsChosen (picks_of G.Fn rules.now.read) self.new }
    {
        if self.is_done(a) {
            return Ok(Turned::Ended);
        }
        if self.log.len() >= self.plan.turns as usize {
            return Ok(Turned::Full);
        }
        if a.0 <= MOST_CLIENTS {
            self.client_turn(a, &rules.read)
        } else {
            self.healer_turn(a, &rules.heal)
        }
    }

    /// One line of a client that has a command left.
    fn client_turn<G: Fn(&[Candidate]) -> usize>(
        &mut self,
        a: ActorId,
        rule: &ReadRule<G>,
    ) -> Result<Turned, NoMemory>
        requires rule { IsRule G.Fn rule.now }
        requires actor { IsActor self.old.plan a.0 }
        requires client { a.0 ≤ 16 }
        requires left { is_done_in a.0 self.old ≡ false }
        requires room { length self.old.log < self.old.plan.turns }
        requires none { due_of self.old ≡ None }
        ensures ok { IfOk result (λ turned. Turns a self.old turned self.new) }
        ensures err { OnErr result (self.new ≡ self.old) }
        ensures reads { ReadsChosen (picks_of G.Fn rule.now) self.old → ReadsChosen (picks_of G.Fn rule.now) self.new }
    {
        laws();
        let position = self.log.len() as u32;
        self.log.make_room()?;
        rule_laws(rule);
        ready_actor(self.alloc, &self.plan, a, &mut self.actors)?;
        step_actor(
            a,
            &mut self.actors,
            &mut self.servers,
            position,
            &mut self.log,
            &mut self.exchange,
            rule,
        )?;
        let waits = self.log.waits_at(position as usize);
        Ok(answer_of(waits))
    }

    /// One line of a healer that has a round left, or is at a task.
    fn healer_turn<F: Fn(&[Candidate]) -> usize>(
        &mut self,
        a: ActorId,
        rule: &SourceRule<F>,
    ) -> Result<Turned, NoMemory>
        requires rule { IsRule F.Fn rule.now }
        requires actor { IsActor self.old.plan a.0 }
        requires healer { 17 ≤ a.0 }
        requires left { is_done_in a.0 self.old ≡ false }
        requires room { length self.old.log < self.old.plan.turns }
        requires none { due_of self.old ≡ None }
        ensures ok { IfOk result (λ turned. Turns a self.old turned self.new) }
        ensures err { OnErr result (self.new ≡ self.old) }
        ensures heals { HealsChosen (picks_of F.Fn rule.now) self.old → HealsChosen (picks_of F.Fn rule.now) self.new }
    {
        laws();
        let position = self.log.len() as u32;
        self.log.make_room()?;
        a_line_keeps_its_source(rule);
        ready_healer(self.alloc, &self.plan, self.crawl, a, &mut self.healers)?;
        step_listed(
            self.crawl,
            a,
            &mut self.healers,
            &mut self.servers,
            position,
            &mut self.log,
            &mut self.lists,
            &mut self.exchange,
            rule,
        )?;
        let waits = self.log.waits_at(position as usize);
        Ok(answer_of(waits))
    }

    /// The next event of the plan, which is due. It takes its memory before anything changes.
    #[inline(never)]
    pub fn event(&mut self) -> Result<(), NoMemory>
        requires due { IsSome (due_of self.old) }
        ensures ok { OnOk result (Comes self.old self.new) }
        ensures err { OnErr result (self.new ≡ self.old) }
    {
        let Some(event) = self.due() else {
            unreachable!()
        };
        laws();
        self.log.make_room()?;
        let happened = Line::Event { event };
        fits_its_types(&happened);
        self.servers.event(&event);
        kill(&mut self.actors, event);
        kill_healer(&mut self.healers, event);
        self.made += 1;
        self.log.add(happened);
        Ok(())
    }

    /// Whether the actor has no work left and is at no task, or was killed.
    pub fn is_done(&self, a: ActorId) -> bool
        requires actor { IsActor self.now.plan a.0 }
        ensures { result ≡ is_done_in a.0 self.now }
    {
        if a.0 > MOST_CLIENTS {
            return is_healer_done(&self.plan, self.crawl, a, &self.healers);
        }
        let at = a.0 as usize - 1;
        let actor = &self.actors[at];
        actor.killed || actor.ended as usize >= self.plan.clients.item(at).len()
    }

    /// What the rule answered for an actor: for a client at the last look of its present command, or
    /// of the last one, and for a healer at the end of its present heal's first looks; none where it
    /// wasn't asked since then, so too for a heal of names.
    pub fn picked(&self, a: ActorId) -> Option<BrickId>
        requires actor { IsActor self.now.plan a.0 }
        ensures client { a.0 ≤ 16 → slice_get self.now.picked (a.0 - 1) ≡ Some (option_map (λ b. b.0) result) }
        ensures healer { 17 ≤ a.0 → slice_get self.now.sources (a.0 - 17) ≡ Some (option_map (λ b. b.0) result) }
    {
        if a.0 > MOST_CLIENTS {
            let healer = &self.healers[a.0 as usize - HEALERS_FROM];
            return chosen_source(healer);
        }
        let actor = &self.actors[a.0 as usize - 1];
        actor.picked
    }

    /// Whether an event is due. Where none is left, that is one comparison.
    #[inline]
    pub fn has_due(&self) -> bool
        ensures value { result ≡ is_some (due_of self.now) }
        ensures none { result ≡ false → length self.now.log < self.now.plan.turns → NoneDue self.now.plan self.now.log }
    {
        (self.made as usize) < self.plan.events.len() && self.next_has_come()
    }

    #[inline(never)]
    fn next_has_come(&self) -> bool
        ensures value { result ≡ is_some (due_of self.now) }
        ensures none { result ≡ false → length self.now.log < self.now.plan.turns → NoneDue self.now.plan self.now.log }
    {
        self.due().is_some()
    }

    /// The next event of the plan, where its position has come and the log has room.
    pub fn due(&self) -> Option<Event>
        ensures value { result ≡ due_of self.now }
        ensures none { result ≡ None → length self.now.log < self.now.plan.turns → NoneDue self.now.plan self.now.log }
    {
        if self.log.len() >= self.plan.turns as usize {
            return None;
        }
        next_due(&self.plan, self.made as usize, self.log.len())
    }

    pub fn len(&self) -> u32
        ensures { result ≡ length self.now.log }
    {
        self.log.len() as u32
    }

    /// The line at a position, counted from the oldest.
    pub fn line(&self, i: u32) -> ShownLine<'_>
        requires { i < length self.now.log }
        ensures { from_oldest i self.now.log ≡ Some (shown_line result) }
    {
        match self.log.line(i as usize) {
            Some(shown) => shown,
            None => unreachable!(),
        }
    }

    /// All lines, the oldest first.
    pub fn lines(&self) -> &Log
        ensures { reverse result.now.items ≡ self.now.log }
    {
        &self.log
    }

    pub fn plan(&self) -> &Plan
        ensures { result.now ≡ self.now.plan }
    {
        &self.plan
    }

    /// The bricks behind their servers, by their numbers.
    pub fn servers(&self) -> &[Server]
        ensures few { length result.now ≡ self.now.plan.shape.n }
        ensures tables { (b : ℕ) (s : Serving) → slice_get result.now b ≡ Some s → s.copies ≡ record { keeps = keeps_bytes self.now.plan b; objects = holds self.now.plan self.now.log b } }
        ensures started { (b : ℕ) → member (started_bricks self.now.plan.shape.n self.now.log) b ≡ true → b < self.now.plan.shape.n }
    {
        self.servers.servers()
    }

    /// The started bricks.
    pub fn reach(&self) -> BrickSet
        ensures { result ≡ started_bricks self.now.plan.shape.n self.now.log }
    {
        laws();
        self.servers.started()
    }

    /// What the volume keeps of its log at every moment.
    pub fn every_line(&self)
        ensures right { IsRightFor self.now.crawl self.now.plan self.now.log }
        ensures sums { AreSums self.now.plan self.now.log }
        ensures room { length self.now.log ≤ self.now.plan.turns }
        ensures turns { self.now.plan.turns ≤ 4000000 }
        ensures few { self.now.plan.shape.n ≤ 5 }
        ensures clients { length self.now.plan.clients ≤ 16 }
        ensures healers { length self.now.plan.healers ≤ 3 }
        ensures crawls { self.now.crawl ≡ true → CanCrawl self.now.plan }
        ensures orders { (i : ℕ) (go : Go) → slice_get self.now.plan.go i ≡ Some go → IsActor self.now.plan go.actor.0 }
        ensures settled { (a : ℕ) → IsActor self.now.plan a → is_done_in a self.now ≡ true → is_killed a self.now.log ≡ false → work a self.now.log ≡ [] }
        ensures resting { self.now.log ≡ [] → self.now ≡ opened_for self.now.crawl self.now.plan }
    {
        let _ = &self.log;
        laws();
        lawful_is_safe();
        nothing_diverges_unrecorded();
        reads_are_fresh();
        accusations_have_causes();
        lawful_lines_fit();
        quiet_rounds_are_whole();
        quiet_rounds_converge();
        quiet_passes_reach();
        what_all_have_never_splits();
        acknowledged_is_durable();
        split_copies_missed();
        a_copy_is_whole();
        changes_are_available();
        works_leave_no_lock();
    }
}

fn empty_plan(alloc: Global) -> Plan
    ensures { result ≡ no_plan }
{
    Plan {
        shape: Shape {
            n: 0,
            arbiter: false,
        },
        files: 0,
        turns: 0,
        clients: List::new(alloc),
        healers: List::new(alloc),
        faults: List::new(alloc),
        events: List::new(alloc),
        go: List::new(alloc),
        words: Words {
            names: List::new(alloc),
            keys: List::new(alloc),
            values: List::new(alloc),
        },
    }
}

fn next_due(plan: &Plan, made: usize, len: usize) -> Option<Event>
    ensures { result ≡ if_due len (slice_get plan.now.events made) }
{
    if made >= plan.events.len() {
        return None;
    }
    let planned = plan.events.item(made);
    if planned.at as usize <= len {
        Some(planned.event)
    } else {
        None
    }
}
