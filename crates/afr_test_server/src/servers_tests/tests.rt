//! Three bricks, the second of which refuses its first request: each call once.
ghost use Rattle.std.specs.Prelude.{◌≡◌, ◌≤◌, IfSome};
ghost use Rattle.afr_test_server.specs.Servers.Fresh.{AreFresh};

use afr_base::{ActorId, BrickId, Gfid, Shape};
use afr_lines::{Answer, Event, Fault, Request};
use afr_object::{List, Load};
use afr_plan::{Plan, PlannedFault, Words};
use afr_server::Served;
use afr_servers::{Epochs, Servers};
use std::alloc::Global;

const ACTOR: ActorId = ActorId(1);

const FIRST: BrickId = BrickId(0);

const SECOND: BrickId = BrickId(1);

const LOOK: Request = Request::Look { gfid: Gfid(1) };

fn plan(alloc: Global) -> Plan
    ensures { result.shape.n ≡ 3 }
{
    Plan {
        shape: Shape {
            n: 3,
            arbiter: false,
        },
        files: 1,
        turns: 100,
        clients: List::new(alloc),
        healers: List::new(alloc),
        faults: List::new(alloc),
        events: List::new(alloc),
        go: List::new(alloc),
        words: Words {
            names: List::new(alloc),
            keys: List::new(alloc),
            values: List::new(alloc),
        },
    }
}

/// The second brick refuses its first request.
fn refuse_once(plan: &mut Plan) -> bool
    ensures { plan.new.shape ≡ plan.old.shape }
{
    let fault = PlannedFault {
        brick: SECOND,
        at: 1,
        fault: Fault::Fail,
    };
    plan.faults.push(fault).is_ok()
}

fn servers_of(alloc: Global) -> Option<Servers>
    ensures { IfSome result (λ servers. AreFresh servers) }
{
    let mut plan = plan(alloc);
    if !refuse_once(&mut plan) {
        return None;
    }
    match Servers::new(alloc, &plan) {
        Ok(servers) => Some(servers),
        Err(_) => None,
    }
}

/// The place of an answer, before it is given.
fn not_given() -> Served {
    Served {
        answer: Answer::Done,
        took: false,
    }
}

fn failed(asked: &Served) -> bool {
    !asked.took && matches!(asked.answer, Answer::Failed)
}

fn is_first_at_each(epochs: &Epochs) -> bool {
    epochs.of[0] == Some(1) && epochs.of[1] == Some(1) && epochs.of[2] == Some(1)
}

fn is_refused_as_planned(servers: &mut Servers) -> bool
    requires { AreFresh servers.old }
{
    let mut asked = not_given();
    match servers.ask_first(ACTOR, SECOND, &LOOK, Load::Nothing, &mut asked) {
        Ok(epochs) => failed(&asked) && is_first_at_each(&epochs),
        Err(_) => false,
    }
}

fn finds_a_session_at_each(servers: &mut Servers) -> bool
    requires { AreFresh servers.old }
{
    let epochs = servers.meet_all(ACTOR);
    is_first_at_each(&epochs)
}

fn is_not_connected(servers: &mut Servers) -> bool
    requires { AreFresh servers.old }
{
    let mut asked = not_given();
    match servers.ask(
        ACTOR,
        &Epochs::none(),
        FIRST,
        &LOOK,
        Load::Nothing,
        &mut asked,
    ) {
        Ok(()) => !asked.took && matches!(asked.answer, Answer::NotConnected),
        Err(_) => false,
    }
}

fn stops_one_brick(servers: &mut Servers) -> bool
    requires { AreFresh servers.old }
{
    let all = servers.len() == 3 && servers.started().count() == 3;
    servers.event(&Event::Stop(SECOND));
    let left = servers.started();
    all && !left.has(SECOND) && left.has(FIRST) && !servers.is_up(SECOND) && servers.is_up(FIRST)
}

#[test]
fn each_brick_has_its_own_faults(rt: HostRuntime) {
    let held = match servers_of(rt.alloc()) {
        Some(mut servers) => is_refused_as_planned(&mut servers),
        None => false,
    };
    assert!(rt; held);
}

#[test]
fn a_meeting_finds_a_session_at_each_brick(rt: HostRuntime) {
    let held = match servers_of(rt.alloc()) {
        Some(mut servers) => finds_a_session_at_each(&mut servers),
        None => false,
    };
    assert!(rt; held);
}

#[test]
fn without_an_epoch_nothing_is_carried_out(rt: HostRuntime) {
    let held = match servers_of(rt.alloc()) {
        Some(mut servers) => is_not_connected(&mut servers),
        None => false,
    };
    assert!(rt; held);
}

#[test]
fn an_event_stops_the_brick_that_it_names(rt: HostRuntime) {
    let held = match servers_of(rt.alloc()) {
        Some(mut servers) => stops_one_brick(&mut servers),
        None => false,
    };
    assert!(rt; held);
}

#[test]
fn without_bricks_nothing_is_started(rt: HostRuntime) {
    let servers = Servers::empty(rt.alloc());
    assert!(rt; servers.len() == 0 && servers.started().is_empty() && servers.servers().is_empty());
    assert!(rt; Epochs::none().of[0].is_none());
}
