//! Each call once, and each answer that is the server's own: no session, a planned failure, a lost answer, a lock in the way.
ghost use Rattle.std.specs.Prelude.{IfSome};
ghost use Rattle.afr_test_server.specs.Server.Fresh.{IsFresh};

use afr_base::{ActorId, BrickId, Gfid};
use afr_brick::Brick;
use afr_lines::{Answer, Area, Domain, Event, Fault, Request};
use afr_object::Load;
use afr_plan::PlannedFault;
use afr_server::{Served, Server, planned_faults};
use std::alloc::Global;

const ROOT: Gfid = Gfid(1);

const ONE: ActorId = ActorId(1);

const TWO: ActorId = ActorId(2);

const HERE: BrickId = BrickId(0);

const TEN: Area = Area::Range {
    gfid: Gfid(1),
    from: 0,
    to: 10,
};

const WORK_LOCK: Request = Request::Lock {
    domain: Domain::Work,
    area: TEN,
};

const LOOK: Request = Request::Look { gfid: Gfid(1) };

fn server_with(alloc: Global, faults: &[PlannedFault]) -> Option<Server>
    ensures { IfSome result (λ server. IsFresh server) }
{
    let Ok(brick) = Brick::empty(alloc, false) else {
        return None;
    };
    let Ok(faults) = planned_faults(alloc, faults, HERE) else {
        return None;
    };
    Some(Server::new(alloc, brick, faults))
}

fn of_first(fault: Fault) -> PlannedFault {
    PlannedFault {
        brick: HERE,
        at: 1,
        fault,
    }
}

/// The place of an answer, before it is given.
fn not_given() -> Served {
    Served {
        answer: Answer::Done,
        took: false,
    }
}

fn is_refused(asked: &Served) -> bool {
    !asked.took && matches!(asked.answer, Answer::NotConnected)
}

fn meets_and_sees(server: &mut Server) -> bool
    requires { IsFresh server.old }
{
    let mut asked = not_given();
    match server.ask_first(ONE, &LOOK, Load::Nothing, &mut asked) {
        Ok(epoch) => epoch == Some(1) && asked.took && matches!(asked.answer, Answer::Seen(_)),
        Err(_) => false,
    }
}

fn loses_the_answer_and_the_session(server: &mut Server) -> bool
    requires { IsFresh server.old }
{
    let mut asked = not_given();
    match server.ask_first(ONE, &LOOK, Load::Nothing, &mut asked) {
        Ok(epoch) => {
            let lost = asked.took && matches!(asked.answer, Answer::NotConnected);
            match server.ask(ONE, epoch, &LOOK, Load::Nothing, &mut asked) {
                Ok(()) => lost && is_refused(&asked),
                Err(_) => false,
            }
        }
        Err(_) => false,
    }
}

fn waits_for_its_holder(server: &mut Server) -> bool
    requires { IsFresh server.old }
{
    let mut asked = not_given();
    match server.ask_first(ONE, &WORK_LOCK, Load::Nothing, &mut asked) {
        Ok(_) => {
            let granted = matches!(asked.answer, Answer::Granted);
            match server.ask_first(TWO, &WORK_LOCK, Load::Nothing, &mut asked) {
                Ok(_) => granted && matches!(asked.answer, Answer::Held(ActorId(1))),
                Err(_) => false,
            }
        }
        Err(_) => false,
    }
}

fn lists_nothing_to_heal(server: &mut Server) -> bool
    requires { IsFresh server.old }
{
    let epoch = server.meet(ONE);
    let mut asked = not_given();
    match server.ask(ONE, epoch, &Request::Index, Load::Nothing, &mut asked) {
        Ok(()) => match &asked.answer {
            Answer::Index(list) => list.len() == 0,
            _ => false,
        },
        Err(_) => false,
    }
}

fn stops_with_its_sessions(server: &mut Server) -> bool
    requires { IsFresh server.old }
{
    let met = server.meet(ONE).is_some() && server.is_up();
    server.event(&Event::Stop(HERE), HERE);
    met && !server.is_up() && server.brick().look(ROOT).is_some()
}

#[test]
fn a_first_line_meets_the_brick(rt: HostRuntime) {
    let held = match server_with(rt.alloc(), &[]) {
        Some(mut server) => meets_and_sees(&mut server),
        None => false,
    };
    assert!(rt; held);
}

#[test]
fn a_lost_answer_ends_the_session(rt: HostRuntime) {
    let held = match server_with(rt.alloc(), &[of_first(Fault::Lost)]) {
        Some(mut server) => loses_the_answer_and_the_session(&mut server),
        None => false,
    };
    assert!(rt; held);
}

#[test]
fn a_lock_in_the_way_names_its_owner(rt: HostRuntime) {
    let held = match server_with(rt.alloc(), &[]) {
        Some(mut server) => waits_for_its_holder(&mut server),
        None => false,
    };
    assert!(rt; held);
}

#[test]
fn an_index_lists_what_has_numbers(rt: HostRuntime) {
    let held = match server_with(rt.alloc(), &[]) {
        Some(mut server) => lists_nothing_to_heal(&mut server),
        None => false,
    };
    assert!(rt; held);
}

#[test]
fn a_stopped_brick_keeps_its_copies(rt: HostRuntime) {
    let held = match server_with(rt.alloc(), &[]) {
        Some(mut server) => stops_with_its_sessions(&mut server),
        None => false,
    };
    assert!(rt; held);
}
