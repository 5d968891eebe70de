//! The texts of reports: each reply, and the dead and the short.

use crate::made::{dead_and_short, each_reply, one_client, plan_of, two_readers};
use crate::reported::reports;
use afr_base::NoMemory;
use afr_lines::Line;
use afr_object::List;
use afr_plan::{Plan, Scripts};
use std::alloc::Global;
use std::test::Fail;

fn reports_made(
    alloc: Global,
    plan: Result<Plan, NoMemory>,
    log: Result<Vec<Line>, NoMemory>,
    text: &str,
) -> Result<bool, NoMemory> {
    reports(alloc, &plan?, log?, text)
}

fn clients_alone(alloc: Global, arbiter: bool, clients: Scripts) -> Result<Plan, NoMemory> {
    plan_of(alloc, arbiter, clients, List::new(alloc))
}

fn has_each_reply(alloc: Global) -> Result<bool, NoMemory> {
    let plan = clients_alone(alloc, false, one_client(alloc, 9)?);
    reports_made(
        alloc,
        plan,
        each_reply(alloc),
        "afr replica 3\nlines 10\nc1 10 of 10\n1 write ok\n2 read ok 68656c6c6f\n3 read ok -\n4 read no-entry\n5 read ok early later\n6 read ok -\n7 read ok alice\n8 read ok -\n9 read ok file 00000000-0000-0001-0000-000000000002 70\n10 read ok dir 00000000-0000-0001-0000-000000000002\nreach 0 1 2\nobjects 0\nsplit-brain 0\n",
    )
}

fn shows_the_dead_and_the_short(alloc: Global) -> Result<bool, NoMemory> {
    let plan = clients_alone(alloc, true, two_readers(alloc)?);
    reports_made(
        alloc,
        plan,
        dead_and_short(alloc),
        "afr arbiter 3\nlines 4\nc1 1 of 2 dead\n1 read few-copies\nc2 0 of 1 unfinished\nreach 1 short\nobjects 0\nsplit-brain 0\n",
    )
}

#[test]
fn each_reply_has_its_line(rt: HostRuntime) -> Result<(), Fail> {
    let holds = has_each_reply(rt.alloc()) == Ok(true);
    assert!(rt; holds);
    Ok(())
}

#[test]
fn a_dead_client_and_a_short_reach_show(rt: HostRuntime) -> Result<(), Fail> {
    let holds = shows_the_dead_and_the_short(rt.alloc()) == Ok(true);
    assert!(rt; holds);
    Ok(())
}
