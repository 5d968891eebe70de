//! A write of a file in the root, to its end.
use afr_base::{AllMarks, Gfid, NameId, Shape, What};
use afr_client_write::{WriteJob, WriteMachine};
use afr_lines::{Answer, Good, Reply, Request};
use afr_object::{Change, Chunk, Entry, Load, View};
use afr_rule::ReadRule;
use afr_rule::shipped::first;
use std::alloc::Global;

const FILE: Gfid = Gfid(40);

fn seen(what: What) -> Answer {
    Answer::Seen(View {
        what,
        len: 5,
        marks: AllMarks::zero(),
    })
}

fn on_three(alloc: Global, path: &[NameId], job: WriteJob) -> Option<WriteMachine> {
    let shape = Shape {
        n: 3,
        arbiter: false,
    };
    WriteMachine::new(alloc, shape, path, job).ok()
}

/// A write of these many bytes at this place of a file in the root, before its first line.
fn write_of(alloc: Global, at: u32, count: u8) -> Option<WriteMachine> {
    let mut bytes: Chunk = Chunk::new(alloc);
    for byte in 0..count {
        bytes.push(byte).ok()?;
    }
    on_three(alloc, &[NameId(0)], WriteJob::Write { at, bytes })
}

fn hears_one(machine: &mut WriteMachine, answer: Answer) {
    let mut request = Request::Index;
    if let Some(brick) = machine.asks(&mut request) {
        machine.hear(brick, &request, &answer, 3, &ReadRule::new(first));
    }
}

/// The root was looked at, and its name gave a file.
fn finds_the_file(machine: &mut WriteMachine) {
    hears_one(machine, Answer::NotConnected);
    hears_one(machine, seen(What::Dir));
    hears_one(machine, seen(What::Dir));
    let entry = Entry {
        gfid: FILE,
        what: What::File,
    };
    hears_one(machine, Answer::Entry(Some(entry)));
}

fn all_done(machine: &mut WriteMachine) {
    hears_one(machine, Answer::Done);
    hears_one(machine, Answer::Done);
    hears_one(machine, Answer::Done);
}

/// The file is locked and seen on every brick, and the attempt has its number.
fn begins(machine: &mut WriteMachine) {
    finds_the_file(machine);
    hears_one(machine, Answer::Granted);
    hears_one(machine, Answer::Granted);
    hears_one(machine, Answer::Granted);
    hears_one(machine, seen(What::File));
    hears_one(machine, seen(What::File));
    hears_one(machine, seen(What::File));
    if let Ok(Some(_)) = machine.begins(10) {
        machine.begun(10);
    }
}

fn carries_the_write(machine: &WriteMachine) -> bool {
    matches!(
        machine.load(),
        Load::Change(Change::Write {
            gfid: FILE,
            at: 7,
            ..
        })
    )
}

/// A write of two bytes that every brick carries out, and whether its operation carried them.
fn carried_out(alloc: Global) -> Option<(bool, Reply)> {
    let mut machine = write_of(alloc, 7, 2)?;
    begins(&mut machine);
    all_done(&mut machine);
    let carried = carries_the_write(&machine);
    all_done(&mut machine);
    all_done(&mut machine);
    all_done(&mut machine);
    let reply = machine.end().ok()??;
    Some((carried, reply))
}

#[test]
fn a_write_that_all_bricks_carry_out_ends_well(rt: HostRuntime) {
    assert!(rt; matches!(carried_out(rt.alloc()), Some((true, Reply::Ok(Good::Done)))));
}

/// How many bricks the register of a write has.
fn bricks_in_register(alloc: Global) -> Option<u8> {
    let machine = write_of(alloc, 7, 2)?;
    machine.stays_sound();
    Some(machine.register().shape.n)
}

#[test]
fn the_register_is_of_the_volume(rt: HostRuntime) {
    assert!(rt; matches!(bricks_in_register(rt.alloc()), Some(3)));
}
