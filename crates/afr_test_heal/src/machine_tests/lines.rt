//! The lines of the tests: what a heal asks next, and the answers that it hears.
use crate::answers::can_hear;
use afr_base::{AllMarks, Gfid, Kind, Marks, Shape, What};
use afr_heal::Coming;
use afr_heal_machine::HealMachine;
use afr_lines::{Answer, Domain, HealReply, Request};
use afr_object::{Load, View};
use afr_rule::SourceRule;
use afr_rule::shipped::longest;
use std::alloc::Global;

pub(crate) const OBJECT: Gfid = Gfid(2);

/// A heal on three bricks.
pub(crate) fn heal_of(alloc: Global, kind: Kind) -> HealMachine {
    let shape = Shape {
        n: 3,
        arbiter: false,
    };
    HealMachine::new(alloc, shape, OBJECT, kind)
}

/// The object as a brick shows it that saw brick 2 miss a change, or without any number.
pub(crate) fn seen(what: What, kind: Kind, missed: bool) -> Answer {
    let mut marks = AllMarks::zero();
    if missed {
        marks.put(
            kind,
            Marks {
                dirty: 0,
                pending: [0, 0, 1, 0, 0],
            },
        );
    }
    Answer::Seen(View {
        what,
        len: 7,
        marks,
    })
}

pub(crate) fn hears(machine: &mut HealMachine, mut answer: Answer, at: u32) {
    let rule = SourceRule::new(longest);
    let mut request = Request::Index;
    if let Coming::Ask(brick) = machine.asks(&mut request) {
        if can_hear(&request, &answer) {
            machine.hear(brick, &request, &mut answer, at, &rule);
        }
    }
}

/// The same three times.
pub(crate) fn hears_done(machine: &mut HealMachine, at: u32) {
    hears(machine, Answer::Done, at);
    hears(machine, Answer::Done, at);
    hears(machine, Answer::Done, at);
}

pub(crate) fn hears_granted(machine: &mut HealMachine, at: u32) {
    hears(machine, Answer::Granted, at);
    hears(machine, Answer::Granted, at);
    hears(machine, Answer::Granted, at);
}

/// The part begins, if that is the next line.
fn begins(machine: &mut HealMachine, at: u32) {
    let mut request = Request::Index;
    if let Coming::Begin = machine.asks(&mut request) {
        machine.begun(at);
    }
}

/// The locks were granted, the part has begun, and brick 2 missed a change.
pub(crate) fn sees_behind(machine: &mut HealMachine, what: What, kind: Kind) {
    hears_granted(machine, 1);
    hears_granted(machine, 4);
    begins(machine, 7);
    hears(machine, seen(what, kind, true), 8);
    hears(machine, seen(what, kind, true), 9);
    hears(machine, seen(what, kind, false), 10);
}

/// What is asked of this brick next.
pub(crate) fn asks(machine: &HealMachine, brick: u8) -> Option<Request> {
    let mut request = Request::Index;
    match machine.asks(&mut request) {
        Coming::Ask(b) => { if b.0 == brick { Some(request) } else { None } }
        Coming::Begin | Coming::End => None,
    }
}

/// The next line gives a lock of this domain back at the brick.
pub(crate) fn unlocks(machine: &HealMachine, domain: Domain, brick: u8) -> bool {
    match asks(machine, brick) {
        Some(Request::Unlock { domain: other, .. }) => other == domain,
        _ => false,
    }
}

/// The reply of the heal, if its next line is its end.
pub(crate) fn reply_of(machine: &HealMachine) -> Option<HealReply> {
    let mut request = Request::Index;
    match machine.asks(&mut request) {
        Coming::End => machine.end().ok(),
        Coming::Ask(_) | Coming::Begin => None,
    }
}

/// How many names go with the next repair.
pub(crate) fn names_carried(machine: &HealMachine) -> usize {
    match machine.load() {
        Load::Names(names) => names.len(),
        _ => 0,
    }
}

pub(crate) fn carries_attrs(machine: &HealMachine) -> bool {
    matches!(machine.load(), Load::Attrs(_))
}
