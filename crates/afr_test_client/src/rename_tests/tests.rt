//! A rename of a file in the root: whom it asks, what the rule picks, its register and its laws.
use afr_base::{AllMarks, BrickId, NameId, Shape, What};
use afr_client_entry::{RenameMachine, a_rename_keeps_the_discipline, a_rename_reads_good_copies};
use afr_lines::{Answer, Request};
use afr_object::View;
use afr_rule::ReadRule;
use afr_rule::shipped::first;
use std::alloc::Global;

const OLD: NameId = NameId(4);

const NEW: NameId = NameId(5);

fn on_three(alloc: Global) -> Option<RenameMachine> {
    let shape = Shape {
        n: 3,
        arbiter: false,
    };
    RenameMachine::new(alloc, shape, &[OLD], &[NEW]).ok()
}

fn hears_one(machine: &mut RenameMachine, answer: Answer) {
    let mut request = Request::Index;
    if let Some(brick) = machine.asks(&mut request) {
        machine.hear(brick, &request, &answer, 3, &ReadRule::new(first));
    }
}

/// A clean copy of the root.
fn seen() -> Answer {
    Answer::Seen(View {
        what: What::Dir,
        len: 0,
        marks: AllMarks::zero(),
    })
}

/// What the rule picks by the answer that ends the looks at the root.
fn picks(alloc: Global) -> Option<BrickId> {
    let mut machine = on_three(alloc)?;
    hears_one(&mut machine, seen());
    hears_one(&mut machine, seen());
    let mut request = Request::Index;
    let brick = machine.asks(&mut request)?;
    machine.hear(brick, &request, &seen(), 2, &ReadRule::new(first))
}

#[test]
fn the_name_is_read_where_the_rule_picks(rt: HostRuntime) {
    assert!(rt; matches!(picks(rt.alloc()), Some(BrickId(0))));
}

/// How many bricks the register of a rename has.
fn bricks_in_register(alloc: Global) -> Option<u8> {
    let machine = on_three(alloc)?;
    machine.stays_sound();
    Some(machine.register().shape.n)
}

#[test]
fn the_register_is_of_these_bricks(rt: HostRuntime) {
    assert!(rt; matches!(bricks_in_register(rt.alloc()), Some(3)));
}

#[test]
fn the_laws_hold(_rt: HostRuntime) {
    a_rename_keeps_the_discipline();
    a_rename_reads_good_copies(&ReadRule::new(first));
}
