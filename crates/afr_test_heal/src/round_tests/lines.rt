//! The lines of the tests: what a round writes next, and the answers that it hears.
ghost use Rattle.std.specs.Prelude.{◌≡◌, true};
ghost use Rattle.afr_base.specs.declared.ids.BrickId.{BrickId};
ghost use Rattle.afr_heal_round.specs.Rounding.{CanHear, next_of};
ghost use Rattle.afr_lines.specs.declared.line.Next.{Next};

use crate::answers::can_hear;
use afr_base::{AllMarks, BrickId, Gfid, Kind, NoMemory, Shape, What};
use afr_heal_round::{RoundComing, RoundMachine};
use afr_lines::{Answer, Good, HealReply, Reply, Request};
use afr_object::{IndexList, List, View};
use afr_rule::SourceRule;
use afr_rule::shipped::longest;
use std::alloc::Global;

pub(crate) const OBJECT: Gfid = Gfid(9);

pub(crate) const DIRECTORY: Gfid = Gfid(1);

const THREE: Shape = Shape {
    n: 3,
    arbiter: false,
};

/// A round over the index of brick 1, on three bricks.
pub(crate) fn round_of(alloc: Global) -> RoundMachine {
    RoundMachine::new(alloc, THREE, true, BrickId(1))
}

/// A round of a crawler over the same index.
pub(crate) fn crawl_of(alloc: Global) -> RoundMachine {
    RoundMachine::new(alloc, THREE, false, BrickId(1))
}

/// The task of the file.
pub(crate) fn task_of(alloc: Global) -> Result<RoundMachine, NoMemory> {
    RoundMachine::task(alloc, THREE, OBJECT, What::File)
}

/// An index that shows one file.
fn index(alloc: Global) -> Result<IndexList, NoMemory> {
    let mut list = List::new(alloc);
    list.push((OBJECT, What::File))?;
    Ok(list)
}

/// An index that shows a directory before it.
fn index_of_two(alloc: Global) -> Result<IndexList, NoMemory> {
    let mut list = List::new(alloc);
    list.push((DIRECTORY, What::Dir))?;
    list.push((OBJECT, What::File))?;
    Ok(list)
}

/// Whether the round may hear this answer to this request, which is its next line: only a heal minds what its bricks answer.
fn can_hear_next(machine: &RoundMachine, request: &Request, answer: &Answer) -> bool
    ensures { result ≡ true → (b : BrickId) → next_of machine.now ≡ Next.Ask b request.now → CanHear machine.now answer.now }
{
    match machine.heal() {
        Some(_) => can_hear(request, answer),
        None => true,
    }
}

pub(crate) fn hears(machine: &mut RoundMachine, mut answer: Answer, at: u32) {
    let rule = SourceRule::new(longest);
    let mut request = Request::Index;
    if let RoundComing::Ask(brick) = machine.asks(&mut request) {
        if can_hear_next(machine, &request, &answer) {
            machine.hear(brick, &request, &mut answer, at, &rule);
        }
    }
}

pub(crate) fn hears_index(machine: &mut RoundMachine, alloc: Global) {
    if let Ok(list) = index(alloc) {
        hears(machine, Answer::Index(list), 0);
    }
}

pub(crate) fn hears_index_of_two(machine: &mut RoundMachine, alloc: Global) {
    if let Ok(list) = index_of_two(alloc) {
        hears(machine, Answer::Index(list), 0);
    }
}

/// The object as a brick shows it that saw no brick miss a change.
fn clean() -> Answer {
    Answer::Seen(View {
        what: What::File,
        len: 7,
        marks: AllMarks::zero(),
    })
}

/// The part of a heal begins, if that is the next line.
fn begins(machine: &mut RoundMachine, at: u32) {
    let mut request = Request::Index;
    if let RoundComing::Begin(..) = machine.asks(&mut request) {
        machine.begun(at);
    }
}

/// A heal of a clean file, from its first lock up to its last unlock.
pub(crate) fn finds_nothing(machine: &mut RoundMachine, from: u8) {
    let from = from as u32;
    for at in 0..6u32 {
        hears(machine, Answer::Granted, from + at);
    }
    begins(machine, from + 6);
    for at in 7..10u32 {
        hears(machine, clean(), from + at);
    }
    for at in 10..16u32 {
        hears(machine, Answer::Done, from + at);
    }
}

/// The heal of this object and kind ends where it found nothing to heal, if that is the next line.
pub(crate) fn ends_with_nothing(machine: &mut RoundMachine, object: Gfid, kind: Kind) -> bool {
    let mut request = Request::Index;
    if let RoundComing::HealEnd(healed, of) = machine.asks(&mut request) {
        let found = matches!(machine.heal_end(), Ok(HealReply::Nothing));
        machine.healed();
        return found && healed == object && of == kind;
    }
    false
}

pub(crate) fn asks_for_the_index(machine: &RoundMachine) -> bool {
    let mut request = Request::ReadAttrs { gfid: OBJECT };
    match machine.asks(&mut request) {
        RoundComing::Ask(brick) => brick == BrickId(1) && matches!(request, Request::Index),
        _ => false,
    }
}

/// A heal asks brick 0 for its first lock.
pub(crate) fn asks_for_a_lock(machine: &RoundMachine) -> bool {
    let mut request = Request::Index;
    match machine.asks(&mut request) {
        RoundComing::Ask(brick) => brick == BrickId(0) && matches!(request, Request::Lock { .. }),
        _ => false,
    }
}

/// The round asks nobody and ends, and its index was given.
pub(crate) fn ends_well(machine: &RoundMachine) -> bool {
    let mut request = Request::Index;
    match machine.asks(&mut request) {
        RoundComing::End => matches!(machine.end(), Reply::Ok(Good::Done)),
        _ => false,
    }
}
