//! Works of a client at the root, from their commands to their ends.
ghost use Rattle.std.specs.Prelude.{◌≡◌, true};
ghost use Rattle.afr_client.specs.Begin.{has_machine};

use afr_base::{AllMarks, BrickId, Gfid, KeyId, NameId, Shape, ValueId, What};
use afr_client::Work;
use afr_lines::{Answer, Good, Reply, Request};
use afr_object::{Change, Entry, List, Load, View};
use afr_plan::Command;
use afr_rule::ReadRule;
use afr_rule::shipped::first;
use std::alloc::Global;

const ROOT: Gfid = Gfid(1);

const FILE: Gfid = Gfid(40);

fn seen() -> Answer {
    Answer::Seen(View {
        what: What::Dir,
        len: 5,
        marks: AllMarks::zero(),
    })
}

fn begins_on_three(work: &mut Work, alloc: Global, command: &Command) -> Option<()>
    requires { has_machine command.now ≡ true }
{
    let shape = Shape {
        n: 3,
        arbiter: false,
    };
    work.begin(alloc, shape, command).ok()
}

fn on_three(alloc: Global, command: &Command) -> Option<Work>
    requires { has_machine command.now ≡ true }
{
    let mut work = Work::none();
    begins_on_three(&mut work, alloc, command)?;
    Some(work)
}

/// Whom a work asks next, and for what.
fn asked(work: &Work) -> Option<(BrickId, Request)> {
    let mut request = Request::Index;
    let brick = work.asks(&mut request)?;
    Some((brick, request))
}

/// What it ends with, where its next line is the end.
fn ends_with(work: &Work) -> Option<Reply> {
    work.end().ok()?
}

fn hears_one(work: &mut Work, mut answer: Answer) {
    let mut request = Request::Index;
    if let Some(brick) = work.asks(&mut request) {
        work.hear(brick, &request, &mut answer, 3, &ReadRule::new(first));
    }
}

fn all_done(work: &mut Work) {
    hears_one(work, Answer::Done);
    hears_one(work, Answer::Done);
    hears_one(work, Answer::Done);
}

fn all_seen(work: &mut Work) {
    hears_one(work, seen());
    hears_one(work, seen());
    hears_one(work, seen());
}

fn all_granted(work: &mut Work) {
    hears_one(work, Answer::Granted);
    hears_one(work, Answer::Granted);
    hears_one(work, Answer::Granted);
}

fn begins(work: &mut Work) {
    if let Ok(Some(_)) = work.begins(10) {
        work.begun(10);
    }
}

fn carries_the_attribute(work: &Work) -> bool {
    matches!(
        work.load(),
        Load::Change(Change::SetAttr { gfid: ROOT, .. })
    )
}

#[test]
fn a_client_is_idle_at_first(rt: HostRuntime) {
    let work = Work::none();
    assert!(rt; work.is_idle());
    assert!(rt; matches!(asked(&work), None));
    assert!(rt; matches!(work.end(), Ok(Some(_))));
}

/// What a stat of the root asks first, and what it answers.
fn stat_of_the_root(alloc: Global) -> Option<((BrickId, Request), Reply)> {
    let path = List::new(alloc);
    let mut work = on_three(alloc, &Command::Stat { path })?;
    let first = asked(&work)?;
    all_seen(&mut work);
    let last = ends_with(&work)?;
    Some((first, last))
}

#[test]
fn a_stat_looks_and_ends(rt: HostRuntime) {
    assert!(rt;
        matches!(
            stat_of_the_root(rt.alloc()),
            Some((
                (BrickId(0), Request::Look { gfid: ROOT }),
                Reply::Ok(Good::Stat { len: 5, .. })
            ))
        )
    );
}

/// The same of a stat in the place of one that has ended.
fn stat_after_another(alloc: Global) -> Option<((BrickId, Request), Reply)> {
    let path = List::new(alloc);
    let command = Command::Stat { path };
    let mut work = on_three(alloc, &command)?;
    all_seen(&mut work);
    work.rest();
    begins_on_three(&mut work, alloc, &command)?;
    let first = asked(&work)?;
    all_seen(&mut work);
    let last = ends_with(&work)?;
    Some((first, last))
}

#[test]
fn a_stat_begins_in_the_place_of_another(rt: HostRuntime) {
    assert!(rt;
        matches!(
            stat_after_another(rt.alloc()),
            Some((
                (BrickId(0), Request::Look { gfid: ROOT }),
                Reply::Ok(Good::Stat { len: 5, .. })
            ))
        )
    );
}

/// An attribute of the root on its way to every brick.
fn attribute_of_the_root(alloc: Global) -> Option<Work> {
    let command = Command::SetAttr {
        path: List::new(alloc),
        key: KeyId(1),
        value: ValueId(2),
    };
    on_three(alloc, &command)
}

/// The operation, post-op and the unlocks are done everywhere.
fn finishes(work: &mut Work) {
    all_done(work);
    all_done(work);
    all_done(work);
}

/// Whether its operation carried it, and what it answers.
fn carried_out(alloc: Global) -> Option<(bool, Reply)> {
    let mut work = attribute_of_the_root(alloc)?;
    all_granted(&mut work);
    all_seen(&mut work);
    begins(&mut work);
    all_done(&mut work);
    let carried = carries_the_attribute(&work);
    finishes(&mut work);
    let reply = ends_with(&work)?;
    Some((carried, reply))
}

#[test]
fn an_attribute_is_carried_to_every_brick(rt: HostRuntime) {
    assert!(rt; matches!(carried_out(rt.alloc()), Some((true, Reply::Ok(Good::Done)))));
}

fn the_file() -> Answer {
    Answer::Entry(Some(Entry {
        gfid: FILE,
        what: What::File,
    }))
}

/// A file of the root, on its way to another name there.
fn rename_in_the_root(alloc: Global) -> Option<Work> {
    let mut from = List::new(alloc);
    from.push(NameId(7)).ok()?;
    let mut to = List::new(alloc);
    to.push(NameId(8)).ok()?;
    on_three(alloc, &Command::Rename { from, to })
}

/// A name is locked, read and attempted, and pre-op is done.
fn attempted(work: &mut Work, told: Answer) {
    all_granted(work);
    all_seen(work);
    hears_one(work, told);
    begins(work);
    all_done(work);
}

fn makes_the_new_name(work: &Work) -> bool {
    matches!(
        work.load(),
        Load::Change(Change::Make {
            dir: ROOT,
            name: NameId(8),
            gfid: FILE,
            what: What::File,
        })
    )
}

fn removes_the_old_name(work: &Work) -> bool {
    matches!(
        work.load(),
        Load::Change(Change::Remove {
            dir: ROOT,
            name: NameId(7),
            ..
        })
    )
}

/// Whether its first operation made the new name, whether its second one removed the old one, and what it answers.
fn renamed(alloc: Global) -> Option<(bool, bool, Reply)> {
    let mut work = rename_in_the_root(alloc)?;
    all_seen(&mut work);
    hears_one(&mut work, the_file());
    attempted(&mut work, Answer::Entry(None));
    let made = makes_the_new_name(&work);
    finishes(&mut work);
    attempted(&mut work, the_file());
    let removed = removes_the_old_name(&work);
    finishes(&mut work);
    let reply = ends_with(&work)?;
    Some((made, removed, reply))
}

#[test]
fn a_file_gets_another_name(rt: HostRuntime) {
    assert!(rt;
        matches!(
            renamed(rt.alloc()),
            Some((true, true, Reply::Ok(Good::Done)))
        )
    );
}
