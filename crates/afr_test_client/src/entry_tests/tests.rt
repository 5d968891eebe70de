//! Commands on a name of the root, to their ends.
use afr_base::{AllMarks, Gfid, NameId, Shape, What};
use afr_client_entry::{EntryJob, EntryMachine};
use afr_lines::{Answer, Good, Reply, Request};
use afr_object::{Change, Entry, List, Load, NameList, View};
use afr_rule::ReadRule;
use afr_rule::shipped::first;
use std::alloc::Global;

const ROOT: Gfid = Gfid(1);

const NAME: NameId = NameId(4);

fn on_three(alloc: Global, path: &[NameId], job: EntryJob) -> Option<EntryMachine> {
    let shape = Shape {
        n: 3,
        arbiter: false,
    };
    EntryMachine::new(alloc, shape, path, job).ok()
}

fn hears_one(machine: &mut EntryMachine, answer: Answer) {
    let mut request = Request::Index;
    if let Some(brick) = machine.asks(&mut request) {
        machine.hear(brick, &request, &answer, 3, &ReadRule::new(first));
    }
}

/// The change of the Begin line at this position, which is written.
fn begins(machine: &mut EntryMachine, at: u32) -> Option<Change> {
    let change = machine.begins(at).ok()??;
    machine.begun(at);
    Some(change)
}

/// What it ends with, where its next line is the end.
fn ends_with(machine: &EntryMachine) -> Option<Reply> {
    machine.end().ok()?
}

fn all_done(machine: &mut EntryMachine) {
    hears_one(machine, Answer::Done);
    hears_one(machine, Answer::Done);
    hears_one(machine, Answer::Done);
}

/// A clean copy of the directory.
fn seen() -> Answer {
    Answer::Seen(View {
        what: What::Dir,
        len: 0,
        marks: AllMarks::zero(),
    })
}

fn entry(what: What) -> Answer {
    Answer::Entry(Some(Entry {
        gfid: Gfid(40),
        what,
    }))
}

/// The name is locked in the root on every brick, and the root is looked at.
fn locked(alloc: Global, job: EntryJob) -> Option<EntryMachine> {
    let mut machine = on_three(alloc, &[], job)?;
    hears_one(&mut machine, Answer::Granted);
    hears_one(&mut machine, Answer::Granted);
    hears_one(&mut machine, Answer::Granted);
    hears_one(&mut machine, seen());
    hears_one(&mut machine, seen());
    hears_one(&mut machine, seen());
    Some(machine)
}

/// A file is made on every brick: the number that its Begin line gives, whether its operation carries it, and its end.
fn makes_a_file(alloc: Global) -> Option<(Change, bool, Reply)> {
    let mut machine = locked(alloc, EntryJob::Create { name: NAME })?;
    hears_one(&mut machine, Answer::Entry(None));
    let begin = begins(&mut machine, 7)?;
    all_done(&mut machine);
    let carried = matches!(machine.load(), Load::Change(Change::Make { .. }));
    all_done(&mut machine);
    all_done(&mut machine);
    all_done(&mut machine);
    let end = ends_with(&machine)?;
    Some((begin, carried, end))
}

#[test]
fn a_file_takes_its_number_from_its_begin_line(rt: HostRuntime) {
    assert!(rt;
        matches!(
            makes_a_file(rt.alloc()),
            Some((
                Change::Make {
                    dir: ROOT,
                    name: NAME,
                    gfid: Gfid(9),
                    what: What::File
                },
                true,
                Reply::Ok(Good::Done)
            ))
        )
    );
}

/// The name leads to a directory, which is locked wherever the bricks answer so.
fn child_locked(alloc: Global, locks: [Answer; 3]) -> Option<EntryMachine> {
    let mut machine = locked(alloc, EntryJob::Rmdir { name: NAME })?;
    hears_one(&mut machine, entry(What::Dir));
    for answer in locks {
        hears_one(&mut machine, answer);
    }
    Some(machine)
}

/// The end of a removal whose child has these names.
fn removes_with(alloc: Global, names: NameList) -> Option<Reply> {
    let locks = [Answer::Granted, Answer::Granted, Answer::Granted];
    let mut machine = child_locked(alloc, locks)?;
    hears_one(&mut machine, seen());
    hears_one(&mut machine, seen());
    hears_one(&mut machine, seen());
    hears_one(&mut machine, Answer::Names(names));
    begins(&mut machine, 14)?;
    all_done(&mut machine);
    all_done(&mut machine);
    all_done(&mut machine);
    all_done(&mut machine);
    all_done(&mut machine);
    ends_with(&machine)
}

#[test]
fn an_empty_directory_is_removed(rt: HostRuntime) {
    let end = removes_with(rt.alloc(), List::new(rt.alloc()));
    assert!(rt; matches!(end, Some(Reply::Ok(Good::Done))));
}
