//! A read of a file in the root, at the copy that the rule picks, and one that is refused.
ghost use Rattle.std.specs.Prelude.{◌<◌, length};
ghost use Rattle.afr_rule.specs.Choosing.{IsRule};

use afr_base::{AllMarks, BrickId, Gfid, NameId, Shape, What};
use afr_client_read::{LookupJob, LookupMachine};
use afr_lines::{Answer, Reply, Request};
use afr_object::{Entry, Load, View};
use afr_rule::shipped::first;
use afr_rule::{Candidate, ReadRule};
use std::alloc::Global;

const FILE: Gfid = Gfid(40);

fn seen(what: What) -> Answer {
    Answer::Seen(View {
        what,
        len: 5,
        marks: AllMarks::zero(),
    })
}

/// The rule that takes the last candidate.
fn last(from: &[Candidate]) -> usize
    requires { 0 < length from.now }
    ensures { result < length from.now }
{
    from.len() - 1
}

fn hears<G: Fn(&[Candidate]) -> usize>(
    machine: &mut LookupMachine,
    mut answer: Answer,
    rule: &ReadRule<G>,
)
    requires { IsRule G.Fn rule.now }
{
    let mut request = Request::Index;
    if let Some(brick) = machine.asks(&mut request) {
        machine.hear(brick, &request, &mut answer, 3, rule);
    }
}

fn on_three<G: Fn(&[Candidate]) -> usize>(
    alloc: Global,
    path: &[NameId],
    job: LookupJob,
    rule: &ReadRule<G>,
) -> Option<LookupMachine>
    requires { IsRule G.Fn rule.now }
{
    let shape = Shape {
        n: 3,
        arbiter: false,
    };
    let mut machine = LookupMachine::new(alloc, shape, path, job).ok()?;
    hears(&mut machine, Answer::NotConnected, rule);
    hears(&mut machine, seen(What::Dir), rule);
    hears(&mut machine, seen(What::Dir), rule);
    Some(machine)
}

/// A read of a file in the root, whose name was found and whose copies were looked at.
fn in_the_root<G: Fn(&[Candidate]) -> usize>(
    alloc: Global,
    job: LookupJob,
    rule: &ReadRule<G>,
) -> Option<LookupMachine>
    requires { IsRule G.Fn rule.now }
{
    let mut machine = on_three(alloc, &[NameId(0)], job, rule)?;
    let entry = Entry {
        gfid: FILE,
        what: What::File,
    };
    hears(&mut machine, Answer::Entry(Some(entry)), rule);
    hears(&mut machine, Answer::NotConnected, rule);
    hears(&mut machine, seen(What::File), rule);
    hears(&mut machine, seen(What::File), rule);
    Some(machine)
}

/// The brick that four bytes of the file are read at.
fn reader_by<G: Fn(&[Candidate]) -> usize>(alloc: Global, rule: &ReadRule<G>) -> Option<BrickId>
    requires { IsRule G.Fn rule.now }
{
    let machine = in_the_root(alloc, LookupJob::Read { at: 1, len: 4 }, rule)?;
    let mut request = Request::Index;
    let brick = machine.asks(&mut request)?;
    match request {
        Request::ReadBytes {
            gfid: FILE,
            at: 1,
            len: 4,
        } => Some(brick),
        _ => None,
    }
}

#[test]
fn a_file_in_the_root_is_read_at_the_good_copy_that_the_rule_picks(rt: HostRuntime) {
    let lowest = reader_by(rt.alloc(), &ReadRule::new(first));
    assert!(rt; matches!(lowest, Some(BrickId(1))));
    let highest = reader_by(rt.alloc(), &ReadRule::new(last));
    assert!(rt; matches!(highest, Some(BrickId(2))));
}

/// What a refused read of the file's value ends with.
fn refused(alloc: Global) -> Option<Reply> {
    let rule = ReadRule::new(first);
    let job = LookupJob::GetAttr {
        key: afr_base::KeyId(2),
    };
    let mut machine = in_the_root(alloc, job, &rule)?;
    if !matches!(machine.load(), Load::Nothing) {
        return None;
    }
    hears(&mut machine, Answer::Failed, &rule);
    machine.end().ok()?
}

#[test]
fn a_refused_read_has_failed(rt: HostRuntime) {
    assert!(rt; matches!(refused(rt.alloc()), Some(Reply::Failed)));
}
