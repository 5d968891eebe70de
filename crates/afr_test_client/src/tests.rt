//! A walk of one name, from its first look to the copy that the name is read from.
ghost use Rattle.std.specs.Prelude.{◌<◌, length};
ghost use Rattle.afr_rule.specs.Choosing.{IsRule};
ghost use Rattle.afr_client_walk.specs.Walk.{IsWalk};

use afr_base::{AllMarks, BrickId, NameId, Shape, What};
use afr_client_walk::{Stop, Walk, WalkStep, stop_reply};
use afr_lines::{Answer, Reply, Request};
use afr_object::View;
use afr_rule::shipped::first;
use afr_rule::{Candidate, ReadRule};
use std::alloc::Global;

fn clean() -> Answer {
    Answer::Seen(View {
        what: What::Dir,
        len: 0,
        marks: AllMarks::zero(),
    })
}

/// The rule that takes the last candidate.
fn last(from: &[Candidate]) -> usize
    requires { 0 < length from.now }
    ensures { result < length from.now }
{
    from.len() - 1
}

fn hears<G: Fn(&[Candidate]) -> usize>(walk: &mut Walk, answer: &Answer, rule: &ReadRule<G>)
    requires rule { IsRule G.Fn rule.now }
    requires walk { IsWalk walk.old }
    ensures { IsWalk walk.new }
{
    let mut request = Request::Index;
    if let Some(brick) = walk.asks(&mut request) {
        walk.hear(brick, &request, answer, 3, rule);
    }
}

/// A walk of one name on three bricks; the last two have answered its looks.
fn looked_at<G: Fn(&[Candidate]) -> usize>(alloc: Global, rule: &ReadRule<G>) -> Option<WalkStep>
    requires { IsRule G.Fn rule.now }
{
    let shape = Shape {
        n: 3,
        arbiter: false,
    };
    let mut walk = Walk::new(alloc, shape, &[NameId(7)]).ok()?;
    hears(&mut walk, &Answer::NotConnected, rule);
    hears(&mut walk, &clean(), rule);
    hears(&mut walk, &clean(), rule);
    Some(walk.step)
}

#[test]
fn a_name_is_read_at_the_good_copy_that_the_rule_picks(rt: HostRuntime) {
    let lowest = looked_at(rt.alloc(), &ReadRule::new(first));
    assert!(rt; matches!(lowest, Some(WalkStep::Naming(BrickId(1)))));
    let highest = looked_at(rt.alloc(), &ReadRule::new(last));
    assert!(rt; matches!(highest, Some(WalkStep::Naming(BrickId(2)))));
}

#[test]
fn a_stop_has_its_reply(rt: HostRuntime) {
    let kept = stop_reply(&Stop::NoQuorum);
    assert!(rt; matches!(kept.to_reply(rt.alloc()), Ok(Reply::NoQuorum)));
    let kept = stop_reply(&Stop::SplitBrain([None; 5]));
    assert!(rt; matches!(kept.to_reply(rt.alloc()), Ok(Reply::SplitBrain(_))));
}
