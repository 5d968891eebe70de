//! A plan is run in its order, line by line.
ghost use Rattle.std.specs.Prelude.{◌≡◌, [], OnOk, false};

use afr_base::{ActorId, BrickId};
use afr_law_runnable::every_spelled_plan_runs;
use afr_lines::{Line, Request};
use afr_order::{drive, with_turns};
use afr_plan_read::read_plan;
use afr_rule::{ReadRule, Rules, SourceRule, shipped};
use afr_volume::Volume;
use std::alloc::Global;
use std::test::Fail;

/// A client that writes and reads, and a healer with a round over brick 0, whose index is empty.
const BOTH: &str =
    "afr 1\nvolume replica\nfiles 1\nturns 100000\nclient 1\nwrite /f1 0 \"hello\"\nread /f1 0 5\nhealer 1\nround 0\ngo c1 33\nend\n";

const LINES: &str =
    "look0 look1 look2 name0 lock0 lock1 lock2 look0 look1 look2 begin pre0 pre1 pre2 apply0 apply1 apply2 post0 post1 post2 unlock0 unlock1 unlock2 end look0 look1 look2 name0 look0 look1 look2 read0 end index0 end ";

/// Sets the volume up for a plan, with fewer turns than it says.
fn set_up(alloc: Global, volume: &mut Volume, plan: &str) -> Result<(), Fail>
    ensures fresh { OnOk result (volume.new.log ≡ []) }
    ensures plain { OnOk result (volume.new.crawl ≡ false) }
{
    let Ok(plan) = read_plan(alloc, plan.as_bytes()) else {
        return Err(Fail::from("refused"));
    };
    every_spelled_plan_runs();
    let Ok(()) = volume.set_up(with_turns(plan, 50_000)) else {
        return Err(Fail::from("memory"));
    };
    Ok(())
}

/// Runs the plan in its order.
fn drives(volume: &mut Volume) -> Result<(), Fail>
    requires fresh { volume.old.log ≡ [] }
    requires plain { volume.old.crawl ≡ false }
    ensures { volume.new.crawl ≡ false }
{
    let rules = Rules {
        heal: SourceRule::new(shipped::longest),
        read: ReadRule::new(shipped::first),
    };
    let Ok(()) = drive(volume, &rules) else {
        return Err(Fail::from("memory"));
    };
    Ok(())
}

fn word_of(request: &Request) -> &'static str {
    match request {
        Request::Look { .. } => "look",
        Request::ReadName { .. } => "name",
        Request::Lock { .. } => "lock",
        Request::Pre { .. } => "pre",
        Request::Apply { attempt: 10 } => "apply",
        Request::Post { attempt: 10, .. } => "post",
        Request::Unlock { .. } => "unlock",
        Request::ReadBytes { at: 0, len: 5, .. } => "read",
        Request::Index => "index",
        _ => "other",
    }
}

fn write_line(text: &mut String, line: &Line) -> Result<(), Fail> {
    match line {
        Line::Ask { brick, request, .. } => {
            let word = word_of(request);
            let number = brick.0;
            write!(text, "{word}{number} ")?;
        }
        Line::Begin { .. } => text.push_str("begin ")?,
        Line::End { .. } => text.push_str("end ")?,
        _ => text.push_str("other ")?,
    }
    Ok(())
}

/// The words of all lines of a run of both in its order.
fn words_of(volume: &Volume, text: &mut String) -> Result<(), Fail> {
    for position in 0..volume.len() {
        write_line(text, volume.line(position).as_line())?;
    }
    Ok(())
}

/// Runs both in their order, writes the words of the lines, and says whether all is done then and what was picked.
fn is_worked(alloc: Global, volume: &mut Volume, text: &mut String) -> Result<bool, Fail> {
    set_up(alloc, volume, BOTH)?;
    drives(volume)?;
    words_of(volume, text)?;
    volume.every_line();
    Ok(
        volume.lines().len() == 35
            && volume.reach().has_quorum(3)
            && volume.due().is_none()
            && volume.plan().clients.len() == 1
            && volume.is_done(ActorId(1))
            && volume.picked(ActorId(1)) == Some(BrickId(0))
            && volume.plan().healers.len() == 1
            && volume.is_done(ActorId(17))
            && volume.picked(ActorId(17)).is_none(),
    )
}

/// The words of the lines, where all is done after them.
fn worked(alloc: Global, text: &mut String) -> Result<bool, Fail> {
    let mut volume = Volume::empty(alloc);
    is_worked(alloc, &mut volume, text)
}

#[test]
fn a_write_a_read_and_a_round_have_35_lines(rt: HostRuntime) -> Result<(), Fail> {
    let mut text = String::new(rt.alloc());
    let done = worked(rt.alloc(), &mut text)?;
    assert!(rt; done);
    assert_eq!(rt; text.as_str(), LINES);
    Ok(())
}
