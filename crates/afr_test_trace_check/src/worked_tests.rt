//! Worked traces are right whole; a line that breaks a rule is found. A plan past the limit isn't checked.

use crate::built::{ended_by, is_found};
use crate::worked::{lost_answer, lost_answer_trace, write_and_read, write_and_read_trace};
use afr_trace_check::{CheckStop, Finding, Rule};
use std::alloc::Global;
use std::test::Fail;

#[test]
fn a_worked_trace_keeps_every_rule(rt: HostRuntime) -> Result<(), Fail> {
    let write = is_found(
        rt.alloc(),
        write_and_read(),
        write_and_read_trace(),
        Ok(Finding::Yes(33)),
    )?;
    assert!(rt; write);
    let heal = is_found(
        rt.alloc(),
        lost_answer(),
        lost_answer_trace(),
        Ok(Finding::Yes(88)),
    )?;
    assert!(rt; heal);
    Ok(())
}

/// Whether the trace of the heal, with this line behind its first ones, follows its plan up to this line.
fn stops_following(alloc: Global, line: u32, last: &str) -> Result<bool, Fail> {
    let trace = ended_by(alloc, lost_answer_trace(), line as usize, last)?;
    let rule = Rule::Follows;
    is_found(
        alloc,
        lost_answer(),
        trace.as_str(),
        Ok(Finding::No { line, rule }),
    )
}

/// A name in another directory or asked once more, another brick's index, another object's lock, and another heal.
#[test]
fn what_the_plan_does_not_have_is_found(rt: HostRuntime) -> Result<(), Fail> {
    for (text, line) in [
        ("3 c1 b0 name g9/f1 ok", 3),
        ("4 c1 b0 name g1/f1 ok", 4),
        ("22 h1 b1 index ok", 22),
        ("23 h1 b0 lock heal g1[0,end) granted", 23),
        ("24 h1 b1 lock heal g1[0,end) lost", 24),
        ("29 h1 begin heal data f1", 29),
    ] {
        let stops = stops_following(rt.alloc(), line, text)?;
        assert!(rt; stops, "{text}");
    }
    Ok(())
}

/// Whether a plan with this command isn't checked, since it may leave a file that is too long.
fn is_past_limit(alloc: Global, command: &str) -> Result<bool, Fail> {
    let mut plan = String::new(alloc);
    plan.push_str("afr 1\nvolume replica\nfiles 1\nturns 100\nclient 1\n")?;
    plan.push_str(command)?;
    plan.push_str("\nend\n")?;
    is_found(alloc, plan.as_str(), "", Err(CheckStop::Limit))
}

#[test]
fn a_file_may_end_at_1024_and_not_past_it(rt: HostRuntime) -> Result<(), Fail> {
    for (command, past) in [
        ("write /f1 1023 \"x\"", false),
        ("cut /f1 1024", false),
        ("read /f1 5000 5000", false),
        ("write /f1 1020 \"hello\"", true),
        ("cut /f1 1025", true),
    ] {
        let is_past = is_past_limit(rt.alloc(), command)?;
        assert!(rt; is_past == past, "{command}");
    }
    Ok(())
}
