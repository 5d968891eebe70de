//! Tests of hostile use: plans that are refused, and sources and sinks that fail, for the run in the stated order
//! and for the one by threads.
use crate::live_tests::by_threads;
use crate::tests::{PLAN, REPORT, in_order};
use afr_live::NoGate;
use afr_text::{MemSink, MemSource};
use std::alloc::Global;
use std::sync::Wait;
use std::test::Fail;
use std::thread::Threads;

/// The words of the two calls.
const WORDS: [&str; 2] = ["run", "live"];

/// Plans that break one rule, and the line that answers each.
const REFUSED: [(&str, &str); 20] = [
    ("", "plan refused: line 1, code 9 end\n"),
    (
        "afr 1\r\nvolume replica\nfiles 0\nturns 100000\n",
        "plan refused: line 1, code 1 byte\n",
    ),
    (
        "afr 3\nvolume replica\nfiles 0\nturns 100000\n",
        "plan refused: line 1, code 3 head\n",
    ),
    (
        "afr 1\nvolume replica\nfiles 01\nturns 100000\n",
        "plan refused: line 3, code 5 form\n",
    ),
    (
        "afr 1\nvolume replica\nfiles 99999999999999999999\nturns 100000\n",
        "plan refused: line 3, code 6 range\n",
    ),
    (
        "afr 1\nvolume replica\nfiles 0\nturns 4000001\n",
        "plan refused: line 4, code 6 range\n",
    ),
    (
        "afr 1\nvolume replica\nfiles 0\nturns 100000\nround 0\n",
        "plan refused: line 5, code 4 word\n",
    ),
    (
        "afr 1\nvolume replica\nfiles 0\nturns 100000\nclient 2\n",
        "plan refused: line 5, code 7 order\n",
    ),
    (
        "afr 1\nvolume replica\nfiles 0\nturns 100000\nclient 1\nread f1 0 5\n",
        "plan refused: line 6, code 5 form\n",
    ),
    (
        "afr 1\nvolume replica\nfiles 0\nturns 100000\nclient 1\nread /f1  0 5\n",
        "plan refused: line 6, code 5 form\n",
    ),
    (
        "afr 1\nvolume replica\nfiles 0\nturns 100000\nclient 1\nread /f1 0 65537\n",
        "plan refused: line 6, code 6 range\n",
    ),
    (
        "afr 1\nvolume replica\nfiles 0\nturns 100000\nclient 1\nwrite /f1 0 hex:abc\n",
        "plan refused: line 6, code 5 form\n",
    ),
    (
        "afr 1\nvolume replica\nfiles 0\nturns 100000\nclient 1\nwrite /f1 0 \"abc\n",
        "plan refused: line 6, code 5 form\n",
    ),
    (
        "afr 1\nvolume replica\nfiles 0\nturns 100000\nhealer 1\nhealer 2\nhealer 3\nhealer 4\n",
        "plan refused: line 8, code 6 range\n",
    ),
    (
        "afr 1\nvolume replica\nfiles 0\nturns 100000\nfault 5 1 fail\n",
        "plan refused: line 5, code 6 range\n",
    ),
    (
        "afr 1\nvolume replica\nfiles 0\nturns 100000\nfault 3 1 fail\n",
        "plan refused: line 5, code 7 order\n",
    ),
    (
        "afr 1\nvolume replica\nfiles 0\nturns 100000\nfault 0 1 fail\nfault 0 1 fail\n",
        "plan refused: line 6, code 7 order\n",
    ),
    (
        "afr 1\nvolume replica\nfiles 0\nturns 100000\nat 5 stop 0\nat 4 start 0\n",
        "plan refused: line 6, code 7 order\n",
    ),
    (
        "afr 1\nvolume replica\nfiles 0\nturns 100000\ngo c1 1\n",
        "plan refused: line 5, code 7 order\n",
    ),
    (
        "afr 1\nvolume replica\nfiles 0\nturns 100000\nend\nend\n",
        "plan refused: line 6, code 9 end\n",
    ),
];

/// A command that a client has too often, how often, and the line that answers.
const TOO_MANY: [(&str, usize, &str); 2] = [
    (
        "read /f1 0 65536\n",
        1025,
        "plan refused: line 1030, code 8 total\n",
    ),
    ("ls /\n", 257, "plan refused: line 262, code 8 total\n"),
];

/// What stands before these commands.
const HEAD: &str = "afr 1\nvolume replica\nfiles 0\nturns 100000\nclient 1\n";

/// The status and the sink after the call. The read and the write of these numbers fail; the first is 1.
fn called<R: Threads + Wait + Alloc<A = Global> + Sync>(
    rt: &R,
    word: &str,
    plan: &str,
    often: (&str, usize),
    fails: (u32, u32),
) -> Result<(u8, MemSink), Fail> {
    let alloc = rt.alloc();
    let words = vec![in alloc; String::from_str(alloc, word)?]?;
    let mut bytes = Vec::new(alloc);
    bytes.extend_from_slice(plan.as_bytes())?;
    for _ in 0..often.1 {
        bytes.extend_from_slice(often.0.as_bytes())?;
    }
    let mut source = MemSource::new(bytes, 7, vec![in alloc; fails.0]?);
    let mut sink = MemSink::new(alloc, 5, vec![in alloc; fails.1]?);
    let status = if word == "live" {
        by_threads(rt, &words, &mut source, &mut sink, &NoGate)
    } else {
        in_order(alloc, &words, &mut source, &mut sink)
    };
    Ok((status, sink))
}

/// Whether the call refuses the plan with this line.
fn refuses<R: Threads + Wait + Alloc<A = Global> + Sync>(
    rt: &R,
    word: &str,
    plan: &str,
    often: (&str, usize),
    answer: &str,
) -> Result<bool, Fail> {
    let (status, sink) = called(rt, word, plan, often, (0, 0))?;
    Ok(status == 3 && sink.taken() == answer.as_bytes())
}

/// Whether a run by threads of a write and a read has this status, and a front of the report so long.
fn stops<R: Threads + Wait + Alloc<A = Global> + Sync>(
    rt: &R,
    fails: (u32, u32),
    status: u8,
    len: usize,
) -> Result<bool, Fail> {
    let (told, sink) = called(rt, "live", PLAN, ("", 0), fails)?;
    Ok(told == status && sink.taken().len() == len && REPORT.as_bytes().starts_with(sink.taken()))
}

#[test]
fn hostile_plans_are_refused_by_both_calls(rt: HostRuntime) -> Result<(), Fail> {
    for word in WORDS {
        for (plan, answer) in REFUSED {
            let holds = refuses(&rt, word, plan, ("", 0), answer)?;
            assert!(rt; holds, "{word} {plan}");
        }
        for (command, times, answer) in TOO_MANY {
            let holds = refuses(&rt, word, HEAD, (command, times), answer)?;
            assert!(rt; holds, "{word} {command}");
        }
    }
    Ok(())
}

// The same of a run in the stated order stands with the tests of that call.
#[test]
fn each_fault_has_its_status_by_threads(rt: HostRuntime) -> Result<(), Fail> {
    let reads = PLAN.len().div_ceil(7) as u32 + 1;
    for read in 1..=reads {
        let holds = stops(&rt, (read, 0), 4, 0)?;
        assert!(rt; holds, "read {read}");
    }
    let writes = REPORT.len().div_ceil(5) as u32;
    for done in 0..writes {
        let holds = stops(&rt, (0, done + 1), 5, done as usize * 5)?;
        assert!(rt; holds, "after {done} writes");
    }
    let holds = stops(&rt, (reads + 1, writes + 1), 0, REPORT.len())?;
    assert!(rt; holds);
    Ok(())
}
