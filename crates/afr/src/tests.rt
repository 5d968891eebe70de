//! Tests of the whole call, over a source and a sink that are kept in memory.
ghost use Rattle.std.specs.Prelude.{◌<◌, length};
ghost use Rattle.afr_rule.specs.Choosing.{IsRule};

use afr_cli::afr_top;
use afr_rule::{Candidate, ReadRule, Rules, SourceRule, shipped};
use afr_text::{MemSink, MemSource};
use afr_volume::Volume;
use std::alloc::Global;
use std::test::Fail;

const USAGE: &str =
    "usage: afr run | trace | info | gen N | live | crawl | record | replay T | check\n";

/// A write and a read of five bytes.
pub(crate) const PLAN: &str =
    "afr 1\nvolume replica\nfiles 1\nturns 100000\nclient 1\nwrite /f1 0 \"hello\"\nread /f1 0 5\nend\n";

/// Its report.
pub(crate) const REPORT: &str =
    "afr replica 3\nlines 33\nc1 2 of 2\n1 write ok\n2 read ok 68656c6c6f\nreach 0 1 2\nobjects 0\nsplit-brain 0\n";

/// Its trace.
const TRACE: &str =
    "0 c1 b0 look g1 seen\n1 c1 b1 look g1 seen\n2 c1 b2 look g1 seen\n3 c1 b0 name g1/f1 ok\n4 c1 b0 lock f1[0,5) granted\n5 c1 b1 lock f1[0,5) granted\n6 c1 b2 lock f1[0,5) granted\n7 c1 b0 look f1 seen\n8 c1 b1 look f1 seen\n9 c1 b2 look f1 seen\n10 c1 begin write f1 0 5\n11 c1 b0 pre f1 data done\n12 c1 b1 pre f1 data done\n13 c1 b2 pre f1 data done\n14 c1 b0 apply 10 done\n15 c1 b1 apply 10 done\n16 c1 b2 apply 10 done\n17 c1 b0 post 10 - done\n18 c1 b1 post 10 - done\n19 c1 b2 post 10 - done\n20 c1 b0 unlock f1[0,5) done\n21 c1 b1 unlock f1[0,5) done\n22 c1 b2 unlock f1[0,5) done\n23 c1 end ok\n24 c1 b0 look g1 seen\n25 c1 b1 look g1 seen\n26 c1 b2 look g1 seen\n27 c1 b0 name g1/f1 ok\n28 c1 b0 look f1 seen\n29 c1 b1 look f1 seen\n30 c1 b2 look f1 seen\n31 c1 b0 read f1[0,5) ok\n32 c1 end ok 68656c6c6f\n";

/// The report from its `reach` line on.
const INFO: &str = "reach 0 1 2\nobjects 0\nsplit-brain 0\n";

/// The same plan with a log of ten lines.
pub(crate) const SHORT: &str =
    "afr 1\nvolume replica\nfiles 1\nturns 10\nclient 1\nwrite /f1 0 \"hello\"\nread /f1 0 5\nend\n";

/// The summary of the load of number 1.
const SUMMARY: &str = "gen 1\nlines 79\nok 4\nrefused 0\nsettled 0\nobjects 3\nsplit-brain 0\n";

/// Words, plan, status and text. The plans that stand in plans/ are compared from there, by plans/check.
const CASES: [(&[&str], &str, u8, &str); 41] = [
    (&[], PLAN, 2, USAGE),
    (&["help"], "", 2, USAGE),
    (&["run", "x"], PLAN, 2, USAGE),
    (&["run", "-x"], PLAN, 2, USAGE),
    (&["--help"], "", 2, USAGE),
    (&["trace", "info"], PLAN, 2, USAGE),
    (&["gen", "0"], "", 2, USAGE),
    (&["gen", "2001"], "", 2, USAGE),
    (&["gen", "1"], PLAN, 0, SUMMARY),
    (&["live"], PLAN, 2, USAGE),
    (&["record"], PLAN, 2, USAGE),
    (&["replay"], PLAN, 2, USAGE),
    (&["replay", "0"], "", 2, USAGE),
    (&["replay", "4000001"], "", 2, USAGE),
    (&["replay", "07"], "", 2, USAGE),
    (
        &["replay", "7"],
        PLAN,
        9,
        "image refused: at 0, code 11 magic\n",
    ),
    (&["check", "x"], PLAN, 2, USAGE),
    (&["check"], PLAN, 0, "check yes: 0 lines\n"),
    (
        &["check"],
        "afr 1\nvolume replica\nfiles 0\nturns 100000\nend\nend\n",
        11,
        "check no: line 0, text\n",
    ),
    (
        &["check"],
        "afr 1\nvolume replica\nfiles 0\nturns 100000\n",
        3,
        "plan refused: line 5, code 9 end\n",
    ),
    (&["trace"], PLAN, 0, TRACE),
    (&["info"], PLAN, 0, INFO),
    (
        &["trace"],
        SHORT,
        7,
        "0 c1 b0 look g1 seen\n1 c1 b1 look g1 seen\n2 c1 b2 look g1 seen\n3 c1 b0 name g1/f1 ok\n4 c1 b0 lock f1[0,5) granted\n5 c1 b1 lock f1[0,5) granted\n6 c1 b2 lock f1[0,5) granted\n7 c1 b0 look f1 seen\n8 c1 b1 look f1 seen\n9 c1 b2 look f1 seen\n",
    ),
    (&["info"], SHORT, 7, INFO),
    (
        &["info"],
        "afr 1\nvolume replica\nfiles 1\nturns 100000\nclient 1\nwrite /f1 0 \"hello\"\nat 0 stop 2\nend\n",
        0,
        "reach 0 1\nobjects 1\nobject 00000000-0000-0001-0000-000000000001\ndata good 0 1\nb0 trusted.afr.vol-client-2=0x000000010000000000000000\nb1 trusted.afr.vol-client-2=0x000000010000000000000000\nsplit-brain 0\n",
    ),
    (
        &["trace"],
        "afr 1\nvolume replica\nfiles 0\nturns 100000\n",
        3,
        "plan refused: line 5, code 9 end\n",
    ),
    (
        &["run"],
        "afr 1\nvolume replica\nfiles 0\nturns 100000\n",
        3,
        "plan refused: line 5, code 9 end\n",
    ),
    (
        &["run"],
        "afr 1\nvolume arbiter\nfiles 0\nturns 100000\nend\n",
        0,
        "afr arbiter 3\nlines 0\nreach 0 1 2\nobjects 0\nsplit-brain 0\n",
    ),
    (&["run"], PLAN, 0, REPORT),
    (
        &["run"],
        "afr 1\nvolume replica\nfiles 10\nturns 1000\nclient 1\nls /\nls /f1\nls /none\nend\n",
        0,
        "afr replica 3\nlines 15\nc1 3 of 3\n1 ls ok f1 f10 f2 f3 f4 f5 f6 f7 f8 f9\n2 ls not-dir\n3 ls no-entry\nreach 0 1 2\nobjects 0\nsplit-brain 0\n",
    ),
    (
        &["run"],
        "afr 1\nvolume replica\nfiles 1\nturns 100000\nclient 1\nwrite /f1 0 \"hello\"\nhealer 1\nround 0\nend\n",
        0,
        "afr replica 3\nlines 26\nc1 1 of 1\n1 write ok\nh1 1 of 1\n1 round ok\nreach 0 1 2\nobjects 0\nsplit-brain 0\n",
    ),
    (
        &["run"],
        "afr 1\nvolume replica\nfiles 1\nturns 100000\nclient 1\nwrite /f1 0 \"hello\"\nhealer 1\nround 0\nfault 2 5 lost\ngo c1 22\nend\n",
        0,
        "afr replica 3\nlines 88\nc1 1 of 1\n1 write ok\nh1 1 of 1\n1 round ok\ndata 00000000-0000-0001-0000-000000000001 settled\nreach 0 1 2\nobjects 0\nsplit-brain 0\n",
    ),
    (
        &["run"],
        "afr 1\nvolume replica\nfiles 1\nturns 100000\nclient 1\nwrite /f1 0 \"1\"\nwrite /f1 0 \"2\"\nwrite /f1 0 \"3\"\nread /f1 0 1\nhealer 1\nround 0\nfault 1 8 fail\nfault 2 6 fail\nat 0 stop 1\nat 20 start 1\nat 20 stop 2\nat 41 start 2\nat 41 stop 0\nat 62 start 0\ngo c1 65\nend\n",
        0,
        "afr replica 3\nlines 107\nc1 4 of 4\n1 write failed\n2 write failed\n3 write ok\n4 read split-brain\nh1 1 of 1\n1 round ok\ndata 00000000-0000-0001-0000-000000000001 split\nreach 0 1 2\nobjects 1\nobject 00000000-0000-0001-0000-000000000001\ndata split\nb0 trusted.afr.vol-client-1=0x000000010000000000000000\nb0 trusted.afr.vol-client-2=0x000000010000000000000000\nb1 trusted.afr.dirty=0x000000010000000000000000\nb1 trusted.afr.vol-client-0=0x000000010000000000000000\nb2 trusted.afr.dirty=0x000000010000000000000000\nb2 trusted.afr.vol-client-0=0x000000010000000000000000\nsplit-brain 1\n",
    ),
    (
        &["run"],
        "afr 1\nvolume replica\nfiles 1\nturns 100000\nclient 1\nsetattr /f1 owner alice\nhealer 1\nround 0\nat 0 stop 1\nat 20 start 1\ngo c1 19\nend\n",
        0,
        "afr replica 3\nlines 65\nc1 1 of 1\n1 setattr ok\nh1 1 of 1\n1 round ok\nmetadata 00000000-0000-0001-0000-000000000001 settled\nreach 0 1 2\nobjects 0\nsplit-brain 0\n",
    ),
    (
        &["run"],
        "afr 1\nvolume replica\nfiles 1\nturns 100000\nclient 1\nunlink /f1\nclient 2\nstat /f1\nhealer 1\nround 0\nat 0 stop 2\nat 17 start 2\ngo c1 16\ngo h1 47\nend\n",
        0,
        "afr replica 3\nlines 70\nc1 1 of 1\n1 unlink ok\nc2 1 of 1\n1 stat no-entry\nh1 1 of 1\n1 round ok\nentry 00000000-0000-0000-0000-000000000001 settled\nreach 0 1 2\nobjects 0\nsplit-brain 0\n",
    ),
    (
        &["run"],
        "afr 1\nvolume replica\nfiles 0\nturns 100000\nclient 1\ncreate /a\nclient 2\ncreate /a\nclient 3\nstat /a\nhealer 1\nround 0\nat 12 kill c1\nat 12 cut c2 0\nat 24 kill c2\ngo c1 12\ngo c2 10\ngo h1 48\nend\n",
        0,
        "afr replica 3\nlines 81\nc1 0 of 1 dead\nc2 0 of 1 dead\nc3 1 of 1\n1 stat ok file 00000000-0000-0000-0000-000000000016 0\nh1 1 of 1\n1 round ok\nentry 00000000-0000-0000-0000-000000000001 settled\nreach 0 1 2\nobjects 0\nsplit-brain 0\n",
    ),
    (
        &["run"],
        SHORT,
        7,
        "afr replica 3\nlines 10\nc1 0 of 2 unfinished\nreach 0 1 2\nobjects 0\nsplit-brain 0\n",
    ),
    // With as many turns as its bound a run ends; with as many as it needs, too; with one fewer it doesn't.
    (
        &["run"],
        "afr 1\nvolume replica\nfiles 1\nturns 88\nclient 1\nwrite /f1 0 \"hello\"\nread /f1 0 5\nend\n",
        0,
        REPORT,
    ),
    (
        &["run"],
        "afr 1\nvolume replica\nfiles 1\nturns 33\nclient 1\nwrite /f1 0 \"hello\"\nread /f1 0 5\nend\n",
        0,
        REPORT,
    ),
    (
        &["run"],
        "afr 1\nvolume replica\nfiles 1\nturns 32\nclient 1\nwrite /f1 0 \"hello\"\nread /f1 0 5\nend\n",
        7,
        "afr replica 3\nlines 32\nc1 1 of 2 unfinished\n1 write ok\nreach 0 1 2\nobjects 0\nsplit-brain 0\n",
    ),
    (
        &["run"],
        "afr 1\nvolume replica\nfiles 1\nturns 1127\nclient 1\nwrite /f1 0 \"1\"\nwrite /f1 0 \"2\"\nwrite /f1 0 \"3\"\nread /f1 0 1\nhealer 1\nround 0\nfault 1 8 fail\nfault 2 6 fail\nat 0 stop 1\nat 20 start 1\nat 20 stop 2\nat 41 start 2\nat 41 stop 0\nat 62 start 0\ngo c1 65\nend\n",
        0,
        "afr replica 3\nlines 107\nc1 4 of 4\n1 write failed\n2 write failed\n3 write ok\n4 read split-brain\nh1 1 of 1\n1 round ok\ndata 00000000-0000-0001-0000-000000000001 split\nreach 0 1 2\nobjects 1\nobject 00000000-0000-0001-0000-000000000001\ndata split\nb0 trusted.afr.vol-client-1=0x000000010000000000000000\nb0 trusted.afr.vol-client-2=0x000000010000000000000000\nb1 trusted.afr.dirty=0x000000010000000000000000\nb1 trusted.afr.vol-client-0=0x000000010000000000000000\nb2 trusted.afr.dirty=0x000000010000000000000000\nb2 trusted.afr.vol-client-0=0x000000010000000000000000\nsplit-brain 1\n",
    ),
];

/// The status, and the sink after the call by these rules. The read and the write of these numbers fail; the first is 1.
fn called_by<F: Fn(&[Candidate]) -> usize, G: Fn(&[Candidate]) -> usize>(
    alloc: Global,
    words: &[&str],
    plan: &str,
    numbers: (u32, u32),
    rules: &Rules<F, G>,
) -> Result<(u8, MemSink), Fail>
    requires heal { IsRule F.Fn rules.now.heal }
    requires read { IsRule G.Fn rules.now.read }
{
    let mut given = Vec::new(alloc);
    for word in words {
        given.push(String::from_str(alloc, word)?)?;
    }
    let mut bytes = Vec::new(alloc);
    bytes.extend_from_slice(plan.as_bytes())?;
    let mut source = MemSource::new(bytes, 7, vec![in alloc; numbers.0]?);
    let mut sink = MemSink::new(alloc, 5, vec![in alloc; numbers.1]?);
    let status = called_with(alloc, given.as_slice(), &mut source, &mut sink, rules);
    Ok((status, sink))
}

/// The status of a call over a new volume.
fn called_with<F: Fn(&[Candidate]) -> usize, G: Fn(&[Candidate]) -> usize>(
    alloc: Global,
    words: &[String],
    source: &mut MemSource,
    sink: &mut MemSink,
    rules: &Rules<F, G>,
) -> u8
    requires heal { IsRule F.Fn rules.now.heal }
    requires read { IsRule G.Fn rules.now.read }
{
    let mut volume = Volume::empty(alloc);
    afr_top(alloc, words, source, sink, &mut volume, rules)
}

/// The same by the rules that the program has.
pub(crate) fn in_order(
    alloc: Global,
    words: &[String],
    source: &mut MemSource,
    sink: &mut MemSink,
) -> u8 {
    let rules = Rules {
        heal: SourceRule::new(shipped::longest),
        read: ReadRule::new(shipped::first),
    };
    called_with(alloc, words, source, sink, &rules)
}

/// The status, and the sink after the call, by the rules that the program has.
fn called(
    alloc: Global,
    words: &[&str],
    plan: &str,
    numbers: (u32, u32),
) -> Result<(u8, MemSink), Fail> {
    let rules = Rules {
        heal: SourceRule::new(shipped::longest),
        read: ReadRule::new(shipped::first),
    };
    called_by(alloc, words, plan, numbers, &rules)
}

/// Whether the call has this status and text.
fn ends(
    alloc: Global,
    words: &[&str],
    plan: &str,
    numbers: (u32, u32),
    want: (u8, &str),
) -> Result<bool, Fail> {
    let (status, sink) = called(alloc, words, plan, numbers)?;
    Ok(status == want.0 && sink.taken() == want.1.as_bytes())
}

/// Whether a run of the plan whose read or write fails has this status, and a front of the report so long.
fn stops(alloc: Global, read: u32, write: u32, want: u8, len: usize) -> Result<bool, Fail> {
    let (status, sink) = called(alloc, &["run"], PLAN, (read, write))?;
    Ok(status == want && sink.taken().len() == len && REPORT.as_bytes().starts_with(sink.taken()))
}

#[test]
fn words_and_plans_have_their_texts(rt: HostRuntime) -> Result<(), Fail> {
    for (words, plan, want, text) in CASES {
        let holds = ends(rt.alloc(), words, plan, (0, 0), (want, text))?;
        assert!(rt; holds, "{plan}");
    }
    Ok(())
}

#[test]
fn each_fault_has_its_status(rt: HostRuntime) -> Result<(), Fail> {
    let reads = PLAN.len().div_ceil(7) as u32 + 1;
    for read in 1..=reads {
        let holds = stops(rt.alloc(), read, 0, 4, 0)?;
        assert!(rt; holds, "read {read}");
    }
    let writes = REPORT.len().div_ceil(5) as u32;
    for done in 0..writes {
        let holds = stops(rt.alloc(), 0, done + 1, 5, done as usize * 5)?;
        assert!(rt; holds, "after {done} writes");
    }
    let holds = ends(
        rt.alloc(),
        &["run"],
        PLAN,
        (reads + 1, writes + 1),
        (0, REPORT),
    )?;
    assert!(rt; holds);
    Ok(())
}

#[test]
fn a_generated_load_reads_nothing(rt: HostRuntime) -> Result<(), Fail> {
    let holds = ends(rt.alloc(), &["gen", "1"], PLAN, (1, 0), (0, SUMMARY))?;
    assert!(rt; holds);
    Ok(())
}

/// A write that only brick 0 carries out, and a round. With the longest copy as its source the heal
/// copies a piece; the last copy has nothing to copy.
const UNEVEN: &str =
    "afr 1\nvolume replica\nfiles 1\nturns 100000\nclient 1\nwrite /f1 0 \"hello\"\nhealer 1\nround 0\nfault 1 5 fail\nfault 2 5 fail\ngo c1 21\nend\n";

/// A write whose client dies once brick 0 has carried it out, and two reads of another client. The
/// lowest copy, on brick 0, has the bytes; the last one is empty. Brick 0 stops before the second
/// read, so that the lowest good copy is then an empty one too.
const TORN: &str =
    "afr 1\nvolume replica\nfiles 1\nturns 100000\nclient 1\nwrite /f1 0 \"hello\"\nclient 2\nread /f1 0 5\nread /f1 0 5\nat 15 kill c1\nat 25 stop 0\ngo c1 15\nend\n";

/// The last candidate, whatever its length.
fn last(from: &[Candidate]) -> usize
    requires { 0 < length from.now }
    ensures { result < length from.now }
{
    from.len() - 1
}

/// Whether a run by these two rules writes this text, where all its work was done.
fn writes_by<F: Fn(&[Candidate]) -> usize + Drop, G: Fn(&[Candidate]) -> usize + Drop>(
    alloc: Global,
    plan: &str,
    heal: F,
    read: G,
    text: &str,
) -> Result<bool, Fail>
    requires heal { IsRule F.Fn heal }
    requires read { IsRule G.Fn read }
{
    let rules = Rules {
        heal: SourceRule::new(heal),
        read: ReadRule::new(read),
    };
    let (status, sink) = called_by(alloc, &["run"], plan, (0, 0), &rules)?;
    if status != 0 {
        return Err(Fail::from("status"));
    }
    Ok(sink.taken() == text.as_bytes())
}

/// What is written of the uneven write, where the heal takes the last copy.
const UNEVEN_REPORT: &str =
    "afr replica 3\nlines 74\nc1 1 of 1\n1 write failed\nh1 1 of 1\n1 round ok\ndata 00000000-0000-0001-0000-000000000001 settled\nreach 0 1 2\nobjects 0\nsplit-brain 0\n";

/// What is written of the torn write, where the reads take the last copy.
const TORN_REPORT: &str =
    "afr replica 3\nlines 35\nc1 0 of 1 dead\nc2 2 of 2\n1 read ok -\n2 read ok -\nreach 1 2\nobjects 1\nobject 00000000-0000-0001-0000-000000000001\ndata good 1 2\nb1 trusted.afr.dirty=0x000000010000000000000000\nb2 trusted.afr.dirty=0x000000010000000000000000\nsplit-brain 0\n";

#[test]
fn a_heal_takes_the_source_that_the_rule_answers(rt: HostRuntime) -> Result<(), Fail> {
    let by_last = writes_by(rt.alloc(), UNEVEN, last, shipped::first, UNEVEN_REPORT)?;
    assert!(rt; by_last);
    let by_longest = writes_by(
        rt.alloc(),
        UNEVEN,
        shipped::longest,
        shipped::first,
        UNEVEN_REPORT,
    )?;
    assert!(rt; !by_longest);
    Ok(())
}

#[test]
fn a_read_asks_the_copy_that_the_rule_answers(rt: HostRuntime) -> Result<(), Fail> {
    let by_last = writes_by(rt.alloc(), TORN, shipped::longest, last, TORN_REPORT)?;
    assert!(rt; by_last);
    let by_first = writes_by(
        rt.alloc(),
        TORN,
        shipped::longest,
        shipped::first,
        TORN_REPORT,
    )?;
    assert!(rt; !by_first);
    Ok(())
}
