//! Tests of a crawl.
use crate::live_tests::{Meeting, live_run};
use crate::tests::PLAN;
use afr_base::ActorId;
use afr_live::NoGate;
use std::test::Fail;

/// The turn at which two workers meet.
const MEETING: u64 = 10;

/// A brick is away while two files are written; then the crawler finds both, and the workers heal them.
const TWO_FILES: &str =
    "afr 1\nvolume replica\nfiles 2\nturns 100000\nclient 1\nwrite /f1 0 \"a\"\nwrite /f2 0 \"b\"\nhealer 1\nround 0\nhealer 2\nhealer 3\nat 0 stop 2\nat 39 start 2\ngo c1 38\nend\n";

const TWO_FILES_REPORT: &str =
    "afr replica 3\nlines 172\nc1 2 of 2\n1 write ok\n2 write ok\nh1 1 of 1\n1 round ok\nworkers 2 of 2\ndata 00000000-0000-0001-0000-000000000001 settled\ndata 00000000-0000-0001-0000-000000000002 settled\nreach 0 1 2\nobjects 0\nsplit-brain 0\n";

/// The same with a log that is full in the middle of a task.
const CUT_SHORT: &str =
    "afr 1\nvolume replica\nfiles 2\nturns 60\nclient 1\nwrite /f1 0 \"a\"\nwrite /f2 0 \"b\"\nhealer 1\nround 0\nhealer 2\nhealer 3\nat 0 stop 2\nat 39 start 2\ngo c1 38\nend\n";

/// A round of the second healer, where only the first may have some.
const ROUND_OF_A_WORKER: &str =
    "afr 1\nvolume replica\nfiles 1\nturns 100000\nhealer 1\nround 0\nhealer 2\nround 1\nhealer 3\nend\n";

const REFUSED: &str = "crawl refused: healers\n";

#[test]
fn what_is_crawled_is_healed(rt: HostRuntime) -> Result<(), Fail> {
    let (status, sink) = live_run(&rt, "crawl", TWO_FILES, &NoGate)?;
    assert_eq!(rt; status, 0);
    assert_eq!(rt; sink.taken(), TWO_FILES_REPORT.as_bytes());
    Ok(())
}

#[test]
fn two_workers_heal_in_two_threads(rt: HostRuntime) -> Result<(), Fail> {
    let gate = Meeting::new(&rt, ActorId(18), ActorId(19), MEETING);
    let (status, sink) = live_run(&rt, "crawl", TWO_FILES, &gate)?;
    assert_eq!(rt; status, 0);
    assert_eq!(rt; sink.taken(), TWO_FILES_REPORT.as_bytes());
    assert!(rt; gate.have_met());
    Ok(())
}

#[test]
fn a_crawl_that_is_cut_short_is_unfinished(rt: HostRuntime) -> Result<(), Fail> {
    let (status, sink) = live_run(&rt, "crawl", CUT_SHORT, &NoGate)?;
    assert_eq!(rt; status, 7);
    assert!(rt;
        sink.taken().starts_with(
            b"afr replica 3\nlines 60\nc1 2 of 2\n1 write ok\n2 write ok\nh1 1 of 1\n1 round ok\nworkers 0 of 2\nreach"
        )
    );
    Ok(())
}

#[test]
fn a_plan_without_three_healers_is_not_crawled(rt: HostRuntime) -> Result<(), Fail> {
    let (status, sink) = live_run(&rt, "crawl", PLAN, &NoGate)?;
    assert_eq!(rt; status, 8);
    assert_eq!(rt; sink.taken(), REFUSED.as_bytes());
    Ok(())
}

#[test]
fn a_plan_with_a_round_of_a_worker_is_not_crawled(rt: HostRuntime) -> Result<(), Fail> {
    let (status, sink) = live_run(&rt, "crawl", ROUND_OF_A_WORKER, &NoGate)?;
    assert_eq!(rt; status, 8);
    assert_eq!(rt; sink.taken(), REFUSED.as_bytes());
    Ok(())
}
