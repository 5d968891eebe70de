//! The text of each kind of line.

use crate::trace_tests::lines::{answers, changes, events, gifts, heals, refusals};
use crate::trace_tests::requests::{five_bricks, locks_and_looks, other_reads, phases, repairs};
use crate::trace_tests::traced::reads;
use std::test::Fail;

const LOCKS_AND_LOOKS: &str = "\
0 c1 b2 lock f1[0,5) done
1 c1 b2 unlock f1[5,end) done
2 c1 b2 lock f1[meta] done
3 c1 b2 lock heal g1[0,end) done
4 c1 b2 lock g1/note done
5 c1 b2 unlock heal g9/* done
6 c1 b2 look f1 done
7 c1 b2 look g1 done
8 c1 b2 look g18446744073709551618 done
9 c1 b2 look g18446744073709551616 done
10 c1 b2 look g9 done
";

const OTHER_READS: &str = "\
0 c1 b2 read f1[3,65539) done
1 c1 b2 name g1/f1 done
2 c1 b2 list g1 done
3 c1 b2 attr f1 owner done
4 c1 b2 attrs g9 done
5 c1 b2 index done
";

const PHASES: &str = "\
0 c1 b2 pre f1 data done
1 c1 b2 pre f1 metadata done
2 c1 b2 pre g1 entry done
3 c1 b2 apply 10 done
4 c1 b2 post 10 - done
5 c1 b2 post 10 0 done
6 c1 b2 post 10 0,2 done
";

const REPAIRS: &str = "\
0 c1 b2 cut f1 5 done
1 c1 b2 copy f1[131072,262144) from 64 done
2 c1 b2 put-attrs f1 from 33 done
3 c1 b2 put-names g1 from 46,47 done
4 c1 b2 put-names g1 from 7 done
5 c1 b2 put-names g1 from  done
6 c1 b2 settle f1 data 1 2 3 4 done
";

const FIVE_BRICKS: &str = "\
0 h1 b4 settle f1 data 1 2 3 4 5 6 done
1 h1 b4 post 10 1,3,4 done
";

const ANSWERS: &str = "\
0 h3 b0 index granted
1 h3 b0 index held h1
2 h3 b0 index held c16
3 h3 b0 index seen
4 h3 b0 index done
5 h3 b0 index ok
6 h3 b0 index absent
7 h3 b0 index gone
8 h3 b0 index lost
9 h3 b0 index failed
";

const CHANGES: &str = "\
0 c16 begin write f1 1024 5
1 c16 begin cut f1 5
2 c16 begin setattr f1 owner alice
3 c16 begin create g1/note g9
4 c16 begin mkdir g1/note f1
5 c16 begin unlink g9/f1
6 c16 begin rmdir g1/note
";

const GIFTS: &str = "\
0 c1 end ok
1 c1 end ok 68656c6c6f
2 c1 end ok -
3 c1 end ok f1 note
4 c1 end ok -
5 c1 end ok alice
6 c1 end ok -
7 c1 end ok file 00000000-0000-0001-0000-000000000001 70
8 c1 end ok dir 00000000-0000-0000-0000-000000000009
";

const REFUSALS: &str = "\
0 c1 end no-entry
1 c1 end exists
2 c1 end not-dir
3 c1 end is-dir
4 c1 end not-empty
5 c1 end no-quorum
6 c1 end few-copies
7 c1 end split-brain
8 c1 end failed
9 c1 end too-large
10 c1 end half
";

const HEALS: &str = "\
0 h1 begin heal data f1
1 h2 begin heal metadata g1
2 h3 begin heal entry g9
3 h1 end entry g1 nothing
4 h1 end entry g1 settled
5 h1 end entry g1 split
6 h1 end entry g1 busy h2
7 h1 end entry g1 short
8 h1 end entry g1 moved 1
9 h1 end entry g1 failed
";

const EVENTS: &str = "\
0 event stop 1
1 event start 0
2 event cut c1 2
3 event join h1 2
4 event kill c16
";

#[test]
fn each_request_has_its_text(rt: HostRuntime) -> Result<(), Fail> {
    let alloc = rt.alloc();
    for (log, text) in [
        (locks_and_looks(alloc), LOCKS_AND_LOOKS),
        (other_reads(alloc), OTHER_READS),
        (phases(alloc), PHASES),
        (repairs(alloc), REPAIRS),
    ] {
        let holds = reads(alloc, 3, log, text);
        assert!(rt; holds, "{text}");
    }
    let holds = reads(alloc, 5, five_bricks(alloc), FIVE_BRICKS);
    assert!(rt; holds);
    Ok(())
}

#[test]
fn each_other_line_has_its_text(rt: HostRuntime) -> Result<(), Fail> {
    let alloc = rt.alloc();
    for (log, text) in [
        (answers(alloc), ANSWERS),
        (changes(alloc), CHANGES),
        (gifts(alloc), GIFTS),
        (refusals(alloc), REFUSALS),
        (heals(alloc), HEALS),
        (events(alloc), EVENTS),
    ] {
        let holds = reads(alloc, 3, log, text);
        assert!(rt; holds, "{text}");
    }
    Ok(())
}
