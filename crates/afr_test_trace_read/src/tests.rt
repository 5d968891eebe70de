//! Lines of each kind, as the printer writes them, texts of no line, and whole traces.
use afr_plan::Plan;
use afr_plan_read::read_plan;
use afr_trace_read::{read_line, read_trace};
use std::alloc::Global;
use std::test::Fail;

const PLAN: &str = "\
afr 1
volume replica
files 2
turns 1000
client 1
write /f1 0 \"hello\"
setattr /f1 note draft
create /a
mkdir /d
client 2
read /f1 0 5
healer 1
round 0
end
";

/// A line of each kind that is read.
const LINES: &str = "\
0 c1 b0 look g1 seen
1 c1 b2 name g1/f1 ok
2 c1 b0 lock f1[0,5) granted
3 c1 b1 lock f1[5,end) held c2
4 h1 b0 lock heal f1[0,end) held h2
5 c1 b0 lock f1[meta] granted
6 c1 b0 lock g1/a granted
7 c1 b0 lock g9/* granted
8 c1 b0 unlock g1/d done
9 c1 begin write f1 0 5
10 c1 b0 pre f1 data done
11 c1 b0 apply 9 lost
12 c1 b0 post 9 - done
13 c1 b1 post 9 0,2 done
14 c1 end ok
15 c1 end no-quorum
16 c1 begin cut f1 5
17 c1 begin setattr f1 note draft
18 c1 begin create g1/a g16
19 c1 begin mkdir g1/d g9
20 c1 begin unlink g1/f1
21 c1 begin rmdir g1/d
22 c1 b0 attr f1 note ok
23 c2 b0 read f1[0,5) ok
24 h1 b0 index ok
25 h1 b0 list g1 ok
26 h1 b0 attrs f1 ok
27 h1 begin heal entry g1
28 h1 b0 cut f1 5 done
29 h1 b1 copy f1[0,131072) from 23 done
30 h1 b1 put-attrs f1 from 26 done
31 h1 b1 put-names g1 from 25,25 done
32 h1 b2 settle f1 data 1 0 0 1 done
33 h1 end entry g1 moved 2
34 h1 end data f1 busy c1
35 h1 end ok
36 event stop 2
37 event join h1 2
38 event kill c1
39 c1 b0 look g16 absent
40 c1 b0 look f2 gone
41 c1 end half
42 c1 end ok 68656c6c6f
43 c1 end ok -
44 c1 end ok draft
45 c1 end ok a d f1
46 c1 end ok file 00000000-0000-0001-0000-000000000001 5
47 c1 end ok dir 00000000-0000-0000-0000-000000000009
";

/// Texts that no line has at position 7.
const OTHERS: &str = "\
8 c1 b0 look g1 seen
07 c1 b0 look g1 seen
7  c1 b0 look g1 seen
7 c1 b0 look g1 seen 
7 c17 b0 look g1 seen
7 h0 b0 look g1 seen
7 c1 b256 look g1 seen
7 c1 b0 look f3 seen
7 c1 b0 look g18446744073709551617 seen
7 c1 b0 name g1/nobody ok
7 c1 b0 lock f1[05,end) granted
7 c1 b0 lock f1[0,9223372036854775808) granted
7 c1 b0 read f1[5,0) ok
7 c1 b0 post 5 2,0 done
7 c1 b0 post 5 0,0 done
7 c1 b0 post 5 5 done
7 c1 b0 post 5  done
7 h1 b0 put-names g1 from  done
7 h1 b0 put-names g1 from 1,2,3,4,5,6 done
7 h1 b0 settle f1 data 1 0 0 done
7 h1 b0 settle f1 data 1 0 0 1 0 0 done
7 h1 b0 settle f1 data done
7 c1 begin heal
7 c1 end ok 
7 c1 end ok 6
7 c1 end ok 6A
7 c1 end ok f1 a
7 c1 end ok a a
7 c1 end ok nobody
7 c1 end ok file 00000000-0000-0001-0000-000000000001
7 c1 end ok file 000000000000000100000000000000010000 5
7 c1 end ok dir 00000000-0000-0000-0000-000000000009 0
7 c1 end half -
7 event
";

fn plan_text() -> &'static str {
    PLAN
}

fn lines() -> &'static str {
    LINES
}

fn others() -> &'static str {
    OTHERS
}

fn plan(alloc: Global) -> Result<Plan, Fail> {
    match read_plan(alloc, plan_text().as_bytes()) {
        Ok(plan) => Ok(plan),
        Err(_) => Err("the plan isn't read".into()),
    }
}

/// How many lines of a trace are read, and whether it breaks after them.
fn told_of(alloc: Global, plan: &Plan, text: &str) -> Result<(usize, bool), Fail> {
    match read_trace(alloc, plan, text.as_bytes()) {
        Ok(told) => Ok((told.lines.len(), told.broken)),
        Err(_) => Err("the trace isn't read".into()),
    }
}

fn told(alloc: Global, text: &str) -> Result<(usize, bool), Fail> {
    let plan = plan(alloc)?;
    told_of(alloc, &plan, text)
}

/// Whether each line of the log is read at its position.
fn are_read(plan: &Plan) -> bool {
    let mut position: u32 = 0;
    for line in lines().lines() {
        if read_line(plan, position, line.as_bytes()).is_none() {
            return false;
        }
        position = position.saturating_add(1);
    }
    true
}

#[test]
fn each_kind_of_line_is_read(rt: HostRuntime) -> Result<(), Fail> {
    let plan = plan(rt.alloc())?;
    let read = are_read(&plan);
    assert!(rt; read);
    Ok(())
}

/// Whether one of the others is read.
fn is_any_other_read(plan: &Plan) -> bool {
    for line in others().lines() {
        if read_line(plan, 7, line.as_bytes()).is_some() {
            return true;
        }
    }
    false
}

#[test]
fn other_texts_are_of_no_line(rt: HostRuntime) -> Result<(), Fail> {
    let plan = plan(rt.alloc())?;
    let read = is_any_other_read(&plan);
    assert!(rt; !read);
    Ok(())
}

#[test]
fn a_trace_is_read_up_to_its_first_other_text(rt: HostRuntime) -> Result<(), Fail> {
    let whole = told(rt.alloc(), lines())?;
    assert!(rt; whole == (48, false));
    let unended = told(rt.alloc(), "0 c1 b0 index ok\n1 c1 b0 index")?;
    assert!(rt; unended == (1, true));
    let elsewhere = told(rt.alloc(), "0 c1 b0 index ok\n2 c1 b0 index ok\n")?;
    assert!(rt; elsewhere == (1, true));
    Ok(())
}
