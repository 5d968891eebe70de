//! Lines that stand for lines of a log, each after the ones before it, and lines that stand for none.
use afr_lines::Line;
use afr_plan::Plan;
use afr_plan_read::read_plan;
use afr_report_trace::push_line;
use afr_trace_build::{Filled, Shown, fill};
use afr_trace_read::read_line;
use std::alloc::Global;
use std::test::Fail;

const PLAN: &str = "\
afr 1
volume replica
files 2
turns 1000
client 1
write /f1 0 \"hello\"
read /f1 0 5
ls /
stat /f1
client 2
create /a
healer 1
round 0
end
";

/// A log whose lines need nothing that the lines before them show.
const LINES: &str = "\
0 c1 b0 look g1 absent
1 c1 b1 name g1/f1 ok
2 c1 b0 lock f1[0,5) granted
3 c1 b1 lock f1[5,end) held c2
4 c1 begin write f1 0 5
5 c1 b0 pre f1 data done
6 c1 b0 apply 4 lost
7 c1 b1 post 4 0,2 done
8 c1 end ok
9 c2 begin create g1/a g11
10 c2 end no-quorum
11 c1 b0 read f1[0,5) ok
12 c1 end ok 68656c6c6f
13 h1 b0 index ok
14 h1 b0 list g1 ok
15 h1 b2 list g1 ok
16 h1 b1 put-names g1 from 14,15 done
17 h1 b0 copy f1[0,131072) from 11 done
18 h1 b1 settle f1 data 1 0 0 1 gone
19 h1 end entry g1 busy c2
20 event stop 2
21 c1 end ok a f1 f2
22 c1 end ok file 00000000-0000-0001-0000-000000000001 5
23 h1 end ok
";

/// Lines that stand for none after the first fourteen of that log.
const OTHERS: &str = "\
14 c2 end ok
14 c3 end ok
14 h2 b0 index ok
14 c1 b3 look g1 absent
14 c1 b0 lock f1[0,5) held c4
14 h1 end data f1 busy h2
14 h1 end data f1 moved 3
14 event kill c5
14 event stop 3
14 c1 b0 apply 5 done
14 c1 b0 post 5 - done
14 c1 b0 post 4 3 done
14 h1 b1 copy f1[0,5) from 13 done
14 h1 b1 copy f1[1048574,1048579) from 11 done
14 h1 b1 put-attrs f1 from 11 done
14 h1 b1 put-names g1 from 11 done
14 c1 begin write f1 0 5
";

fn plan_text() -> &'static str {
    PLAN
}

fn lines() -> &'static str {
    LINES
}

fn others() -> &'static str {
    OTHERS
}

fn plan(alloc: Global) -> Result<Plan, Fail> {
    match read_plan(alloc, plan_text().as_bytes()) {
        Ok(plan) => Ok(plan),
        Err(_) => Err("the plan isn't read".into()),
    }
}

/// What a text stands for after a log, with nothing shown.
fn filled(
    alloc: Global,
    plan: &Plan,
    log: &[Line],
    position: u32,
    text: &str,
) -> Result<Filled, Fail> {
    let Some((line, contents)) = read_line(plan, position, text.as_bytes()) else {
        return Err("a line isn't read".into());
    };
    match fill(alloc, plan, log, &Shown::Nothing, &line, contents) {
        Ok(filled) => Ok(filled),
        Err(_) => Err("no memory".into()),
    }
}

/// The log of the first lines of a text.
fn built(alloc: Global, plan: &Plan, text: &str, most: u32) -> Result<Vec<Line>, Fail> {
    let mut log: Vec<Line> = Vec::new(alloc);
    let mut position: u32 = 0;
    for line in text.lines() {
        if position < most {
            let Filled::Stands(line) = filled(alloc, plan, log.as_slice(), position, line)? else {
                return Err("a line stands for none".into());
            };
            log.push(line)?;
            position = position.saturating_add(1);
        }
    }
    Ok(log)
}

/// Whether the log is printed as the text.
fn prints(alloc: Global, plan: &Plan, log: &[Line], text: &str) -> Result<bool, Fail> {
    let mut out = String::new(alloc);
    for position in 0..log.len() {
        if push_line(&mut out, plan, position, &log[position]).is_err() {
            return Err("no memory".into());
        }
    }
    Ok(out.as_str() == text)
}

fn comes_again(alloc: Global, plan: &Plan) -> Result<bool, Fail> {
    let log = built(alloc, plan, lines(), 1000)?;
    prints(alloc, plan, log.as_slice(), lines())
}

#[test]
fn lines_that_were_filled_are_printed_as_they_stood(rt: HostRuntime) -> Result<(), Fail> {
    let plan = plan(rt.alloc())?;
    let again = comes_again(rt.alloc(), &plan)?;
    assert!(rt; again);
    Ok(())
}

fn stands(alloc: Global, plan: &Plan, log: &[Line], line: &str) -> Result<bool, Fail> {
    match filled(alloc, plan, log, 14, line)? {
        Filled::Stands(_) => Ok(true),
        _ => Ok(false),
    }
}

/// Whether one of the others stands for a line after the first fourteen.
fn any_other_stands(alloc: Global, plan: &Plan) -> Result<bool, Fail> {
    let log = built(alloc, plan, lines(), 14)?;
    for line in others().lines() {
        if stands(alloc, plan, log.as_slice(), line)? {
            return Ok(true);
        }
    }
    Ok(false)
}

#[test]
fn other_lines_stand_for_none(rt: HostRuntime) -> Result<(), Fail> {
    let plan = plan(rt.alloc())?;
    let stands = any_other_stands(rt.alloc(), &plan)?;
    assert!(rt; !stands);
    Ok(())
}
