//! What is found of the trace of a run, and of others that differ from it in one line.
use crate::built::is_found;
use afr_trace_check::{Finding, Rule};
use std::alloc::Global;
use std::test::Fail;

const PLAN: &str = "\
afr 1
volume replica
files 1
turns 100000
client 1
write /f1 0 \"hello\"
client 2
read /f1 0 5
read /f1 0 5
at 15 kill c1
at 25 stop 0
go c1 15
end
";

/// The trace of this plan's run up to its seventh line.
const FIRST: &str = "\
0 c1 b0 look g1 seen
1 c1 b1 look g1 seen
2 c1 b2 look g1 seen
3 c1 b0 name g1/f1 ok
4 c1 b0 lock f1[0,5) granted
5 c1 b1 lock f1[0,5) granted
6 c1 b2 lock f1[0,5) granted
";

/// From its ninth line to its twenty-fourth.
const NEXT: &str = "\
8 c1 b1 look f1 seen
9 c1 b2 look f1 seen
10 c1 begin write f1 0 5
11 c1 b0 pre f1 data done
12 c1 b1 pre f1 data done
13 c1 b2 pre f1 data done
14 c1 b0 apply 10 done
15 event kill c1
16 c2 b0 look g1 seen
17 c2 b1 look g1 seen
18 c2 b2 look g1 seen
19 c2 b0 name g1/f1 ok
20 c2 b0 look f1 seen
21 c2 b1 look f1 seen
22 c2 b2 look f1 seen
23 c2 b0 read f1[0,5) ok
";

/// From its twenty-sixth on.
const LAST: &str = "\
25 event stop 0
26 c2 b0 look g1 gone
27 c2 b1 look g1 seen
28 c2 b2 look g1 seen
29 c2 b1 name g1/f1 ok
30 c2 b0 look f1 gone
31 c2 b1 look f1 seen
32 c2 b2 look f1 seen
33 c2 b1 read f1[0,5) ok
34 c2 end ok -
";

/// The trace with these two lines between its parts.
fn trace_with(alloc: Global, eighth: &str, other: &str) -> Result<String, Fail> {
    let mut text = String::new(alloc);
    text.push_str(FIRST)?;
    text.push_str(eighth)?;
    text.push_str(NEXT)?;
    text.push_str(other)?;
    text.push_str(LAST)?;
    Ok(text)
}

/// Whether this is found of it.
fn finds(alloc: Global, eighth: &str, other: &str, want: Finding) -> Result<bool, Fail> {
    let trace = trace_with(alloc, eighth, other)?;
    is_found(alloc, PLAN, trace.as_str(), Ok(want))
}

/// Two lines, and what is found of the trace with them: it is right; an event comes early; a brick that is up loses no
/// request; what a command answers isn't judged; a read begins no write; a text that ends early breaks its form.
const CASES: [(&str, &str, Finding); 6] = [
    (
        "7 c1 b0 look f1 seen\n",
        "24 c2 end ok 68656c6c6f\n",
        Finding::Yes(35),
    ),
    (
        "7 event kill c1\n",
        "24 c2 end ok 68656c6c6f\n",
        Finding::No {
            line: 7,
            rule: Rule::Follows,
        },
    ),
    (
        "7 c1 b0 look f1 gone\n",
        "24 c2 end ok 68656c6c6f\n",
        Finding::No {
            line: 7,
            rule: Rule::Honest,
        },
    ),
    (
        "7 c1 b0 look f1 seen\n",
        "24 c2 end ok -\n",
        Finding::Yes(35),
    ),
    (
        "7 c1 b0 look f1 seen\n",
        "24 c2 begin write f1 0 5\n",
        Finding::No {
            line: 24,
            rule: Rule::Follows,
        },
    ),
    (
        "7 c1 b0 look f1 seen\n",
        "24 c2 end\n",
        Finding::No {
            line: 24,
            rule: Rule::Text,
        },
    ),
];

#[test]
fn a_trace_is_right_or_breaks_a_rule_at_its_line(rt: HostRuntime) -> Result<(), Fail> {
    for (eighth, other, want) in CASES {
        let found = finds(rt.alloc(), eighth, other, want)?;
        assert!(rt; found, "{eighth} {other}");
    }
    Ok(())
}
