//! The first line of a text that breaks a rule, the lowest rule that it breaks, and each limit.
use afr_plan::PlanStop;
use afr_plan_read::read_plan;
use std::alloc::Global;
use std::test::Fail;

/// Texts and how they are read, a row each: what comes first, a line that follows it so many times,
/// what comes last, and the line and the code of the first fault. `^` is a head with `files 0` and
/// `turns 100000`, `%` the same of five bricks, `;` a line feed and `~` a carriage return.
const FAULTS: &str = "\
||0||1 9
afr 1~;volume replica;files 0;turns 100000;end;||0||1 1
afr 3;volume replica;files 0;turns 100000;end;||0||1 3
afr 1;volume replica;files 01;turns 100000;end;||0||3 5
afr 1;volume replica;files 99999999999999999999;turns 100000;end;||0||3 6
afr 1;volume replica;files 0;turns 4000001;end;||0||4 6
^round 0;end;||0||5 4
^client 2;end;||0||5 7
^client 1;read f1 0 5;end;||0||6 5
^client 1;read /f1  0 5;end;||0||6 5
^client 1;read /f1 0 65537;end;||0||6 6
^client 1;write /f1 0 hex:abc;end;||0||6 5
^client 1;write /f1 0 \"abc;end;||0||6 5
^client 1;|read /f1 0 65536;|1025|end;|1030 8
^client 1;|ls /;|257|end;|262 8
^healer 1;healer 2;healer 3;healer 4;end;||0||8 6
^fault 5 1 fail;end;||0||5 6
^fault 3 1 fail;end;||0||5 7
^fault 0 1 fail;fault 0 1 fail;end;||0||6 7
^at 5 stop 0;at 4 start 0;end;||0||6 7
^go c1 1;end;||0||5 7
^end;end;||0||6 9
^||0||5 9
^foo;end;||0||5 4
^|client $;|17|end;|21 6
^en||0||5 2
 afr 1;||0||1 3
afr  1;||0||1 3
afr 1 ;||0||1 5
afr 1;volume;||0||2 5
afr 1;volume mirror;||0||2 5
afr 1;end;||0||2 3
^;||0||5 4
^client 0;||0||5 7
^client 1;create /;||0||6 5
^client 1;read //x 99999999 1;||0||6 5
^client 1;write /x/ 0 \"\";||0||6 5
^client 1;write /x 0 hex:AB;||0||6 5
^client 1;write /x 0 fill:1:0;||0||6 5
^client 1;write /x 0 fill:01:00;||0||6 5
^client 1;ls /.. ;||0||6 5
^client 1;rename / /a;||0||6 5
^client 1;rename /a /;||0||6 5
^client 1;rename /a;||0||6 5
^fault 0 2 fail;fault 1 1 lost;fault 0 2 lost;||0||7 7
^at 0 kill c17;||0||5 6
^at 0 kill h0;||0||5 7
^at 0 cut h4 3;||0||5 6
^client 1;go c1 0;||0||6 6
^round 1;||0||5 4
^end;x||0||6 2
^end;;||0||6 9
^end;x~y;||0||6 1
afr 2 ;||0||1 5
afr 2x;||0||1 3
afr 02;||0||1 3
afr 1;volume replica 5;||0||2 5
afr 1;volume replica 3;||0||2 5
afr 1;volume arbiter 3;||0||2 5
afr 2;volume replica;||0||2 5
afr 2;volume arbiter;||0||2 5
afr 2;volume replica 4;||0||2 5
afr 2;volume replica 03;||0||2 5
afr 2;volume replica 5 ;||0||2 5
afr 2;volume replica  5;||0||2 5
afr 2;volume arbiter 5;||0||2 5
afr 2;volume;||0||2 5
afr 2;afr 2;||0||2 3
afr 2;volume replica 3;files 0;turns 1;fault 3 1 fail;||0||5 7
";

/// The same at each limit: the value itself is taken, and one more has its code. `$` is the number of
/// a line among those that are alike, `@` 255 letters and `#` 65,536.
const LIMITS: &str = "\
afr 1;volume replica;|files 1000;|1|turns 1;end;|taken
afr 1;volume replica;||0|files 1001;|3 6
afr 1;volume replica;files 0;|turns 1;|1|end;|taken
afr 1;volume replica;files 0;||0|turns 0;|4 6
afr 1;volume replica;files 0;|turns 4000000;|1|end;|taken
afr 1;volume replica;files 0;||0|turns 4000001;|4 6
^|client $;|16|end;|taken
^|client $;|16|client 17;|21 6
^|healer $;|3|end;|taken
^|healer $;|3|healer 4;|8 6
^client 1;|stat /a/a/a/a/a/a/a/a/a/a/a/a/a/a/a/a;|1|end;|taken
^client 1;||0|stat /a/a/a/a/a/a/a/a/a/a/a/a/a/a/a/a/a;|6 6
^client 1;|stat /@;|1|end;|taken
^client 1;||0|stat /@a;|6 6
^client 1;|stat /b/@;|1|end;|taken
^client 1;||0|stat /b/@a;|6 6
^client 1;|getattr / @;|1|end;|taken
^client 1;||0|getattr / @a;|6 6
^client 1;|setattr / @ b;|1|end;|taken
^client 1;||0|setattr / @a b;|6 6
^client 1;|setattr / b @;|1|end;|taken
^client 1;||0|setattr / b @a;|6 6
^client 1;|rename /a /a/a/a/a/a/a/a/a/a/a/a/a/a/a/a/a;|1|end;|taken
^client 1;||0|rename /a /a/a/a/a/a/a/a/a/a/a/a/a/a/a/a/a/a;|6 6
^client 1;|rename /b /@;|1|end;|taken
^client 1;||0|rename /b /@a;|6 6
^client 1;|write / 1048576 \"\";|1|end;|taken
^client 1;||0|write / 1048577 \"\";|6 6
^client 1;|write / 0 \"#\";|1|end;|taken
^client 1;||0|write / 0 \"#a\";|6 6
^client 1;|write / 0 hex:##;|1|end;|taken
^client 1;||0|write / 0 hex:##aa;|6 6
^client 1;|write / 0 fill:65536:00;|1|end;|taken
^client 1;||0|write / 0 fill:65537:00;|6 6
^client 1;|cut / 1048576;|1|end;|taken
^client 1;||0|cut / 1048577;|6 6
^client 1;|read / 1048576 0;|1|end;|taken
^client 1;||0|read / 1048577 0;|6 6
^client 1;|read / 0 65536;|1|end;|taken
^client 1;||0|read / 0 65537;|6 6
^healer 1;|round 2;|1|end;|taken
^healer 1;||0|round 3;|6 7
^healer 1;|round 2;|1|end;|taken
^healer 1;||0|round 5;|6 6
^|fault 0 1 fail;|1|end;|taken
^||0|fault 0 0 fail;|5 6
^|fault 2 4000000 lost;|1|end;|taken
^||0|fault 2 4000001 lost;|5 6
^|at 4000000 stop 2;|1|end;|taken
^||0|at 4000001 stop 2;|5 6
^|at 0 start 2;|1|end;|taken
^||0|at 0 start 3;|5 7
^client 1;|at 0 kill c1;|1|end;|taken
^client 1;||0|at 0 kill c2;|6 7
^healer 1;|at 0 join h1 0;|1|end;|taken
^healer 1;||0|at 0 join h2 0;|6 7
%healer 1;|round 4;|1|end;|taken
%healer 1;||0|round 5;|6 6
%|fault 4 1 fail;|1|end;|taken
%||0|fault 5 1 fail;|5 6
%|at 0 start 4;|1|end;|taken
%||0|at 0 start 5;|5 6
%client 1;|at 0 cut c1 4;|1|end;|taken
%client 1;||0|at 0 cut c1 5;|6 6
^client 1;|go c1 1;|1|end;|taken
^client 1;||0|go c1 0;|6 6
^client 1;|go c1 4000000;|1|end;|taken
^client 1;||0|go c1 4000001;|6 6
^client 1;|stat /;|16384|end;|taken
^client 1;|stat /;|16384|stat /;|16390 8
^client 1;|ls /;|256|end;|taken
^client 1;|ls /;|256|ls /;|262 8
^healer 1;|round 0;|1024|end;|taken
^healer 1;|round 0;|1024|round 0;|1030 8
^|fault 0 $ lost;|1024|end;|taken
^|fault 0 $ lost;|1024|fault 1 1 fail;|1029 8
^|at $ stop 0;|1024|end;|taken
^|at $ stop 0;|1024|at 2000 start 0;|1029 8
^client 1;|go c1 1;|1024|end;|taken
^client 1;|go c1 1;|1024|go c1 1;|1030 8
^client 1;|write /x 1048576 \"\";|256|end;|taken
^client 1;|write /x 1048576 \"\";|256|write /x 1 \"\";|262 8
^client 1;|write /x 1048575 \"y\";|256|end;|taken
^client 1;|write /x 1048575 \"y\";|256|write /x 0 \"y\";|262 8
^client 1;|read /x 0 65536;|1024|end;|taken
^client 1;|read /x 0 65536;|1024|read /x 0 1;|1030 8
";

fn faults() -> &'static str {
    FAULTS
}

fn limits() -> &'static str {
    LIMITS
}

fn push_letters(text: &mut String, count: u32) -> Result<(), Fail> {
    for _ in 0..count {
        text.push('a')?;
    }
    Ok(())
}

/// Adds what one letter of a row stands for.
fn push_letter(alloc: Global, text: &mut String, letter: char, k: u32) -> Result<(), Fail> {
    match letter {
        '^' => text.push_str("afr 1\nvolume replica\nfiles 0\nturns 100000\n")?,
        '%' => text.push_str("afr 2\nvolume replica 5\nfiles 0\nturns 100000\n")?,
        ';' => text.push('\n')?,
        '~' => text.push('\r')?,
        '$' => text.push_str(format!(in alloc; "{k}")?.as_str())?,
        '@' => push_letters(text, 255)?,
        '#' => push_letters(text, 65_536)?,
        other => text.push(other)?,
    }
    Ok(())
}

fn push_part(alloc: Global, text: &mut String, part: &str, k: u32) -> Result<(), Fail> {
    for letter in part.chars() {
        push_letter(alloc, text, letter, k)?;
    }
    Ok(())
}

/// Why a text isn't read, if it isn't.
fn stop_of(alloc: Global, text: &str) -> Option<PlanStop> {
    match read_plan(alloc, text.as_bytes()) {
        Ok(_) => None,
        Err(stop) => Some(stop),
    }
}

/// The same in the words of a row.
fn outcome(alloc: Global, stop: Option<PlanStop>) -> Result<String, Fail> {
    match stop {
        None => Ok(String::from_str(alloc, "taken")?),
        Some(PlanStop::Refused(fault)) => Ok(format!(in alloc; "{} {}", fault.line, fault.code)?),
        Some(PlanStop::NoMemory) => Err("no memory".into()),
    }
}

/// A text: what comes first, a line that follows it so many times, and what comes last.
fn text_of(alloc: Global, first: &str, line: &str, count: u32, last: &str) -> Result<String, Fail> {
    let mut text = String::new(alloc);
    push_part(alloc, &mut text, first, 0)?;
    for k in 0..count {
        push_part(alloc, &mut text, line, k.saturating_add(1))?;
    }
    push_part(alloc, &mut text, last, 0)?;
    Ok(text)
}

/// How the text of a row is read, and how it is to be.
fn row_holds(alloc: Global, row: &str) -> Result<bool, Fail> {
    let mut parts = row.split('|');
    let first = parts.next().ok_or("short")?;
    let line = parts.next().ok_or("short")?;
    let count = parts.next().ok_or("short")?;
    let last = parts.next().ok_or("short")?;
    let want = parts.next().ok_or("short")?;
    let count: u32 = count.parse().ok().ok_or("number")?;
    let text = text_of(alloc, first, line, count, last)?;
    let outcome = outcome(alloc, stop_of(alloc, text.as_str()))?;
    Ok(outcome.as_str() == want)
}

#[test]
fn each_fault_is_refused_with_its_line_and_code(rt: HostRuntime) -> Result<(), Fail> {
    for row in faults().lines() {
        assert!(rt; row_holds(rt.alloc(), row)?, "{row}");
    }
    Ok(())
}

#[test]
fn each_limit_is_taken_and_one_more_refused(rt: HostRuntime) -> Result<(), Fail> {
    for row in limits().lines() {
        assert!(rt; row_holds(rt.alloc(), row)?, "{row}");
    }
    Ok(())
}
