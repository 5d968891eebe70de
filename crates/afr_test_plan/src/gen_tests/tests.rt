//! Generated plans as they are printed, and whether they are read again.
ghost use Rattle.std.specs.Prelude.{◌≤◌};

use afr_gen::gen_plan;
use afr_plan::Plan;
use afr_plan_print::print_plan;
use afr_plan_read::read_plan;
use std::alloc::Global;
use std::test::Fail;

const HEAD: &str = "afr 1\nvolume replica\nfiles 8\nturns 4000000\n";

const REST: &str = "healer 1\nround 0\nround 1\nround 2\nat 50 stop 2\nat 400 start 2\nend\n";

/// One command of each client.
const ONE: &str =
    "client 1\nsetattr /f2 owner c1\nclient 2\nsetattr /f8 owner c2\nclient 3\nread /f1 12288 1024\nclient 4\nwrite /f3 3072 fill:1024:64\n";

/// The first value is the second client's.
const TWO: &str =
    "client 1\nwrite /f4 12288 fill:1024:61\nread /f1 9216 1024\nclient 2\nwrite /f8 15360 fill:1024:62\nsetattr /f5 owner c2\nclient 3\nread /f4 7168 1024\nwrite /f6 14336 fill:1024:63\nclient 4\nwrite /f7 8192 fill:1024:64\nread /f7 6144 1024\n";

/// The first client and the third set no value.
const THREE: &str =
    "client 1\nwrite /f5 10240 fill:1024:61\nwrite /f1 14336 fill:1024:61\nread /f8 3072 1024\nclient 2\nwrite /f7 3072 fill:1024:62\nsetattr /f4 owner c2\nwrite /f6 13312 fill:1024:62\nclient 3\nread /f4 2048 1024\nwrite /f6 5120 fill:1024:63\nwrite /f3 10240 fill:1024:63\nclient 4\nwrite /f4 1024 fill:1024:64\nread /f4 3072 1024\nsetattr /f2 owner c4\n";

fn prints(alloc: Global, plan: &Plan, want: &str) -> bool {
    match print_plan(alloc, plan) {
        Ok(text) => text.as_str() == want,
        Err(_) => false,
    }
}

/// Whether a text is read, and what was read is printed as the same text.
fn is_read(alloc: Global, text: &str) -> bool {
    match read_plan(alloc, text.as_bytes()) {
        Ok(plan) => prints(alloc, &plan, text),
        Err(_) => false,
    }
}

/// Whether the plan of this number has these commands, and can be read again.
fn has_commands(alloc: Global, n: u32, commands: &str) -> Result<bool, Fail>
    requires some { 1 ≤ n }
    requires few { n ≤ 2000 }
{
    let text = format!(in alloc; "{HEAD}{commands}{REST}")?;
    let Ok(plan) = gen_plan(alloc, n) else {
        return Ok(false);
    };
    Ok(prints(alloc, &plan, text.as_str()) && is_read(alloc, text.as_str()))
}

#[test]
fn small_plans_are_as_worked_out(rt: HostRuntime) -> Result<(), Fail> {
    assert!(rt; has_commands(rt.alloc(), 1, ONE)?);
    assert!(rt; has_commands(rt.alloc(), 2, TWO)?);
    assert!(rt; has_commands(rt.alloc(), 3, THREE)?);
    Ok(())
}
