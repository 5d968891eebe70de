//! Plans that are read whole.
use afr_base::BrickId;
use afr_object::List;
use afr_plan::{Command, Plan};
use afr_plan_read::read_plan;
use std::alloc::Global;
use std::test::Fail;

/// A plan of all kinds of lines.
const WHOLE: &str =
    "afr 1\nvolume arbiter\nfiles 2\nturns 9\nclient 1\nmkdir /d\nwrite /d/b-2.C 7 hex:00ff\nwrite /f2 0 fill:3:0a\nwrite /d/b-2.C 0 \"say no\"\ncut /f1 3\nread /d/b-2.C 0 1\ncreate /x\nunlink /x\nrmdir /d\nls /\nstat /d\nsetattr / owner me\nsetattr /d owner you\ngetattr /f1 mode\nrename /y/x /e/d\nclient 2\nhealer 1\nround 0\nround 2\nhealer 2\nfault 1 4000000 fail\nfault 2 1 lost\nat 0 stop 2\nat 5 start 2\nat 5 cut c2 1\nat 6 join h2 0\nat 7 kill c1\ngo h2 3\ngo c1 1\nend\n";

fn whole_text() -> &'static str {
    WHOLE
}

fn have_lengths(scripts: &[List<Command>], want: &[usize]) -> bool {
    scripts.len() == want.len()
        && scripts
            .iter()
            .zip(want)
            .all(|(script, want)| script.len() == *want)
}

fn have_rounds(healers: &[List<BrickId>], want: &[usize]) -> bool {
    healers.len() == want.len()
        && healers
            .iter()
            .zip(want)
            .all(|(rounds, want)| rounds.len() == *want)
}

fn is_whole(plan: &Plan) -> bool {
    plan.shape.n == 3
        && plan.shape.arbiter
        && have_lengths(plan.clients.as_slice(), [15usize, 0].as_slice())
        && have_rounds(plan.healers.as_slice(), [2usize, 0].as_slice())
        && plan.faults.len() == 2
        && plan.events.len() == 5
        && plan.go.len() == 2
}

fn whole_is_read(alloc: Global) -> bool {
    match read_plan(alloc, whole_text().as_bytes()) {
        Ok(plan) => is_whole(&plan),
        Err(_) => false,
    }
}

#[test]
fn all_kinds_of_lines_are_read(rt: HostRuntime) -> Result<(), Fail> {
    assert!(rt; whole_is_read(rt.alloc()));
    Ok(())
}
