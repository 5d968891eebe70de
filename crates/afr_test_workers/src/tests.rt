//! A plan is crawled on the calling thread.
ghost use Rattle.std.specs.Prelude.{◌≡◌, [], OnOk, true};
ghost use Rattle.afr_model.specs.Crawl.{CanCrawl};

use afr_law_runnable::every_spelled_plan_runs;
use afr_plan_read::read_plan;
use afr_rule::{ReadRule, Rules, SourceRule, shipped};
use afr_volume::Volume;
use afr_workers::crawl_here;
use std::alloc::Global;
use std::test::Fail;

/// Two writes that brick 2 misses, and a crawler that has one round.
const PLAN: &str =
    "afr 1\nvolume replica\nfiles 2\nturns 100000\nclient 1\nwrite /f1 0 \"a\"\nwrite /f2 0 \"b\"\nhealer 1\nround 0\nhealer 2\nhealer 3\nat 0 stop 2\nat 39 start 2\ngo c1 38\nend\n";

/// Whether the plan has three healers, and rounds of the first alone.
fn can_crawl(volume: &Volume) -> bool
    ensures { result ≡ true → CanCrawl volume.now.plan }
{
    let healers = &volume.plan().healers;
    if healers.len() != 3 {
        return false;
    }
    let second = healers.item(1);
    let third = healers.item(2);
    if second.len() > 0 || third.len() > 0 {
        return false;
    }
    true
}

/// Sets the volume up for the plan; its healers crawl.
fn set_up(alloc: Global, volume: &mut Volume) -> Result<(), Fail>
    ensures fresh { OnOk result (volume.new.log ≡ []) }
    ensures crawls { OnOk result (volume.new.crawl ≡ true) }
{
    let Ok(plan) = read_plan(alloc, PLAN.as_bytes()) else {
        return Err(Fail::from("refused"));
    };
    every_spelled_plan_runs();
    let Ok(()) = volume.set_up(plan) else {
        return Err(Fail::from("memory"));
    };
    if !can_crawl(volume) {
        return Err(Fail::from("healers"));
    }
    volume.set_crawl();
    Ok(())
}

/// How many lines a crawl of the plan has.
fn crawled(alloc: Global) -> Result<u32, Fail> {
    let mut volume = Volume::empty(alloc);
    set_up(alloc, &mut volume)?;
    let rules = Rules {
        heal: SourceRule::new(shipped::longest),
        read: ReadRule::new(shipped::first),
    };
    let Ok(()) = crawl_here(&mut volume, &rules) else {
        return Err(Fail::from("memory"));
    };
    Ok(volume.len())
}

/// As many lines as where each of the two files is one task.
#[test]
fn each_item_of_the_crawler_is_a_task(rt: HostRuntime) -> Result<(), Fail> {
    let lines = crawled(rt.alloc())?;
    assert_eq!(rt; lines, 172);
    Ok(())
}
