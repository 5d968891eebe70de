//! The report of a volume whose healers crawl, and whether it has items that were never tasks.
ghost use Rattle.std.specs.Prelude.{◌≡◌, IfOk, string_bytes, true};
ghost use Rattle.afr_report.specs.Workers.{is_untried, report_for};

use crate::workers::items::items_given;
use crate::workers::report::print_crawl;
use crate::workers::tally::{count_works, tasks_ended};
use afr_base::NoMemory;
use afr_volume::Volume;
use std::alloc::Global;

/// The report of a crawled volume's plan and log as they stand.
pub fn crawl_text(alloc: Global, volume: &Volume) -> Result<String, NoMemory>
    requires crawl { volume.now.crawl ≡ true }
    ensures ok { IfOk result (λ text. string_bytes text ≡ report_for true volume.now.plan volume.now.log) }
{
    volume.every_line();
    let all = count_works(volume.lines());
    let items = items_given(volume, all.rounds as u32);
    print_crawl(
        alloc,
        volume.plan(),
        volume.lines(),
        volume.reach(),
        volume.servers(),
        all,
        items,
    )
}

/// Whether fewer tasks have ended than there are items, though no worker was killed. It takes no memory.
pub fn is_untried(volume: &Volume) -> bool
    requires crawl { volume.now.crawl ≡ true }
    ensures { result ≡ is_untried volume.now.plan volume.now.log }
{
    volume.every_line();
    let all = count_works(volume.lines());
    let tasks = tasks_ended(all);
    let items = items_given(volume, all.rounds as u32);
    !all.killed && tasks < items
}
