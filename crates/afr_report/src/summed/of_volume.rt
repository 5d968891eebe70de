//! The summary of a volume.
ghost use Rattle.std.specs.Prelude.{◌≡◌, IfOk, string_bytes};
ghost use Rattle.afr_report.specs.Summary.Summary.{summary_of};

use crate::summed::summary::print_summary;
use afr_base::NoMemory;
use afr_volume::Volume;
use std::alloc::Global;

/// The summary of the volume's plan and log as they stand, under the number of the load that was run.
pub fn summary_text(alloc: Global, volume: &Volume, n: u32) -> Result<String, NoMemory>
    ensures ok { IfOk result (λ text. string_bytes text ≡ summary_of volume.now.plan volume.now.log n) }
{
    volume.every_line();
    print_summary(
        alloc,
        n,
        volume.plan(),
        volume.lines(),
        volume.reach(),
        volume.servers(),
    )
}
