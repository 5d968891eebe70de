//! The report of a volume, what needs heal in it, and its trace.
ghost use Rattle.std.specs.Prelude.{◌≡◌, IfOk, string_bytes};
ghost use Rattle.afr_model.specs.ReportHealers.{info_of, report_of};
ghost use Rattle.afr_report.specs.Workers.{report_for};
ghost use Rattle.afr_report_trace.specs.Lines.{trace_of};

use crate::report::print_report;
use crate::workers::crawl_text;
use afr_base::NoMemory;
use afr_report_info::print_info;
use afr_report_trace::{Gathered, gather_trace};
use afr_volume::Volume;
use std::alloc::Global;

/// The report of the volume's plan and log as they stand, by whether its healers crawl.
pub fn report_text(alloc: Global, volume: &Volume) -> Result<String, NoMemory>
    ensures ok { IfOk result (λ text. string_bytes text ≡ report_for volume.now.crawl volume.now.plan volume.now.log) }
{
    if volume.is_crawl() {
        crawl_text(alloc, volume)
    } else {
        rounds_text(alloc, volume)
    }
}

/// The report with the rounds of each healer.
fn rounds_text(alloc: Global, volume: &Volume) -> Result<String, NoMemory>
    ensures ok { IfOk result (λ text. string_bytes text ≡ report_of volume.now.plan volume.now.log) }
{
    volume.every_line();
    print_report(
        alloc,
        volume.plan(),
        volume.lines(),
        volume.reach(),
        volume.servers(),
    )
}

/// What needs heal in the volume as it stands: the last part of its report, whether its healers crawl or not.
pub fn info_text(alloc: Global, volume: &Volume) -> Result<String, NoMemory>
    ensures ok { IfOk result (λ text. string_bytes text ≡ info_of volume.now.plan volume.now.log) }
{
    volume.every_line();
    let mut out = String::new(alloc);
    print_info(&mut out, volume.plan(), volume.servers(), volume.reach())?;
    Ok(out)
}

/// The trace of the volume's log as it stands, gathered: a text line for each of its lines.
pub fn gathered_trace(alloc: Global, volume: &Volume) -> Result<Gathered, NoMemory>
    ensures ok { IfOk result (λ gathered. gathered ≡ trace_of volume.now.plan volume.now.log) }
{
    gather_trace(alloc, volume.plan(), volume.lines())
}
