//! The lines of a summary.
ghost use Rattle.std.specs.Prelude.{◌≡◌, ◌++◌, OnOk, codes, string_bytes};
ghost use Rattle.afr_report.specs.Summary.Summary.{count_line};

use crate::summed::ends::EndCounts;
use afr_base::NoMemory;
use afr_report_info::ObjectCounts;

/// Adds a word and its number.
#[tactic(auto, unfolding(crate::specs::Summary::Summary::count_line))]
fn push_count(out: &mut String, word: &str, count: usize) -> Result<(), NoMemory>
    ensures ok { OnOk result (string_bytes out.new ≡ string_bytes out.old ++ count_line word.now count) }
{
    write!(out, "{word} {count}\n")?;
    Ok(())
}

/// Adds the number of the load and the length of the log.
pub fn push_size(out: &mut String, n: u32, lines: usize) -> Result<(), NoMemory>
    ensures ok { OnOk result (string_bytes out.new ≡ string_bytes out.old ++ (count_line (codes "gen") n ++ count_line (codes "lines") lines)) }
{
    push_count(out, "gen", n as usize)?;
    push_count(out, "lines", lines)
}

/// Adds how the commands and heals ended.
pub fn push_ends(out: &mut String, ends: EndCounts) -> Result<(), NoMemory>
    ensures ok { OnOk result (string_bytes out.new ≡ string_bytes out.old ++ (count_line (codes "ok") ends.ok ++ count_line (codes "refused") ends.refused ++ count_line (codes "settled") ends.settled)) }
{
    push_count(out, "ok", ends.ok)?;
    push_count(out, "refused", ends.refused)?;
    push_count(out, "settled", ends.settled)
}

/// Adds the counts of objects.
pub fn push_objects(out: &mut String, counts: ObjectCounts) -> Result<(), NoMemory>
    ensures ok { OnOk result (string_bytes out.new ≡ string_bytes out.old ++ (count_line (codes "objects") counts.objects ++ count_line (codes "split-brain") counts.splits)) }
{
    push_count(out, "objects", counts.objects)?;
    push_count(out, "split-brain", counts.splits)
}
