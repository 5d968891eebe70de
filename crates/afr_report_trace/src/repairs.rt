//! The texts of repairs, and of the numbers that a heal takes back.
ghost use Rattle.std.specs.Prelude.{◌≡◌, ◌++◌, OnOk, codes, decimal, flat_map, string_bytes, take};
ghost use Rattle.afr_report_trace.specs.Numbers.{given, with_commas};
ghost use Rattle.afr_report_trace.specs.Objects.{object_text};
ghost use Rattle.afr_report_trace.specs.Repairs.{marks_text, repair_text};

use crate::changes::push_cut;
use crate::numbers::push_given;
use crate::objects::{push_object, push_range};
use afr_base::{Gfid, Marks, NoMemory};
use afr_object::Repair;
use afr_plan::Plan;
use afr_report_words::push_number;

/// Adds a repair, with the positions of the reads that it takes its contents from.
pub fn push_repair(out: &mut String, plan: &Plan, repair: &Repair) -> Result<(), NoMemory>
    ensures ok { OnOk result (string_bytes out.new ≡ string_bytes out.old ++ repair_text plan.now repair.now) }
{
    match repair {
        Repair::CutTo { gfid, len } => push_cut(out, plan, *gfid, *len),
        Repair::Copy {
            gfid,
            at,
            span,
            read,
        } => push_copy(out, plan, *gfid, *at, *span, *read),
        Repair::PutAttrs { gfid, read } => push_put_attrs(out, plan, *gfid, *read),
        Repair::PutNames { gfid, reads } => push_put_names(out, plan, *gfid, reads),
    }
}

fn push_copy(
    out: &mut String,
    plan: &Plan,
    gfid: Gfid,
    at: u32,
    span: u32,
    read: u32,
) -> Result<(), NoMemory>
    ensures ok { OnOk result (string_bytes out.new ≡ string_bytes out.old ++ repair_text plan.now (Repair.Copy gfid at span read)) }
{
    let from = u64::from(at);
    out.push_str("copy ")?;
    push_range(out, plan, gfid, from, from + u64::from(span))?;
    out.push_str(" from ")?;
    push_number(out, u64::from(read))
}

fn push_put_attrs(out: &mut String, plan: &Plan, gfid: Gfid, read: u32) -> Result<(), NoMemory>
    ensures ok { OnOk result (string_bytes out.new ≡ string_bytes out.old ++ repair_text plan.now (Repair.PutAttrs gfid read)) }
{
    out.push_str("put-attrs ")?;
    push_object(out, plan, gfid)?;
    out.push_str(" from ")?;
    push_number(out, u64::from(read))
}

fn push_put_names(
    out: &mut String,
    plan: &Plan,
    gfid: Gfid,
    reads: &[Option<u32>],
) -> Result<(), NoMemory>
    ensures ok { OnOk result (string_bytes out.new ≡ string_bytes out.old ++ (codes "put-names " ++ object_text plan.now gfid ++ codes " from " ++ with_commas (given reads.now))) }
{
    out.push_str("put-names ")?;
    push_object(out, plan, gfid)?;
    out.push_str(" from ")?;
    push_given(out, reads)
}

/// Adds the dirty number and the pending numbers for the volume's bricks.
pub fn push_marks(out: &mut String, plan: &Plan, marks: &Marks) -> Result<(), NoMemory>
    ensures ok { OnOk result (string_bytes out.new ≡ string_bytes out.old ++ marks_text plan.now marks.now) }
{
    push_number(out, u64::from(marks.dirty))?;
    push_first(out, usize::from(plan.shape.n), &marks.pending)
}

/// Adds the first of some numbers, each behind a space.
fn push_first(out: &mut String, count: usize, numbers: &[u32]) -> Result<(), NoMemory>
    ensures ok { OnOk result (string_bytes out.new ≡ string_bytes out.old ++ flat_map (λ n. codes " " ++ decimal n) (take count numbers.now)) }
{
    for (i, number) in numbers.iter().enumerate() {
        if i < count {
            out.push(' ')?;
            push_number(out, u64::from(*number))?;
        }
    }
    Ok(())
}
