//! The values of the changelog attributes of an object on the bricks.
ghost use Rattle.std.specs.Prelude.{◌≡◌, ◌++◌, ◌≤◌, ◌<◌, ◌==◌, OnOk, flat_map, string_bytes};
ghost use Rattle.std.specs.List.{list_all};
ghost use Rattle.afr_marks.specs.Values.{name_of, numbers, text_of, value};
ghost use Rattle.afr_model.specs.ReportObjects.{mark_line, marks_lines};
ghost use Rattle.afr_base.specs.Rising.{IsRising};
ghost use Rattle.afr_report_info.specs.Shown.{missed_lines, value_line};

use afr_base::{AllMarks, BrickId, BrickSet, NoMemory};
use afr_choice::Looked;
use afr_marks::{Which, attr_name, numbers_of, value_bytes, value_text};
use afr_object::View;
use afr_plan::Plan;

/// Adds the values on each of the bricks.
pub fn push_all_marks(
    out: &mut String,
    plan: &Plan,
    looked: &Looked,
    among: BrickSet,
) -> Result<(), NoMemory>
    requires few { plan.now.shape.n ≤ 5 }
    requires rising { IsRising 0 among }
    ensures ok { OnOk result (string_bytes out.new ≡ string_bytes out.old ++ flat_map (marks_lines plan.now looked.now) among) }
{
    let mut left = among;
    while !left.is_empty() {
        let brick = left.lowest();
        push_marks(out, plan, looked, brick)?;
        left = left.without(brick);
    }
    Ok(())
}

/// Adds the values on one brick: the open operations, then those that each brick missed.
fn push_marks(
    out: &mut String,
    plan: &Plan,
    looked: &Looked,
    brick: BrickId,
) -> Result<(), NoMemory>
    requires few { plan.now.shape.n ≤ 5 }
    requires small { brick.0 < 5 }
    ensures ok { OnOk result (string_bytes out.new ≡ string_bytes out.old ++ marks_lines plan.now looked.now brick.0) }
{
    let view = &looked.views[brick.0 as usize];
    push_mark(out, brick, view, Which::Dirty)?;
    push_missed(out, brick, view, BrickSet::all(plan.shape.n))
}

/// Adds the operations that each of the bricks missed, as one brick counts them.
fn push_missed(
    out: &mut String,
    brick: BrickId,
    view: &Option<View>,
    missing: BrickSet,
) -> Result<(), NoMemory>
    requires rising { IsRising 0 missing }
    ensures ok { OnOk result (string_bytes out.new ≡ string_bytes out.old ++ missed_lines brick.0 view.now missing) }
{
    let mut left = missing;
    while !left.is_empty() {
        let other = left.lowest();
        push_mark(out, brick, view, Which::Client(other))?;
        left = left.without(other);
    }
    Ok(())
}

/// Adds a value that isn't all zero.
fn push_mark(
    out: &mut String,
    brick: BrickId,
    view: &Option<View>,
    which: Which,
) -> Result<(), NoMemory>
    ensures ok { OnOk result (string_bytes out.new ≡ string_bytes out.old ++ mark_line brick.0 view.now which) }
{
    let Some(view) = view else {
        return Ok(());
    };
    if is_all_zero(&view.marks, which) {
        return Ok(());
    }
    push_value(out, brick, &view.marks, which)
}

fn push_value(
    out: &mut String,
    brick: BrickId,
    marks: &AllMarks,
    which: Which,
) -> Result<(), NoMemory>
    ensures ok { OnOk result (string_bytes out.new ≡ string_bytes out.old ++ value_line brick.0 (name_of which) (text_of (value (numbers which marks.now)))) }
{
    let alloc = *out.allocator();
    let name = attr_name(alloc, which)?;
    let value = value_text(alloc, &value_bytes(marks, which))?;
    push_value_line(out, brick, name.as_str(), value.as_str())?;
    Ok(())
}

fn push_value_line(
    out: &mut String,
    brick: BrickId,
    name: &str,
    value: &str,
) -> Result<(), NoMemory>
    ensures ok { OnOk result (string_bytes out.new ≡ string_bytes out.old ++ value_line brick.0 name.now value.now) }
{
    let number = brick.0;
    write!(out, "b{number} {name}={value}\n")?;
    Ok(())
}

fn is_all_zero(marks: &AllMarks, which: Which) -> bool
    ensures { result ≡ list_all (λ n. n == 0) (numbers which marks.now) }
{
    all_zero(&numbers_of(&value_bytes(marks, which)))
}

fn all_zero(numbers: &[u32]) -> bool
    ensures { result ≡ list_all (λ n. n == 0) numbers.now }
{
    numbers.iter().all(|number| *number == 0)
}
