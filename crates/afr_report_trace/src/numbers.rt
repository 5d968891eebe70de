//! Numbers with commas between them, and the bricks that missed an operation.
ghost use Rattle.std.specs.Prelude.{◌≡◌, ◌++◌, OnOk, decimal, filter, string_bytes};
ghost use Rattle.afr_base.specs.Bricks.{all_five, member};
ghost use Rattle.afr_report_trace.specs.Numbers.{bricks_text, comma, given, with_commas};

use afr_base::{BrickId, BrickSet, NoMemory};
use afr_report_words::{push_number, push_word};

/// Adds the numbers that there are, with commas between them; nothing where there are none.
pub fn push_given(out: &mut String, numbers: &[Option<u32>]) -> Result<(), NoMemory>
    ensures ok { OnOk result (string_bytes out.new ≡ string_bytes out.old ++ with_commas (given numbers.now)) }
{
    let mut first = true;
    for number in numbers {
        if let Some(number) = number {
            push_next(out, first, *number)?;
            first = false;
        }
    }
    Ok(())
}

/// Adds some bricks, the lowest first, with commas between them; a dash where there are none.
pub fn push_bricks(out: &mut String, bricks: BrickSet) -> Result<(), NoMemory>
    ensures ok { OnOk result (string_bytes out.new ≡ string_bytes out.old ++ bricks_text bricks) }
{
    if bricks.is_empty() {
        return push_word(out, "-");
    }
    push_members(out, bricks)
}

fn push_members(out: &mut String, bricks: BrickSet) -> Result<(), NoMemory>
    ensures ok { OnOk result (string_bytes out.new ≡ string_bytes out.old ++ with_commas (filter (member bricks) all_five)) }
{
    let mut first = true;
    for number in 0..5u8 {
        if bricks.has(BrickId(number)) {
            push_next(out, first, u32::from(number))?;
            first = false;
        }
    }
    Ok(())
}

/// Adds a number, behind a comma where it isn't the first.
fn push_next(out: &mut String, first: bool, number: u32) -> Result<(), NoMemory>
    ensures ok { OnOk result (string_bytes out.new ≡ string_bytes out.old ++ (comma first ++ decimal number)) }
{
    if !first {
        out.push(',')?;
    }
    push_number(out, u64::from(number))
}
