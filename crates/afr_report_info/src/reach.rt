//! The line of the started bricks.
ghost use Rattle.std.specs.Prelude.{◌≡◌, ◌++◌, ◌≤◌, OnOk, codes, decimal, flat_map, string_bytes};
ghost use Rattle.afr_model.specs.Report.{reach_text};
ghost use Rattle.afr_base.specs.Rising.{IsRising};

use afr_base::{BrickSet, NoMemory};

/// Adds the started bricks, and whether they are too few for a majority.
pub fn push_reach(out: &mut String, n: u8, started: BrickSet) -> Result<(), NoMemory>
    requires few { n ≤ 5 }
    requires rising { IsRising 0 started }
    ensures ok { OnOk result (string_bytes out.new ≡ string_bytes out.old ++ reach_text n started) }
{
    out.push_str("reach")?;
    push_bricks(out, started)?;
    if !started.has_quorum(n) {
        out.push_str(" short")?;
    }
    out.push_str("\n")?;
    Ok(())
}

/// Adds the numbers of the bricks, the lowest first.
pub fn push_bricks(out: &mut String, bricks: BrickSet) -> Result<(), NoMemory>
    requires rising { IsRising 0 bricks }
    ensures ok { OnOk result (string_bytes out.new ≡ string_bytes out.old ++ flat_map (λ b. codes " " ++ decimal b) bricks) }
{
    let mut left = bricks;
    while !left.is_empty() {
        let brick = left.lowest();
        let number = brick.0;
        write!(out, " {number}")?;
        left = left.without(brick);
    }
    Ok(())
}
