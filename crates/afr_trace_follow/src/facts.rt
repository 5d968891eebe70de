//! Tests of single facts, and of two.
ghost use Rattle.std.specs.Prelude.{◌≡◌, ◌↔◌, ◌&&◌, ◌||◌, false, true};

use afr_base::{BrickId, Gfid};

pub(crate) fn both(one: bool, other: bool) -> bool
    ensures { result ≡ (one && other) }
{
    one && other
}

pub(crate) fn either(one: bool, other: bool) -> bool
    ensures { result ≡ (one || other) }
{
    one || other
}

pub(crate) fn is_not(flag: bool) -> bool
    ensures { (result ≡ true) ↔ (flag ≡ false) }
{
    !flag
}

pub(crate) fn same_number(one: usize, other: usize) -> bool
    ensures { (result ≡ true) ↔ (one ≡ other) }
{
    one == other
}

pub(crate) fn same_gfid(one: Gfid, other: Gfid) -> bool
    ensures { (result ≡ true) ↔ (one ≡ other) }
{
    one == other
}

pub(crate) fn same_brick(one: BrickId, other: BrickId) -> bool
    ensures { (result ≡ true) ↔ (one ≡ other) }
{
    one == other
}
