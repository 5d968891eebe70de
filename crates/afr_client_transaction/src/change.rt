//! The change of a transaction: its object, its area, the kind that counts it, and the number of what it makes.
ghost use Rattle.std.specs.Prelude.{◌≡◌, ◌<◌, ◌+◌, ◌-◌, ◌^◌, ◌&&◌, nat_le, nat_lt, min, true, false, IfOk, Some};
ghost use Rattle.afr_lines.specs.Areas.{area_for};
ghost use Rattle.afr_client_transaction.specs.Made.{made_by};
ghost use Rattle.afr_client_transaction.specs.Progress.{gfid_at, numbered};
ghost use Rattle.afr_client_transaction.specs.Sound.{Suits};

use afr_base::{FIRST_ATTRIBUTE, Gfid, NameId, NoMemory, What};
use afr_lines::Area;
use afr_object::{Change, TryCopy};

/// The area that a change locks.
pub fn area_of(change: &Change) -> Area
    ensures { result ≡ area_for change.now }
{
    match change {
        Change::Write { gfid, at, bytes } => Area::Range {
            gfid: *gfid,
            from: u64::from(*at),
            to: u64::from(*at).saturating_add(bytes.len() as u64),
        },
        Change::Cut { gfid, len } => Area::Range {
            gfid: *gfid,
            from: u64::from(*len),
            to: FIRST_ATTRIBUTE,
        },
        Change::SetAttr { gfid, .. } => Area::Range {
            gfid: *gfid,
            from: FIRST_ATTRIBUTE,
            to: FIRST_ATTRIBUTE + 1,
        },
        Change::Make { dir, name, .. } => Area::Name {
            gfid: *dir,
            name: Some(*name),
        },
        Change::Remove { dir, name, .. } => Area::Name {
            gfid: *dir,
            name: Some(*name),
        },
    }
}

/// Whether a change has an area: each one has, but a write of no bytes and one that ends past 2^63.
pub fn has_area(change: &Change) -> bool
    ensures yes { result ≡ true → Suits change.now }
    ensures no { result ≡ false → Suits change.now → ⊥ }
{
    match change {
        Change::Write { at, bytes, .. } => is_range(u64::from(*at), bytes.len() as u64),
        Change::Cut { len, .. } => u64::from(*len) < FIRST_ATTRIBUTE,
        Change::SetAttr { .. } => true,
        Change::Make { .. } => true,
        Change::Remove { .. } => true,
    }
}

/// Whether this many bytes from there on are a range of a file's bytes.
fn is_range(from: u64, len: u64) -> bool
    requires { from < 2 ^ 32 }
    ensures { result ≡ (nat_lt from (min (from + len) (2 ^ 64 - 1)) && nat_le (min (from + len) (2 ^ 64 - 1)) (2 ^ 63)) }
{
    let to = from.saturating_add(len);
    from < to && to <= FIRST_ATTRIBUTE
}

/// The change as the Begin line at this position has it: a new object, which has the number 0 until then, gets the position
/// and 2 as its number.
pub(crate) fn numbered(change: &Change, at: u32) -> Result<Change, NoMemory>
    ensures { IfOk result (λ copy. copy ≡ numbered at change.now) }
{
    match change {
        Change::Make {
            dir,
            name,
            gfid,
            what,
        } => Ok(making(*dir, *name, *gfid, *what, at)),
        Change::Write { .. } => change.copy(),
        Change::Cut { .. } => change.copy(),
        Change::SetAttr { .. } => change.copy(),
        Change::Remove { .. } => change.copy(),
    }
}

/// The same of a change that makes an object; it takes no memory.
pub(crate) fn made_by(change: &Change, at: u32) -> Option<Change>
    ensures { result ≡ made_by (Some at) change.now }
{
    match change {
        Change::Make {
            dir,
            name,
            gfid,
            what,
        } => Some(making(*dir, *name, *gfid, *what, at)),
        Change::Write { .. } => None,
        Change::Cut { .. } => None,
        Change::SetAttr { .. } => None,
        Change::Remove { .. } => None,
    }
}

fn making(dir: Gfid, name: NameId, gfid: Gfid, what: What, at: u32) -> Change
    ensures { result ≡ Change.Make dir name (gfid_at at gfid) what }
{
    Change::Make {
        dir,
        name,
        gfid: gfid_at(gfid, at),
        what,
    }
}

fn gfid_at(gfid: Gfid, at: u32) -> Gfid
    ensures { result ≡ gfid_at at gfid }
{
    if gfid.0 == 0 {
        Gfid(u128::from(at) + 2)
    } else {
        gfid
    }
}
