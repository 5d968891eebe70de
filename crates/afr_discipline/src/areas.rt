//! What an area is, and which changes lie in it.
ghost use Rattle.std.specs.Prelude.{◌≡◌, ◌+◌, ◌^◌, length, nat_lt, if◌then◌else◌};
ghost use Rattle.afr_model_moves.specs.Honest.{plane_kind};
ghost use Rattle.afr_model_moves.specs.Rules.{area_object, is_area};
ghost use Rattle.afr_model_moves.specs.Register.{area_kind, is_on, kind_in};
ghost use Rattle.afr_lines.specs.Overlap.{same_area};
ghost use Rattle.afr_base.specs.Kinds.{same_kind};
ghost use Rattle.afr_lines.specs.Locks.{same_name};
ghost use Rattle.afr_discipline.specs.Tests.{ends_low, has_name, is_heal_area, is_valid, lies_at, lies_in, plane_in};

use afr_base::{FIRST_ATTRIBUTE, Gfid, Kind, LONGEST_FILE, NameId};
use afr_lines::Area;
use afr_object::Change;

pub(crate) fn is_same_kind(one: Kind, other: Kind) -> bool
    ensures { result ≡ same_kind one other }
{
    match (one, other) {
        (Kind::Bytes, Kind::Bytes) => true,
        (Kind::Attrs, Kind::Attrs) => true,
        (Kind::Names, Kind::Names) => true,
        _ => false,
    }
}

fn is_same_name(one: Option<NameId>, other: Option<NameId>) -> bool
    ensures { result ≡ same_name one other }
{
    match (one, other) {
        (None, None) => true,
        (Some(one), Some(other)) => one.0 == other.0,
        _ => false,
    }
}

pub(crate) fn is_same_area(one: Area, other: Area) -> bool
    ensures { result ≡ same_area one other }
{
    match (one, other) {
        (
            Area::Range { gfid, from, to },
            Area::Range {
                gfid: object,
                from: start,
                to: end,
            },
        ) => gfid.0 == object.0 && from == start && to == end,
        (
            Area::Name { gfid, name },
            Area::Name {
                gfid: object,
                name: other,
            },
        ) => gfid.0 == object.0 && is_same_name(name, other),
        _ => false,
    }
}

/// Whether the area was named, and is this one.
pub(crate) fn is_the_area(mine: Option<Area>, area: Area) -> bool
    ensures { result ≡ is_area mine area }
{
    match mine {
        Some(mine) => is_same_area(mine, area),
        None => false,
    }
}

/// A range below 2^63, the range of the attributes, a name or a whole directory.
pub(crate) fn is_an_area(area: Area) -> bool
    ensures { result ≡ is_valid area }
{
    match area {
        Area::Range { gfid: _, from, to } => {
            from < to
                && (to <= FIRST_ATTRIBUTE || (from == FIRST_ATTRIBUTE && to == FIRST_ATTRIBUTE + 1))
        }
        Area::Name { .. } => true,
    }
}

/// The range of the Heal lock.
pub(crate) fn is_of_heals(area: Area) -> bool
    ensures { result ≡ is_heal_area area }
{
    match area {
        Area::Range { gfid: _, from, to } => from == 0 && to == FIRST_ATTRIBUTE,
        Area::Name { .. } => false,
    }
}

pub(crate) fn object_of(area: Area) -> Gfid
    ensures { result.0 ≡ area_object area }
{
    match area {
        Area::Range { gfid, .. } => gfid,
        Area::Name { gfid, .. } => gfid,
    }
}

fn kind_of(area: Area) -> Kind
    ensures { result ≡ area_kind area }
{
    match area {
        Area::Range { from, .. } => kind_from(from),
        Area::Name { .. } => Kind::Names,
    }
}

fn kind_from(from: u64) -> Kind
    ensures { result ≡ (if nat_lt from (2 ^ 63) then Kind.Bytes else Kind.Attrs) }
{
    if from < FIRST_ATTRIBUTE {
        Kind::Bytes
    } else {
        Kind::Attrs
    }
}

pub(crate) fn kind_of_some(area: Option<Area>) -> Kind
    ensures { result ≡ kind_in area }
{
    match area {
        Some(area) => kind_of(area),
        None => Kind::Bytes,
    }
}

/// Whether the object is that of the area.
pub(crate) fn is_on_object(area: Option<Area>, g: Gfid) -> bool
    ensures { result ≡ is_on area g.0 }
{
    match area {
        Some(area) => g.0 == object_of(area).0,
        None => false,
    }
}

/// Whether the object and kind are those of the area.
pub(crate) fn is_in_plane(area: Option<Area>, g: Gfid, kind: Kind) -> bool
    ensures { result ≡ plane_in area g.0 kind }
{
    match area {
        Some(area) => g.0 == object_of(area).0 && is_same_kind(kind, kind_of(area)),
        None => false,
    }
}

/// The kind that the change is counted in.
pub(crate) fn kind_of_change(change: &Change) -> Kind
    ensures { result ≡ plane_kind change.now }
{
    match change {
        Change::Write { .. } | Change::Cut { .. } => Kind::Bytes,
        Change::SetAttr { .. } => Kind::Attrs,
        Change::Make { .. } | Change::Remove { .. } => Kind::Names,
    }
}

/// A Write ends at 1,048,576 or below.
pub(crate) fn is_low(change: &Change) -> bool
    ensures { result ≡ ends_low change.now }
{
    match change {
        Change::Write { at, bytes, .. } => end_of(*at, bytes.as_slice())
            <= u128::from(LONGEST_FILE),
        _ => true,
    }
}

fn end_of(at: u32, bytes: &[u8]) -> u128
    ensures { result ≡ at + length bytes.now }
{
    u128::from(at) + bytes.len() as u128
}

/// Whether the change lies in the area that was named.
pub(crate) fn is_within(area: Option<Area>, change: &Change) -> bool
    ensures { result ≡ lies_in area change.now }
{
    match area {
        Some(area) => is_within_area(area, change),
        None => false,
    }
}

fn is_within_area(area: Area, change: &Change) -> bool
    ensures { result ≡ lies_at area change.now }
{
    match area {
        Area::Range { gfid, from, to } => is_within_range(gfid, from, to, change),
        Area::Name { gfid, name } => is_within_name(gfid, name, change),
    }
}

fn is_within_range(g: Gfid, from: u64, to: u64, change: &Change) -> bool
    ensures { result ≡ lies_at (Area.Range g from to) change.now }
{
    match change {
        Change::Write { gfid, at, bytes } => {
            g.0 == gfid.0
                && from <= u64::from(*at)
                && end_of(*at, bytes.as_slice()) <= u128::from(to)
                && to <= FIRST_ATTRIBUTE
        }
        Change::Cut { gfid, len } => g.0 == gfid.0
            && from <= u64::from(*len)
            && to == FIRST_ATTRIBUTE,
        Change::SetAttr { gfid, .. } => g.0 == gfid.0
            && from == FIRST_ATTRIBUTE
            && to == FIRST_ATTRIBUTE + 1,
        Change::Make { .. } | Change::Remove { .. } => false,
    }
}

fn is_within_name(g: Gfid, name: Option<NameId>, change: &Change) -> bool
    ensures { result ≡ lies_at (Area.Name g name) change.now }
{
    match change {
        Change::Make { dir, name: new, .. } => g.0 == dir.0 && is_name_of(name, *new),
        Change::Remove { dir, name: old, .. } => g.0 == dir.0 && is_name_of(name, *old),
        _ => false,
    }
}

fn is_name_of(name: Option<NameId>, one: NameId) -> bool
    ensures { result ≡ has_name name one }
{
    match name {
        Some(name) => name.0 == one.0,
        None => true,
    }
}
