//! The objects that were listed last: a short row, which is walked over, before the map, which is searched.
ghost use Rattle.std.specs.Prelude.{◌≡◌, filter, not, ◌==◌, IfOk, OnOk};
ghost use Rattle.std.specs.BTreeMap.{is_at, insert_entry};
ghost use Rattle.std.specs.Map.{remove_entry};
ghost use Rattle.afr_object.specs.Tables.{gfid_cmp};
ghost use Rattle.afr_index.specs.Listed.{IsRising, IsSpot, with_all};

use afr_base::{Gfid, NoMemory, What};
use std::alloc::Global;
use std::collections::BTreeMap;

/// So many objects stand in the row: to walk over them costs less than a search.
const MOST_LATE: usize = 16;

/// A place in the row: where it is full, the first of it goes into the map.
#[inline]
pub(crate) fn make_place(
    kinds: &mut BTreeMap<Gfid, What>,
    late: &mut Vec<(Gfid, What)>,
) -> Result<(), NoMemory>
    requires { IsRising kinds.old.entries }
    ensures same { with_all late.new.items kinds.new.entries ≡ with_all late.old.items kinds.old.entries }
    ensures rising { IsRising kinds.new.entries }
{
    if late.len() >= MOST_LATE {
        return file_first(kinds, late);
    }
    Ok(())
}

/// The first of the row goes into the map.
#[inline(never)]
fn file_first(
    kinds: &mut BTreeMap<Gfid, What>,
    late: &mut Vec<(Gfid, What)>,
) -> Result<(), NoMemory>
    requires { IsRising kinds.old.entries }
    ensures same { with_all late.new.items kinds.new.entries ≡ with_all late.old.items kinds.old.entries }
    ensures rising { IsRising kinds.new.entries }
{
    let Some(first) = late.first() else {
        return Ok(());
    };
    let (g, what) = *first;
    kinds.insert(g, what)?;
    late.remove(0);
    Ok(())
}

/// An object leaves the row.
pub(crate) fn drop_late(late: &mut Vec<(Gfid, What)>, g: Gfid)
    ensures { late.new.items ≡ filter (λ e. not (e.0.0 == g.0)) late.old.items }
{
    late.retain(|entry| entry.0.0 != g.0);
}

/// An object leaves the map. Where that is empty, it is one comparison.
#[inline]
pub(crate) fn take_out(kinds: &mut BTreeMap<Gfid, What>, g: Gfid)
    requires { IsRising kinds.old.entries }
    ensures entries { kinds.new.entries ≡ remove_entry (is_at (gfid_cmp g)) kinds.old.entries }
    ensures rising { IsRising kinds.new.entries }
{
    if kinds.len() == 0 {
        return;
    }
    kinds.remove(&g);
}

/// The objects of the map, in a list.
pub(crate) fn entries_of(
    alloc: Global,
    kinds: &BTreeMap<Gfid, What>,
) -> Result<Vec<(Gfid, What)>, NoMemory>
    ensures { IfOk result (λ list. list.items ≡ kinds.now.entries) }
{
    let mut list = Vec::new(alloc);
    for (g, what) in kinds.iter() {
        list.push((*g, *what))?;
    }
    Ok(list)
}

/// Puts an object in at its place.
pub(crate) fn put_in(list: &mut Vec<(Gfid, What)>, g: Gfid, what: What) -> Result<(), NoMemory>
    ensures { OnOk result (list.new.items ≡ insert_entry gfid_cmp list.old.items g what) }
{
    let at = spot_of(list.as_slice(), g);
    if at < list.len() && list[at].0.0 == g.0 {
        list[at] = (g, what);
        return Ok(());
    }
    list.insert(at, (g, what))?;
    Ok(())
}

/// How many objects at the front come before this one.
fn spot_of(list: &[(Gfid, What)], g: Gfid) -> usize
    ensures { IsSpot g.0 list.now result }
{
    for (at, entry) in list.iter().enumerate() {
        if entry.0.0 >= g.0 {
            return at;
        }
    }
    list.len()
}
