//! Where an object stands among those of a brick.
ghost use Rattle.std.specs.Prelude.{◌≡◌, ◌<◌, MatchOption, None, length, slice_set};
ghost use Rattle.std.specs.BTreeMap.{is_at};
ghost use Rattle.std.specs.List.Sorted.{IsStrictlySortedBy};
ghost use Rattle.std.specs.Map.{keys_of, lookup, remove_entry};
ghost use Rattle.afr_brick.specs.Placed.{AreApart, IsPlaceOf, IsPlaced, table};
ghost use Rattle.afr_base.specs.declared.ids.What.TheVariants.{File};
ghost use Rattle.afr_object.specs.Tables.{copy_at, gfid_cmp, new_object};

use crate::object::Object;
use crate::shortcuts::Shortcuts;
use afr_base::{Gfid, What};
use std::alloc::Global;
use std::collections::BTreeMap;

/// The place of an object among these, in O(log n) for n objects; one that is known, in constant time.
#[inline]
pub(crate) fn place_of(
    objects: &Vec<Object>,
    places: &BTreeMap<Gfid, usize>,
    shortcuts: &Shortcuts,
    g: Gfid,
) -> Option<usize>
    requires { IsPlaced objects.now.items places.now.entries shortcuts.now }
    ensures { MatchOption result (copy_at g (table objects.now.items places.now.entries) ≡ None) (λ place. IsPlaceOf objects.now.items places.now.entries shortcuts.now g place) }
{
    let _ = objects;
    match shortcuts.place_of(g) {
        Some(place) => Some(place),
        None => searched(places, g),
    }
}

fn searched(places: &BTreeMap<Gfid, usize>, g: Gfid) -> Option<usize>
    ensures { result ≡ lookup (is_at (gfid_cmp g)) places.now.entries }
{
    places.get(&g).copied()
}

/// The objects stand in the order of their gfids.
pub(crate) fn stand_in_order(objects: &Vec<Object>, places: &BTreeMap<Gfid, usize>)
    ensures { IsStrictlySortedBy gfid_cmp (keys_of (table objects.now.items places.now.entries)) }
{
    let _ = objects;
    let _ = places.len();
}

/// The object goes, and its place is left empty: what it held is given up.
pub(crate) fn give_up(
    alloc: Global,
    objects: &mut Vec<Object>,
    places: &mut BTreeMap<Gfid, usize>,
    g: Gfid,
)
    requires { AreApart (length objects.old.items) places.old.entries }
    ensures table { table objects.new.items places.new.entries ≡ remove_entry (is_at (gfid_cmp g)) (table objects.old.items places.old.entries) }
    ensures apart { AreApart (length objects.new.items) places.new.entries }
{
    match places.remove(&g) {
        Some(place) => empty(alloc, objects, place),
        None => {}
    }
}

fn empty(alloc: Global, objects: &mut Vec<Object>, place: usize)
    requires { place < length objects.old.items }
    ensures { objects.new.items ≡ slice_set objects.old.items place (new_object File) }
{
    objects[place] = Object::new(alloc, What::File);
}
