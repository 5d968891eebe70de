//! The merge of up to five lists of names.
ghost use Rattle.std.specs.Prelude.{◌≡◌, IfOk, OnOk};
ghost use Rattle.std.specs.List.Sorted.{IsStrictlySortedBy};
ghost use Rattle.std.specs.Map.{keys_of, lookup};
ghost use Rattle.afr_heal_merge.specs.Merging.{present};
ghost use Rattle.afr_object.specs.Repairs.{higher, merged, merged_into, outranks};
ghost use Rattle.afr_object.specs.Tables.{name_cmp};

use crate::common::common;
use afr_base::{NameId, NoMemory, What};
use afr_object::{Entry, NameList, SortedMap, TryCopy};
use std::alloc::Global;

/// The names of all lists that there are, in order: for k names in O(k) where the lists are the same, else in O(k log k). Of
/// two entries for a name the one with the greater gfid stands.
pub fn merged_names(alloc: Global, lists: &[Option<NameList>; 5]) -> Result<NameList, NoMemory>
    ensures ok { IfOk result (λ names. names ≡ merged (present lists.now)) }
    ensures order { IfOk result (λ names. IsStrictlySortedBy name_cmp (keys_of names)) }
{
    match common(lists) {
        Some(names) => names.copy(),
        None => merge_all(alloc, lists),
    }
}

/// The merge of lists that differ.
fn merge_all(alloc: Global, lists: &[Option<NameList>; 5]) -> Result<NameList, NoMemory>
    ensures ok { IfOk result (λ names. names ≡ merged (present lists.now)) }
    ensures order { IfOk result (λ names. IsStrictlySortedBy name_cmp (keys_of names)) }
{
    let mut names = SortedMap::new(alloc);
    for i in 0..5usize {
        if let Some(list) = &lists[4 - i] {
            put_all(&mut names, list)?;
        }
    }
    names.list(alloc)
}

/// Puts a list into the names, its last name first.
fn put_all(names: &mut SortedMap<NameId, Entry>, list: &NameList) -> Result<(), NoMemory>
    ensures ok { OnOk result (names.new ≡ merged_into names.old list.now) }
{
    let len = list.len();
    for i in 0..len {
        let (name, entry) = *list.item(len - 1 - i);
        let stands = higher(entry, names.get(name));
        names.insert(name, stands)?;
    }
    Ok(())
}

/// The entry, or the one that stands in its place.
fn higher(entry: Entry, other: Option<Entry>) -> Entry
    ensures { result ≡ higher entry other }
{
    match other {
        None => entry,
        Some(other) => { if outranks(entry, other) { entry } else { other } }
    }
}

/// Whether the entry stands in the other's place: the greater gfid does, and of one gfid the
/// directory.
fn outranks(entry: Entry, other: Entry) -> bool
    ensures { result ≡ outranks entry other }
{
    other.gfid.0 < entry.gfid.0 || (entry.gfid == other.gfid && entry.what == What::Dir)
}
