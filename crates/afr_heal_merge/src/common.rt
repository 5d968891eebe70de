//! The list that is the merge of all, where they are the same: so it is wherever the copies are good.
ghost use Rattle.std.specs.Prelude.{◌≡◌, Contains, IfSome, Some, true};
ghost use Rattle.std.specs.List.Sorted.{IsStrictlySortedBy};
ghost use Rattle.std.specs.Map.{keys_of};
ghost use Rattle.afr_heal_merge.specs.Merging.{AreAll, present};
ghost use Rattle.afr_object.specs.Repairs.{merged};
ghost use Rattle.afr_object.specs.Tables.{name_cmp};

use crate::same::{are_same_names, is_rising};
use afr_object::NameList;

/// The first list that there is.
fn first_of(lists: &[Option<NameList>; 5]) -> Option<&NameList>
    ensures { IfSome result (λ names. Contains lists.now (Some names.now)) }
{
    for i in 0..5usize {
        if let Some(names) = &lists[i] {
            return Some(names);
        }
    }
    None
}

/// Whether each list that there is, is this one.
fn are_all(names: &NameList, lists: &[Option<NameList>; 5]) -> bool
    ensures { result ≡ true → AreAll names.now lists.now }
{
    for i in 0..5usize {
        if let Some(list) = &lists[4 - i] {
            if !are_same_names(names, list) {
                return false;
            }
        }
    }
    true
}

/// The merge, where one of the lists is it.
pub(crate) fn common(lists: &[Option<NameList>; 5]) -> Option<&NameList>
    ensures merge { IfSome result (λ names. names.now ≡ merged (present lists.now)) }
    ensures order { IfSome result (λ names. IsStrictlySortedBy name_cmp (keys_of names.now)) }
{
    let Some(names) = first_of(lists) else {
        return None;
    };
    if !are_all(names, lists) {
        return None;
    }
    if !is_rising(names) {
        return None;
    }
    Some(names)
}
