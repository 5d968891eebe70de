//! Whether lists of names are the same, and in order.
ghost use Rattle.std.specs.Prelude.{◌≡◌, ◌<◌, drop, length, suc, true};
ghost use Rattle.std.specs.List.Sorted.{IsStrictlySortedBy};
ghost use Rattle.std.specs.Map.{keys_of};
ghost use Rattle.afr_object.specs.Tables.{name_cmp};

use afr_base::{NameId, What};
use afr_object::{Entry, NameList};

fn is_same_what(one: What, other: What) -> bool
    ensures { result ≡ true → one ≡ other }
{
    match (one, other) {
        (What::File, What::File) => true,
        (What::Dir, What::Dir) => true,
        _ => false,
    }
}

fn is_same(one: (NameId, Entry), other: (NameId, Entry)) -> bool
    ensures { result ≡ true → one ≡ other }
{
    if one.0.0 != other.0.0 {
        return false;
    }
    if one.1.gfid.0 != other.1.gfid.0 {
        return false;
    }
    is_same_what(one.1.what, other.1.what)
}

/// Whether two lists of names are the same, in O(k) for k names.
pub fn are_same_names(one: &NameList, other: &NameList) -> bool
    ensures { result ≡ true → one.now ≡ other.now }
{
    let len = one.len();
    if len != other.len() {
        return false;
    }
    for i in 0..len {
        if !is_same(*one.item(len - 1 - i), *other.item(len - 1 - i)) {
            return false;
        }
    }
    true
}

fn is_below(low: (NameId, Entry), high: (NameId, Entry)) -> bool
    ensures { result ≡ true → low.0.0 < high.0.0 }
{
    low.0.0 < high.0.0
}

/// Whether the name at this place is below the next, so that the list rises from there on where it does from the next.
fn is_below_next(names: &NameList, place: usize) -> bool
    requires { place < length names.now }
    ensures { result ≡ true → IsStrictlySortedBy name_cmp (keys_of (drop (suc place) names.now)) → IsStrictlySortedBy name_cmp (keys_of (drop place names.now)) }
{
    let len = names.len();
    let next = place + 1;
    if next < len {
        return is_below(*names.item(place), *names.item(next));
    }
    true
}

/// Whether the names rise, each once.
pub(crate) fn is_rising(names: &NameList) -> bool
    ensures { result ≡ true → IsStrictlySortedBy name_cmp (keys_of names.now) }
{
    let len = names.len();
    for i in 0..len {
        if !is_below_next(names, len - 1 - i) {
            return false;
        }
    }
    true
}
