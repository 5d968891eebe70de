//! Whether lists of attributes are the same.
ghost use Rattle.std.specs.Prelude.{◌≡◌, true};

use afr_base::{KeyId, ValueId};
use afr_object::AttrList;

fn is_same(one: (KeyId, ValueId), other: (KeyId, ValueId)) -> bool
    ensures { result ≡ true → one ≡ other }
{
    if one.0.0 != other.0.0 {
        return false;
    }
    one.1.0 == other.1.0
}

/// Whether two lists of attributes are the same, in O(k) for k attributes.
pub(crate) fn are_same_attrs(one: &AttrList, other: &AttrList) -> bool
    ensures { result ≡ true → one.now ≡ other.now }
{
    let len = one.len();
    if len != other.len() {
        return false;
    }
    for i in 0..len {
        if !is_same(*one.item(len - 1 - i), *other.item(len - 1 - i)) {
            return false;
        }
    }
    true
}
