//! How the index of a brick follows a change of one copy's numbers.
ghost use Rattle.std.specs.Prelude.{◌≡◌, Some, IfSome, option_map};
ghost use Rattle.afr_brick.specs.Followed.{Follows, relisted};
ghost use Rattle.afr_object.specs.Tables.{copy_at};

use crate::object::Object;
use crate::store::Store;
use afr_base::Gfid;
use afr_index::Index;

/// Lists the copy where it has a number above zero, and takes it away where it has none. An index
/// that can't grow for want of memory is given up.
pub(crate) fn follow(index: &mut Option<Index>, store: &Store, g: Gfid)
    ensures { Follows g (copy_at g store.now.objects) index.old index.new }
{
    let Some(object) = store.get(g) else {
        return;
    };
    *index = relist(index.take(), g, object);
}

fn relist(index: Option<Index>, g: Gfid, object: &Object) -> Option<Index>
    ensures { IfSome result (λ listed. option_map (relisted g object.now) index ≡ Some listed) }
{
    let Some(mut index) = index else {
        return None;
    };
    if object.is_clean() {
        index.clear(g);
        return Some(index);
    }
    match index.set(g, object.what()) {
        Ok(()) => Some(index),
        Err(_) => None,
    }
}
