//! The changelog numbers of a copy before and after an operation, and after a heal.
ghost use Rattle.std.specs.Prelude.{◌≡◌, ◌≢◌, ◌↔◌, None, IfOk, OnOk, OnErr, true};
ghost use Rattle.std.specs.List.Sorted.{IsStrictlySortedBy};
ghost use Rattle.std.specs.Map.{keys_of};
ghost use Rattle.afr_base.specs.Marks.{closed_op, dirtied, is_no_marks, taken_back};
ghost use Rattle.afr_object.specs.Indexed.{index_of};
ghost use Rattle.afr_object.specs.State.{CanPre, CanPost, CanSettle};
ghost use Rattle.afr_object.specs.Tables.{changed, copy_at, gfid_cmp, with_numbers};

use crate::object::Object;
use crate::places::{place_of, stand_in_order};
use crate::refused::Refused;
use crate::store::Store;
use afr_base::{BrickSet, Gfid, Kind, Marks};

/// Whether the copy still has a number above zero, or still has none.
fn stays(was: bool, object: &Object) -> bool
    ensures { result ≡ true → is_no_marks object.now.marks ≡ was }
{
    object.is_clean() == was
}

/// Each says whether an index of the copies stays as it is.
impl Store {
    /// The pre-op: one more operation is open on the copy.
    pub(crate) fn pre(&mut self, g: Gfid, kind: Kind) -> Result<bool, Refused>
        requires { CanPre kind g self.old.objects }
        ensures ok { OnOk result (self.new ≡ record self.old { objects = changed (with_numbers kind dirtied) g (copy_at g self.old.objects) self.old.objects }) }
        ensures absent { (result ≡ Err Refused.NoObject) ↔ (copy_at g self.old.objects ≡ None) }
        ensures never { result ≢ Err Refused.NoMemory }
        ensures err { OnErr result (self.new ≡ self.old) }
        ensures order { IsStrictlySortedBy gfid_cmp (keys_of self.old.objects) }
        ensures index { IfOk result (λ stays. stays ≡ true → index_of self.new.objects ≡ index_of self.old.objects) }
    {
        stand_in_order(&self.objects, &self.places);
        let Some(place) = place_of(&self.objects, &self.places, &self.shortcuts, g) else {
            return Err(Refused::NoObject);
        };
        let object = &mut self.objects[place];
        let was = object.is_clean();
        object.pre(kind);
        Ok(!was)
    }

    /// The post-op: one operation fewer is open, and each brick that missed it is accused.
    pub(crate) fn post(&mut self, g: Gfid, kind: Kind, missed: BrickSet) -> Result<bool, Refused>
        requires { CanPost kind g self.old.objects }
        ensures ok { OnOk result (self.new ≡ record self.old { objects = changed (with_numbers kind (closed_op missed)) g (copy_at g self.old.objects) self.old.objects }) }
        ensures absent { (result ≡ Err Refused.NoObject) ↔ (copy_at g self.old.objects ≡ None) }
        ensures never { result ≢ Err Refused.NoMemory }
        ensures err { OnErr result (self.new ≡ self.old) }
        ensures order { IsStrictlySortedBy gfid_cmp (keys_of self.old.objects) }
        ensures index { IfOk result (λ stays. stays ≡ true → index_of self.new.objects ≡ index_of self.old.objects) }
    {
        stand_in_order(&self.objects, &self.places);
        let Some(place) = place_of(&self.objects, &self.places, &self.shortcuts, g) else {
            return Err(Refused::NoObject);
        };
        let object = &mut self.objects[place];
        object.post(kind, missed);
        Ok(!object.is_clean())
    }

    /// Takes back the numbers that a heal has settled.
    pub(crate) fn settle(&mut self, g: Gfid, kind: Kind, less: &Marks) -> Result<bool, Refused>
        requires { CanSettle kind less.now g self.old.objects }
        ensures ok { OnOk result (self.new ≡ record self.old { objects = changed (with_numbers kind (taken_back less.now)) g (copy_at g self.old.objects) self.old.objects }) }
        ensures absent { (result ≡ Err Refused.NoObject) ↔ (copy_at g self.old.objects ≡ None) }
        ensures never { result ≢ Err Refused.NoMemory }
        ensures err { OnErr result (self.new ≡ self.old) }
        ensures order { IsStrictlySortedBy gfid_cmp (keys_of self.old.objects) }
        ensures index { IfOk result (λ stays. stays ≡ true → index_of self.new.objects ≡ index_of self.old.objects) }
    {
        stand_in_order(&self.objects, &self.places);
        let Some(place) = place_of(&self.objects, &self.places, &self.shortcuts, g) else {
            return Err(Refused::NoObject);
        };
        let object = &mut self.objects[place];
        let was = object.is_clean();
        object.settle(kind, less);
        Ok(stays(was, object))
    }
}
