//! What each repair of a heal makes of a brick's copies.
ghost use Rattle.std.specs.Prelude.{◌≡◌, ◌≢◌, ◌+◌, ◌≤◌, ◌↔◌, None, true, IfOk, IfSome, OnOk, OnErr, is_some, length, reverse};
ghost use Rattle.std.specs.List.Sorted.{IsStrictlySortedBy};
ghost use Rattle.std.specs.Map.{keys_of};
ghost use Rattle.afr_object.specs.Bytes.{copied_in};
ghost use Rattle.afr_object.specs.State.{CanRepair, IsInOrder, contents_of, repair_takes_memory};
ghost use Rattle.afr_brick.specs.Undone.{without};
ghost use Rattle.afr_object.specs.Repairs.{all_made, mended, renamed, repaired, with_attrs};
ghost use Rattle.afr_object.specs.Tables.{changed, copy_at, key_cmp, made, name_cmp, with_bytes, with_names};

use crate::places::place_of;
use crate::refused::Refused;
use crate::store::Store;
use afr_base::{Gfid, NameId, NoMemory};
use afr_heal_merge::are_same_names;
use afr_object::{AttrList, Entry, Load, NameList, Repair, SortedMap};

impl Store {
    /// Carries a repair out with the contents that go with it. Contents of another sort change
    /// nothing.
    pub(crate) fn repair(&mut self, repair: &Repair, load: Load<'_>) -> Result<(), Refused>
        requires room { CanRepair repair.now (contents_of load) self.old.objects }
        requires order { IsInOrder (contents_of load) }
        ensures ok { OnOk result (self.new ≡ record self.old { objects = mended self.old.keeps repair.now (contents_of load.entry) self.old.objects }) }
        ensures absent { (result ≡ Err Refused.NoObject) ↔ (copy_at (repaired repair.now) self.old.objects ≡ None) }
        ensures memory { result ≡ Err Refused.NoMemory → repair_takes_memory repair.now ≡ true }
        ensures err { OnErr result (self.new ≡ self.old) }
    {
        match repair {
            Repair::CutTo { gfid, len } => self.cut(*gfid, *len),
            Repair::Copy { gfid, at, span, .. } => match load {
                Load::Bytes(bytes) => self.copy_in(*gfid, *at, *span, bytes),
                _ => self.find(*gfid),
            },
            Repair::PutAttrs { gfid, .. } => match load {
                Load::Attrs(attrs) => self.put_attrs(*gfid, attrs),
                _ => self.find(*gfid),
            },
            Repair::PutNames { gfid, .. } => match load {
                Load::Names(names) => self.put_names(*gfid, names),
                _ => self.find(*gfid),
            },
        }
    }

    /// Whether there is a copy.
    fn find(&self, g: Gfid) -> Result<(), Refused>
        ensures absent { (result ≡ Err Refused.NoObject) ↔ (copy_at g self.now.objects ≡ None) }
        ensures never { result ≢ Err Refused.NoMemory }
    {
        if self.has(g) {
            Ok(())
        } else {
            Err(Refused::NoObject)
        }
    }

    #[tactic(auto, using(std::proofs::lemmas::Map::Steps::set_value_same))]
    fn copy_in(&mut self, g: Gfid, at: u32, span: u32, bytes: &[u8]) -> Result<(), Refused>
        requires { IfSome (copy_at g self.old.objects) (λ _. (at + span ≤ 1048576) × (length bytes.now ≤ span)) }
        ensures ok { OnOk result (self.new ≡ record self.old { objects = changed (with_bytes self.old.keeps (copied_in at span bytes.now)) g (copy_at g self.old.objects) self.old.objects }) }
        ensures absent { (result ≡ Err Refused.NoObject) ↔ (copy_at g self.old.objects ≡ None) }
        ensures err { OnErr result (self.new ≡ self.old) }
    {
        let Some(place) = place_of(&self.objects, &self.places, &self.shortcuts, g) else {
            return Err(Refused::NoObject);
        };
        let object = &mut self.objects[place];
        object.copy_in(self.keeps, at, span, bytes)?;
        Ok(())
    }

    #[tactic(auto, using(std::proofs::lemmas::Map::Steps::set_value_same))]
    fn put_attrs(&mut self, g: Gfid, attrs: &AttrList) -> Result<(), Refused>
        requires { IsStrictlySortedBy key_cmp (keys_of attrs.now) }
        ensures ok { OnOk result (self.new ≡ record self.old { objects = changed (with_attrs attrs.now) g (copy_at g self.old.objects) self.old.objects }) }
        ensures absent { (result ≡ Err Refused.NoObject) ↔ (copy_at g self.old.objects ≡ None) }
        ensures err { OnErr result (self.new ≡ self.old) }
    {
        let Some(place) = place_of(&self.objects, &self.places, &self.shortcuts, g) else {
            return Err(Refused::NoObject);
        };
        let object = &mut self.objects[place];
        object.renew_attrs(self.alloc, attrs)?;
        Ok(())
    }

    /// Gives a directory these names, and makes the objects that they name. Names that it has are not made anew.
    fn put_names(&mut self, g: Gfid, names: &NameList) -> Result<(), Refused>
        requires { IsStrictlySortedBy name_cmp (keys_of names.now) }
        ensures ok { OnOk result (self.new ≡ record self.old { objects = renamed names.now g (copy_at g self.old.objects) self.old.objects }) }
        ensures absent { (result ≡ Err Refused.NoObject) ↔ (copy_at g self.old.objects ≡ None) }
        ensures err { OnErr result (self.new ≡ self.old) }
    {
        let has = self.has_names(g, names)?;
        if has {
            self.make_all(names)?;
            return Ok(());
        }
        self.replace_names(g, names)
    }

    /// Replaces the names of a directory, and makes the objects that they name. Memory for both
    /// comes before the names change.
    fn replace_names(&mut self, g: Gfid, names: &NameList) -> Result<(), Refused>
        requires { IsStrictlySortedBy name_cmp (keys_of names.now) }
        ensures ok { OnOk result (self.new ≡ record self.old { objects = renamed names.now g (copy_at g self.old.objects) self.old.objects }) }
        ensures absent { (result ≡ Err Refused.NoObject) ↔ (copy_at g self.old.objects ≡ None) }
        ensures err { OnErr result (self.new ≡ self.old) }
    {
        self.find(g)?;
        let map = SortedMap::from_list(self.alloc, names)?;
        self.make_all(names)?;
        self.rename(g, map);
        Ok(())
    }

    /// Whether the copy has these names.
    fn has_names(&self, g: Gfid, names: &NameList) -> Result<bool, Refused>
        ensures has { IfOk result (λ has. has ≡ true → IfSome (copy_at g self.now.objects) (λ o. o.names ≡ names.now)) }
        ensures absent { (result ≡ Err Refused.NoObject) ↔ (copy_at g self.now.objects ≡ None) }
    {
        let Some(object) = self.get(g) else {
            return Err(Refused::NoObject);
        };
        let kept = object.names().list(self.alloc)?;
        Ok(are_same_names(&kept, names))
    }

    fn rename(&mut self, g: Gfid, names: SortedMap<NameId, Entry>)
        ensures { self.new ≡ record self.old { objects = changed (with_names (λ old. names)) g (copy_at g self.old.objects) self.old.objects } }
    {
        if let Some(place) = place_of(&self.objects, &self.places, &self.shortcuts, g) {
            self.objects[place].put_names(names);
        }
    }

    /// Makes the objects of these entries where the brick lacks them, the last first. Where memory
    /// runs out, those that were made go again.
    fn make_all(&mut self, names: &NameList) -> Result<(), NoMemory>
        ensures ok { OnOk result (self.new ≡ record self.old { objects = all_made names.now self.old.objects }) }
        ensures err { OnErr result (self.new ≡ self.old) }
    {
        let mut fresh = Vec::new(self.alloc);
        let len = names.len();
        for i in 0..len {
            let (_, entry) = *names.item(len - 1 - i);
            match self.make_one(entry, &mut fresh) {
                Ok(()) => {}
                Err(refused) => {
                    self.drop_all(&fresh);
                    return Err(refused);
                }
            }
        }
        Ok(())
    }

    /// Makes an object where the brick lacks it, and keeps account of those that are new.
    fn make_one(&mut self, entry: Entry, fresh: &mut Vec<Gfid>) -> Result<(), NoMemory>
        ensures ok { OnOk result (self.new ≡ record self.old { objects = made entry.gfid entry.what self.old.objects }) }
        ensures err { OnErr result (self.new ≡ self.old) }
        ensures undo { without (reverse fresh.new.items) self.new.objects ≡ without (reverse fresh.old.items) self.old.objects }
    {
        if self.has(entry.gfid) {
            return Ok(());
        }
        self.add_object(entry.gfid, entry.what)?;
        match fresh.push(entry.gfid) {
            Ok(()) => Ok(()),
            Err(_) => {
                self.drop_object(entry.gfid);
                Err(NoMemory)
            }
        }
    }

    fn drop_all(&mut self, gfids: &[Gfid])
        ensures { self.new ≡ record self.old { objects = without (reverse gfids.now) self.old.objects } }
    {
        let len = gfids.len();
        for i in 0..len {
            self.drop_object(gfids[len - 1 - i]);
        }
    }
}
