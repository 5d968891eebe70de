//! What each change makes of a brick's copies.
ghost use Rattle.std.specs.Prelude.{◌≡◌, ◌≢◌, ◌+◌, ◌≤◌, ◌↔◌, None, true, false, IfSome, OnOk, OnErr, is_some, length, take};
ghost use Rattle.std.specs.BTreeMap.{insert_entry, is_at};
ghost use Rattle.std.specs.Map.{remove_entry};
ghost use Rattle.afr_object.specs.Bytes.{written};
ghost use Rattle.afr_object.specs.State.{CanApply, takes_memory};
ghost use Rattle.afr_object.specs.Tables.{applied, changed, copy_at, gfid_cmp, linked, name_cmp, new_object, object_of, with_attr, with_bytes, with_names};

use crate::object::Object;
use crate::places::{give_up, place_of};
use crate::refused::Refused;
use crate::store::Store;
use afr_base::{Gfid, KeyId, NameId, NoMemory, ValueId, What};
use afr_object::{Change, Chunk, Entry};

impl Store {
    /// Carries a change out. A change of bytes leaves a directory as it is, a change of names leaves
    /// a file, and an arbiter keeps no bytes.
    pub(crate) fn apply(&mut self, change: &Change) -> Result<(), Refused>
        requires { CanApply change.now self.old.objects }
        ensures ok { OnOk result (self.new ≡ record self.old { objects = applied self.old.keeps change.now self.old.objects }) }
        ensures absent { (result ≡ Err Refused.NoObject) ↔ (copy_at (object_of change.now) self.old.objects ≡ None) }
        ensures memory { result ≡ Err Refused.NoMemory → takes_memory change.now ≡ true }
        ensures err { OnErr result (self.new ≡ self.old) }
    {
        match change {
            Change::Write { gfid, at, bytes } => self.write(*gfid, *at, bytes),
            Change::Cut { gfid, len } => self.cut(*gfid, *len),
            Change::SetAttr { gfid, key, value } => self.set_attr(*gfid, *key, *value),
            Change::Make {
                dir,
                name,
                gfid,
                what,
            } => self.make(*dir, *name, *gfid, *what),
            Change::Remove { dir, name, .. } => self.remove(*dir, *name),
        }
    }

    #[tactic(auto, using(std::proofs::lemmas::Map::Steps::set_value_same))]
    fn write(&mut self, g: Gfid, at: u32, bytes: &Chunk) -> Result<(), Refused>
        requires { IfSome (copy_at g self.old.objects) (λ _. at + length bytes.now ≤ 1048576) }
        ensures ok { OnOk result (self.new ≡ record self.old { objects = changed (with_bytes self.old.keeps (written at bytes.now)) g (copy_at g self.old.objects) self.old.objects }) }
        ensures absent { (result ≡ Err Refused.NoObject) ↔ (copy_at g self.old.objects ≡ None) }
        ensures err { OnErr result (self.new ≡ self.old) }
    {
        let Some(place) = place_of(&self.objects, &self.places, &self.shortcuts, g) else {
            return Err(Refused::NoObject);
        };
        let object = &mut self.objects[place];
        object.write(self.keeps, at, bytes.as_slice())?;
        Ok(())
    }

    #[tactic(auto, using(std::proofs::lemmas::Map::Steps::set_value_same))]
    pub(crate) fn cut(&mut self, g: Gfid, len: u32) -> Result<(), Refused>
        ensures ok { OnOk result (self.new ≡ record self.old { objects = changed (with_bytes self.old.keeps (take len)) g (copy_at g self.old.objects) self.old.objects }) }
        ensures absent { (result ≡ Err Refused.NoObject) ↔ (copy_at g self.old.objects ≡ None) }
        ensures never { result ≢ Err Refused.NoMemory }
        ensures err { OnErr result (self.new ≡ self.old) }
    {
        let Some(place) = place_of(&self.objects, &self.places, &self.shortcuts, g) else {
            return Err(Refused::NoObject);
        };
        let object = &mut self.objects[place];
        object.cut(self.keeps, len);
        Ok(())
    }

    #[tactic(auto, using(std::proofs::lemmas::Map::Steps::set_value_same))]
    fn set_attr(&mut self, g: Gfid, key: KeyId, value: ValueId) -> Result<(), Refused>
        ensures ok { OnOk result (self.new ≡ record self.old { objects = changed (with_attr key value) g (copy_at g self.old.objects) self.old.objects }) }
        ensures absent { (result ≡ Err Refused.NoObject) ↔ (copy_at g self.old.objects ≡ None) }
        ensures err { OnErr result (self.new ≡ self.old) }
    {
        let Some(place) = place_of(&self.objects, &self.places, &self.shortcuts, g) else {
            return Err(Refused::NoObject);
        };
        let object = &mut self.objects[place];
        object.set_attr(key, value)?;
        Ok(())
    }

    #[tactic(auto, using(std::proofs::lemmas::Map::Steps::set_value_same))]
    fn remove(&mut self, dir: Gfid, name: NameId) -> Result<(), Refused>
        ensures ok { OnOk result (self.new ≡ record self.old { objects = changed (with_names (remove_entry (is_at (name_cmp name)))) dir (copy_at dir self.old.objects) self.old.objects }) }
        ensures absent { (result ≡ Err Refused.NoObject) ↔ (copy_at dir self.old.objects ≡ None) }
        ensures never { result ≢ Err Refused.NoMemory }
        ensures err { OnErr result (self.new ≡ self.old) }
    {
        let Some(place) = place_of(&self.objects, &self.places, &self.shortcuts, dir) else {
            return Err(Refused::NoObject);
        };
        let object = &mut self.objects[place];
        object.drop_name(name);
        Ok(())
    }

    /// Adds the name, and the object where the brick lacks it.
    pub(crate) fn make(
        &mut self,
        dir: Gfid,
        name: NameId,
        gfid: Gfid,
        what: What,
    ) -> Result<(), Refused>
        ensures ok { OnOk result (self.new ≡ record self.old { objects = linked dir name gfid what (copy_at dir self.old.objects) self.old.objects }) }
        ensures absent { (result ≡ Err Refused.NoObject) ↔ (copy_at dir self.old.objects ≡ None) }
        ensures err { OnErr result (self.new ≡ self.old) }
    {
        if !self.has(dir) {
            return Err(Refused::NoObject);
        }
        if self.has(gfid) {
            return self.add_name(dir, name, Entry { gfid, what });
        }
        self.make_new(dir, name, gfid, what)
    }

    /// Adds an object that the brick lacks, and its name. Where there is no memory for the name, the
    /// object goes again.
    fn make_new(&mut self, dir: Gfid, name: NameId, gfid: Gfid, what: What) -> Result<(), Refused>
        requires dir { is_some (copy_at dir self.old.objects) ≡ true }
        requires new { is_some (copy_at gfid self.old.objects) ≡ false }
        ensures ok { OnOk result (self.new ≡ record self.old { objects = linked dir name gfid what (copy_at dir self.old.objects) self.old.objects }) }
        ensures found { result ≢ Err Refused.NoObject }
        ensures err { OnErr result (self.new ≡ self.old) }
    {
        self.add_object(gfid, what)?;
        match self.add_name(dir, name, Entry { gfid, what }) {
            Ok(()) => Ok(()),
            Err(refused) => {
                self.drop_object(gfid);
                Err(refused)
            }
        }
    }

    pub(crate) fn add_object(&mut self, gfid: Gfid, what: What) -> Result<(), NoMemory>
        requires { is_some (copy_at gfid self.old.objects) ≡ false }
        ensures ok { OnOk result (self.new ≡ record self.old { objects = insert_entry gfid_cmp self.old.objects gfid (new_object what) }) }
        ensures err { OnErr result (self.new ≡ self.old) }
    {
        let place = self.objects.as_slice().len();
        self.objects.push(Object::new(self.alloc, what))?;
        self.places.insert(gfid, place)?;
        self.shortcuts.add(gfid, place);
        Ok(())
    }

    pub(crate) fn drop_object(&mut self, gfid: Gfid)
        ensures { self.new ≡ record self.old { objects = remove_entry (is_at (gfid_cmp gfid)) self.old.objects } }
    {
        give_up(self.alloc, &mut self.objects, &mut self.places, gfid);
        self.shortcuts.clear();
    }

    #[tactic(auto, using(std::proofs::lemmas::Map::Steps::set_value_same))]
    fn add_name(&mut self, dir: Gfid, name: NameId, entry: Entry) -> Result<(), Refused>
        ensures ok { OnOk result (self.new ≡ record self.old { objects = changed (with_names (λ names. insert_entry name_cmp names name entry)) dir (copy_at dir self.old.objects) self.old.objects }) }
        ensures absent { (result ≡ Err Refused.NoObject) ↔ (copy_at dir self.old.objects ≡ None) }
        ensures err { OnErr result (self.new ≡ self.old) }
    {
        let Some(place) = place_of(&self.objects, &self.places, &self.shortcuts, dir) else {
            return Err(Refused::NoObject);
        };
        let object = &mut self.objects[place];
        object.put_name(name, entry)?;
        Ok(())
    }
}
