//! A brick: its objects, and the index of those with a changelog number above zero.
ghost use Rattle.std.specs.Prelude.{◌≡◌, ◌≢◌, ◌↔◌, None, Some, true, false, not, IfOk, OnOk, OnErr, option_map};
ghost use Rattle.afr_base.specs.Marks.{closed_op, dirtied, taken_back};
ghost use Rattle.afr_object.specs.State.{CanApply, CanPost, CanPre, CanRepair, CanSettle, Copies, IsInOrder, contents_of, repair_takes_memory, takes_memory};
ghost use Rattle.afr_object.specs.Repairs.{mended, repaired};
ghost use Rattle.afr_object.specs.Tables.{applied, changed, copy_at, object_of, opening, root, view_of, with_numbers};

use crate::index::follow;
use crate::refused::Refused;
use crate::store::{ROOT, Store};
use afr_base::{BrickSet, Gfid, Kind, Marks, NameId, NoMemory, What};
use afr_index::Index;
use afr_object::{Change, Load, Repair, View};
use std::alloc::Global;
use std::marker::Model;

/// The objects of one brick, and their index. Each call takes O(log n) steps on n objects or names,
/// and one step for each byte or name that it moves; the index takes one for each object that it
/// lists. A pre-op never fails for want of memory: where the index can't grow, it is given up, and
/// from then on an index takes one step for each object.
#[derive(Drop)]
pub struct Brick {
    pub(crate) store: Store,
    pub(crate) index: Option<Index>,
}

impl Model for Brick {
    ghost use Rattle.afr_brick.specs.Followed.{IsIndexOf};
    ghost use Rattle.afr_object.specs.State.{Copies};

    ghost Value = { Copies };

    ghost view = { λ b. b.store };

    ghost invariant = { λ b. IsIndexOf b.store.objects b.index };
}

impl Brick {
    /// A brick with the root directory alone.
    pub fn empty(alloc: Global, arbiter: bool) -> Result<Brick, NoMemory>
        ensures { IfOk result (λ brick. brick ≡ record { keeps = not arbiter; objects = opening 0 }) }
    {
        let store = Store::empty(alloc, arbiter)?;
        Ok(Brick {
            store,
            index: Some(Index::new(alloc)),
        })
    }

    /// Makes a file that every brick has at the start.
    pub fn add_opening_file(&mut self, name: NameId, gfid: Gfid) -> Result<(), NoMemory>
        ensures ok { OnOk result (self.new ≡ record self.old { objects = applied true (Change.Make root name gfid What.File) self.old.objects }) }
        ensures err { OnErr result (self.new ≡ self.old) }
    {
        match self.store.make(ROOT, name, gfid, What::File) {
            Err(Refused::NoMemory) => Err(NoMemory),
            Ok(()) | Err(Refused::NoObject) => Ok(()),
        }
    }

    /// What the brick shows of its copy of the object.
    pub fn look(&self, g: Gfid) -> Option<View>
        ensures { result ≡ option_map view_of (copy_at g self.now.objects) }
    {
        self.store.look(g)
    }

    /// The same, written in its place. Yes says that there is a copy.
    pub fn show(&self, g: Gfid, view: &mut View) -> bool
        ensures yes { result ≡ true → option_map view_of (copy_at g self.now.objects) ≡ Some view.new }
        ensures no { result ≡ false → copy_at g self.now.objects ≡ None }
    {
        self.store.show(g, view)
    }

    /// Carries a change out. A change of bytes leaves a directory as it is, a change of names leaves
    /// a file, and an arbiter keeps no bytes.
    pub fn apply(&mut self, change: &Change) -> Result<(), Refused>
        requires { CanApply change.now self.old.objects }
        ensures ok { OnOk result (self.new ≡ record self.old { objects = applied self.old.keeps change.now self.old.objects }) }
        ensures absent { (result ≡ Err Refused.NoObject) ↔ (copy_at (object_of change.now) self.old.objects ≡ None) }
        ensures memory { result ≡ Err Refused.NoMemory → takes_memory change.now ≡ true }
        ensures err { OnErr result (self.new ≡ self.old) }
    {
        self.store.apply(change)
    }

    /// Carries a repair out with the contents that go with it. Contents of another sort change
    /// nothing.
    pub fn repair(&mut self, repair: &Repair, load: Load<'_>) -> Result<(), Refused>
        requires room { CanRepair repair.now (contents_of load) self.old.objects }
        requires order { IsInOrder (contents_of load) }
        ensures ok { OnOk result (self.new ≡ record self.old { objects = mended self.old.keeps repair.now (contents_of load.entry) self.old.objects }) }
        ensures absent { (result ≡ Err Refused.NoObject) ↔ (copy_at (repaired repair.now) self.old.objects ≡ None) }
        ensures memory { result ≡ Err Refused.NoMemory → repair_takes_memory repair.now ≡ true }
        ensures err { OnErr result (self.new ≡ self.old) }
    {
        self.store.repair(repair, load)
    }

    /// The pre-op: one more operation is open on the copy.
    pub fn pre(&mut self, g: Gfid, kind: Kind) -> Result<(), Refused>
        requires { CanPre kind g self.old.objects }
        ensures ok { OnOk result (self.new ≡ record self.old { objects = changed (with_numbers kind dirtied) g (copy_at g self.old.objects) self.old.objects }) }
        ensures absent { (result ≡ Err Refused.NoObject) ↔ (copy_at g self.old.objects ≡ None) }
        ensures never { result ≢ Err Refused.NoMemory }
        ensures err { OnErr result (self.new ≡ self.old) }
    {
        let stays = self.store.pre(g, kind)?;
        if stays {
            return Ok(());
        }
        follow(&mut self.index, &self.store, g);
        Ok(())
    }

    /// The post-op: one operation fewer is open, and each brick that missed it is accused.
    pub fn post(&mut self, g: Gfid, kind: Kind, missed: BrickSet) -> Result<(), Refused>
        requires { CanPost kind g self.old.objects }
        ensures ok { OnOk result (self.new ≡ record self.old { objects = changed (with_numbers kind (closed_op missed)) g (copy_at g self.old.objects) self.old.objects }) }
        ensures absent { (result ≡ Err Refused.NoObject) ↔ (copy_at g self.old.objects ≡ None) }
        ensures never { result ≢ Err Refused.NoMemory }
        ensures err { OnErr result (self.new ≡ self.old) }
    {
        let stays = self.store.post(g, kind, missed)?;
        if stays {
            return Ok(());
        }
        follow(&mut self.index, &self.store, g);
        Ok(())
    }

    /// Takes back the numbers that a heal has settled.
    pub fn settle(&mut self, g: Gfid, kind: Kind, less: &Marks) -> Result<(), Refused>
        requires { CanSettle kind less.now g self.old.objects }
        ensures ok { OnOk result (self.new ≡ record self.old { objects = changed (with_numbers kind (taken_back less.now)) g (copy_at g self.old.objects) self.old.objects }) }
        ensures absent { (result ≡ Err Refused.NoObject) ↔ (copy_at g self.old.objects ≡ None) }
        ensures never { result ≢ Err Refused.NoMemory }
        ensures err { OnErr result (self.new ≡ self.old) }
    {
        let stays = self.store.settle(g, kind, less)?;
        if stays {
            return Ok(());
        }
        follow(&mut self.index, &self.store, g);
        Ok(())
    }
}
