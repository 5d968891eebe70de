//! The objects of a brick, without its index, and looks at its copies.
ghost use Rattle.std.specs.Prelude.{◌≡◌, [], true, false, None, Some, not, is_some, IfOk, option_map};
ghost use Rattle.std.specs.Option.{option_copied};
ghost use Rattle.afr_object.specs.State.{Copies};
ghost use Rattle.afr_object.specs.Indexed.{index_of};
ghost use Rattle.afr_object.specs.Tables.{copy_at, opening, view_of};

use crate::object::Object;
use crate::places::place_of;
use crate::shortcuts::Shortcuts;
use afr_base::{Gfid, NoMemory, What};
use afr_object::{IndexList, List, View};
use std::alloc::Global;
use std::collections::BTreeMap;
use std::marker::Model;

pub(crate) const ROOT: Gfid = Gfid(1);

/// The objects of one brick, in the order in which they were made, and where each stands among them.
#[derive(Drop)]
pub struct Store {
    pub(crate) keeps: bool,
    pub(crate) alloc: Global,
    pub(crate) objects: Vec<Object>,
    pub(crate) places: BTreeMap<Gfid, usize>,
    /// The places of objects that are found without a search.
    pub(crate) shortcuts: Shortcuts,
}

impl Model for Store {
    ghost use Rattle.afr_object.specs.State.{Copies};
    ghost use Rattle.afr_brick.specs.Placed.{IsPlaced, table};

    ghost Value = { Copies };

    ghost view = { λ s. record { keeps = s.keeps; objects = table s.objects.items s.places.entries } };

    ghost invariant = { λ s. IsPlaced s.objects.items s.places.entries s.shortcuts };
}

impl Store {
    /// No object. It takes no memory.
    fn bare(alloc: Global, keeps: bool) -> Store
        ensures { result ≡ record { keeps = keeps; objects = [] } }
    {
        let objects = Vec::new(alloc);
        let places = BTreeMap::new(alloc);
        let shortcuts = Shortcuts::new(alloc);
        Store {
            keeps,
            alloc,
            objects,
            places,
            shortcuts,
        }
    }

    /// The root directory alone.
    pub(crate) fn empty(alloc: Global, arbiter: bool) -> Result<Store, NoMemory>
        ensures { IfOk result (λ store. store ≡ record { keeps = not arbiter; objects = opening 0 }) }
    {
        let keeps = !arbiter;
        let mut store = Store::bare(alloc, keeps);
        store.add_object(ROOT, What::Dir)?;
        Ok(store)
    }

    /// The brick's copy of an object.
    #[inline]
    pub(crate) fn get(&self, g: Gfid) -> Option<&Object>
        ensures value { option_copied result ≡ copy_at g self.now.objects }
    {
        match place_of(&self.objects, &self.places, &self.shortcuts, g) {
            Some(place) => Some(&self.objects[place]),
            None => None,
        }
    }

    /// What is shown of a copy, written in its place. Yes says that there is one.
    pub(crate) fn show(&self, g: Gfid, view: &mut View) -> bool
        ensures yes { result ≡ true → option_map view_of (copy_at g self.now.objects) ≡ Some view.new }
        ensures no { result ≡ false → copy_at g self.now.objects ≡ None }
    {
        match self.get(g) {
            Some(object) => {
                object.show(view);
                true
            }
            None => false,
        }
    }

    /// Whether the brick has a copy of it.
    pub(crate) fn has(&self, g: Gfid) -> bool
        ensures { result ≡ is_some (copy_at g self.now.objects) }
    {
        self.get(g).is_some()
    }

    /// What is shown of a copy.
    pub(crate) fn look(&self, g: Gfid) -> Option<View>
        ensures { result ≡ option_map view_of (copy_at g self.now.objects) }
    {
        match self.get(g) {
            Some(object) => Some(object.view()),
            None => None,
        }
    }

    /// The objects with a number above zero, in rising gfid, by a walk over all of them.
    pub(crate) fn walk(&self) -> Result<IndexList, NoMemory>
        ensures { IfOk result (λ list. list ≡ index_of self.now.objects) }
    {
        let mut list = List::new(self.alloc);
        for (g, place) in self.places.iter() {
            let object = &self.objects[*place];
            if !object.is_clean() {
                list.push((*g, object.what()))?;
            }
        }
        Ok(list)
    }
}
