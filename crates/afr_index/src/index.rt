//! An ordered map from gfid to kind of object, and a row of the objects that were listed last.
ghost use Rattle.std.specs.Prelude.{◌≡◌, [], OnOk, OnErr, IfOk};
ghost use Rattle.std.specs.BTreeMap.{is_at, insert_entry};
ghost use Rattle.std.specs.Map.{remove_entry};
ghost use Rattle.afr_object.specs.Tables.{gfid_cmp};
ghost use Rattle.afr_index.specs.Listed.{IsRising, Lists, Drops};

use crate::late::{drop_late, entries_of, make_place, put_in, take_out};
use afr_base::{Gfid, NoMemory, What};
use afr_object::{IndexList, List};
use std::alloc::Global;
use std::collections::BTreeMap;
use std::marker::Model;

/// The objects that may need heal. A brick keeps it equal to its objects with a changelog number
/// above zero, so a heal finds them without a walk over the volume.
#[derive(Drop)]
pub struct Index {
    alloc: Global,
    kinds: BTreeMap<Gfid, What>,
    /// The objects that were listed last, in that order, whatever the map has of them: most are taken away soon.
    late: Vec<(Gfid, What)>,
}

impl Model for Index {
    ghost use Rattle.afr_index.specs.Listed.{Listed, IsRising, with_all};

    ghost Value = { Listed };

    ghost view = { λ i. with_all i.late.items i.kinds.entries };

    ghost invariant = { λ i. IsRising i.kinds.entries };
}

impl Index {
    pub fn new(alloc: Global) -> Index
        ensures { result ≡ [] }
    {
        Index {
            alloc,
            kinds: BTreeMap::new(alloc),
            late: Vec::new(alloc),
        }
    }

    /// Lists an object as this kind, in O(log n).
    pub fn set(&mut self, g: Gfid, what: What) -> Result<(), NoMemory>
        ensures ok { OnOk result (self.new ≡ insert_entry gfid_cmp self.old g what) }
        ensures listed { OnOk result (Lists g what self.old self.new) }
        ensures err { OnErr result (self.new ≡ self.old) }
    {
        make_place(&mut self.kinds, &mut self.late)?;
        self.late.push((g, what))?;
        Ok(())
    }

    /// Takes an object away, in O(log n) and with no memory.
    pub fn clear(&mut self, g: Gfid)
        ensures same { self.new ≡ remove_entry (is_at (gfid_cmp g)) self.old }
        ensures dropped { Drops g self.old self.new }
    {
        drop_late(&mut self.late, g);
        take_out(&mut self.kinds, g);
    }

    /// All objects in rising gfid, in O(n).
    pub fn list(&self) -> Result<IndexList, NoMemory>
        ensures ok { IfOk result (λ list. list ≡ self.now) }
        ensures rising { IsRising self.now }
    {
        let mut list = entries_of(self.alloc, &self.kinds)?;
        for entry in self.late.as_slice() {
            put_in(&mut list, entry.0, entry.1)?;
        }
        Ok(List::from_vec(list))
    }
}
