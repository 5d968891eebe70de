//! A map in the order of its keys, which contracts see as the list of its entries.
ghost use Rattle.std.specs.Prelude.{◌≡◌, [], List as PlainList, OnOk, OnErr, IfOk};
ghost use Rattle.std.specs.BTreeMap.{is_at, insert_entry};
ghost use Rattle.std.specs.List.Sorted.{IsStrictlySortedBy};
ghost use Rattle.std.specs.Map.{keys_of, lookup, remove_entry};

use crate::list::List;
use afr_base::NoMemory;
use std::alloc::Global;
use std::collections::BTreeMap;
use std::marker::Model;

/// Entries in the order of their keys, each key once.
#[derive(Drop)]
pub struct SortedMap<K: Ord, V> {
    map: BTreeMap<K, V>,
}

impl<K: Ord, V> Model for SortedMap<K, V> {
    ghost use Rattle.std.specs.Prelude.{List};

    ghost Value = { List (K × V) };

    ghost view = { λ m. m.map.entries };
}

impl<K: Ord, V> SortedMap<K, V> {
    pub fn new(alloc: Global) -> Self
        ensures { result ≡ [] }
    {
        SortedMap {
            map: BTreeMap::new(alloc),
        }
    }
}

impl<K: Ord + Copy + Drop, V: Copy> SortedMap<K, V> {
    /// The value of a key, in O(log n).
    pub fn get(&self, key: K) -> Option<V>
        ensures { result ≡ lookup (is_at (K.cmp key)) self.now }
    {
        self.map.get(&key).copied()
    }

    /// Gives a key this value, in O(log n).
    pub fn insert(&mut self, key: K, value: V) -> Result<(), NoMemory>
        ensures ok { OnOk result (self.new ≡ insert_entry K.cmp self.old key value) }
        ensures err { OnErr result (self.new ≡ self.old) }
    {
        match self.map.insert(key, value) {
            Ok(_) => Ok(()),
            Err(_) => Err(NoMemory),
        }
    }

    /// Takes a key away, in O(log n).
    pub fn remove(&mut self, key: K)
        ensures { self.new ≡ remove_entry (is_at (K.cmp key)) self.old }
    {
        self.map.remove(&key);
    }

    /// A map of entries that stand in order.
    pub fn from_list(alloc: Global, entries: &List<(K, V)>) -> Result<Self, NoMemory>
        requires { IsStrictlySortedBy K.cmp (keys_of entries.now) }
        ensures { IfOk result (λ map. map ≡ entries.now) }
    {
        let mut map = SortedMap::new(alloc);
        let len = entries.len();
        for i in 0..len {
            let (key, value) = *entries.item(len - 1 - i);
            map.insert(key, value)?;
        }
        Ok(map)
    }

    /// All entries, in order.
    pub fn list(&self, alloc: Global) -> Result<List<(K, V)>, NoMemory>
        ensures all { IfOk result (λ list. list ≡ self.now) }
        ensures order { IfOk result (λ list. IsStrictlySortedBy K.cmp (keys_of list)) }
    {
        let mut list = List::new(alloc);
        for (key, value) in self.map.iter() {
            list.push((*key, *value))?;
        }
        Ok(list)
    }
}
