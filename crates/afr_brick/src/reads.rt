//! What a client reads of a copy: bytes, names and attributes.
ghost use Rattle.std.specs.Prelude.{◌≡◌, ◌≢◌, ◌↔◌, None, Some, IfOk, drop, option_map, take};
ghost use Rattle.std.specs.BTreeMap.{is_at};
ghost use Rattle.std.specs.List.Sorted.{IsStrictlySortedBy};
ghost use Rattle.std.specs.Map.{keys_of, lookup};
ghost use Rattle.afr_object.specs.Indexed.{index_of};
ghost use Rattle.afr_object.specs.Tables.{copy_at, key_cmp, name_cmp};

use crate::brick::Brick;
use crate::refused::Refused;
use afr_base::{Gfid, KeyId, NameId, NoMemory, ValueId};
use afr_content::Content;
use afr_object::{AttrList, Chunk, Entry, IndexList, NameList};
use std::alloc::Global;

impl Brick {
    /// At most `len` bytes of a file, from `at` on. A directory, and a file on the arbiter, has none.
    pub fn read_bytes(&self, g: Gfid, at: u32, len: u32) -> Result<Chunk, Refused>
        ensures ok { IfOk result (λ bytes. option_map (λ o. take len (drop at o.content)) (copy_at g self.now.objects) ≡ Some bytes) }
        ensures absent { (result ≡ Err Refused.NoObject) ↔ (copy_at g self.now.objects ≡ None) }
    {
        let store = &self.store;
        let Some(object) = store.get(g) else {
            return Err(Refused::NoObject);
        };
        let bytes = chunk_of(store.alloc, object.content(), at, len)?;
        Ok(bytes)
    }

    /// What a name of a directory stands for.
    pub fn read_name(&self, g: Gfid, name: NameId) -> Result<Option<Entry>, Refused>
        ensures ok { IfOk result (λ entry. option_map (λ o. lookup (is_at (name_cmp name)) o.names) (copy_at g self.now.objects) ≡ Some entry) }
        ensures absent { (result ≡ Err Refused.NoObject) ↔ (copy_at g self.now.objects ≡ None) }
        ensures never { result ≢ Err Refused.NoMemory }
    {
        let store = &self.store;
        let Some(object) = store.get(g) else {
            return Err(Refused::NoObject);
        };
        Ok(object.names().get(name))
    }

    /// All names of a directory. A file has none.
    pub fn list(&self, g: Gfid) -> Result<NameList, Refused>
        ensures ok { IfOk result (λ names. option_map (λ o. o.names) (copy_at g self.now.objects) ≡ Some names) }
        ensures order { IfOk result (λ names. IsStrictlySortedBy name_cmp (keys_of names)) }
        ensures absent { (result ≡ Err Refused.NoObject) ↔ (copy_at g self.now.objects ≡ None) }
    {
        let store = &self.store;
        let Some(object) = store.get(g) else {
            return Err(Refused::NoObject);
        };
        let names = object.names().list(store.alloc)?;
        Ok(names)
    }

    /// The value of an attribute.
    pub fn read_attr(&self, g: Gfid, key: KeyId) -> Result<Option<ValueId>, Refused>
        ensures ok { IfOk result (λ value. option_map (λ o. lookup (is_at (key_cmp key)) o.attrs) (copy_at g self.now.objects) ≡ Some value) }
        ensures absent { (result ≡ Err Refused.NoObject) ↔ (copy_at g self.now.objects ≡ None) }
        ensures never { result ≢ Err Refused.NoMemory }
    {
        let store = &self.store;
        let Some(object) = store.get(g) else {
            return Err(Refused::NoObject);
        };
        Ok(object.attrs().get(key))
    }

    /// All attributes of an object.
    pub fn read_attrs(&self, g: Gfid) -> Result<AttrList, Refused>
        ensures ok { IfOk result (λ attrs. option_map (λ o. o.attrs) (copy_at g self.now.objects) ≡ Some attrs) }
        ensures order { IfOk result (λ attrs. IsStrictlySortedBy key_cmp (keys_of attrs)) }
        ensures absent { (result ≡ Err Refused.NoObject) ↔ (copy_at g self.now.objects ≡ None) }
    {
        let store = &self.store;
        let Some(object) = store.get(g) else {
            return Err(Refused::NoObject);
        };
        let attrs = object.attrs().list(store.alloc)?;
        Ok(attrs)
    }

    /// The objects with a number above zero, in rising gfid: one step for each of them.
    pub fn index(&self) -> Result<IndexList, NoMemory>
        ensures ok { IfOk result (λ list. list ≡ index_of self.now.objects) }
    {
        match &self.index {
            Some(index) => index.list(),
            None => self.store.walk(),
        }
    }
}

fn chunk_of(alloc: Global, content: &Content, at: u32, len: u32) -> Result<Chunk, NoMemory>
    ensures ok { IfOk result (λ bytes. bytes ≡ take len (drop at content.now.bytes)) }
{
    let bytes = bytes_of(alloc, content, at, len)?;
    Chunk::from_vec(bytes)
}

fn bytes_of(alloc: Global, content: &Content, at: u32, len: u32) -> Result<Vec<u8>, NoMemory>
    ensures ok { IfOk result (λ bytes. bytes.items ≡ take len (drop at content.now.bytes)) }
{
    let count = len.min(content.len().saturating_sub(at)) as usize;
    let mut bytes = Vec::with_capacity(alloc, count)?;
    bytes.resize(count, 0)?;
    content.read(at, bytes.as_mut_slice());
    Ok(bytes)
}
