//! Words of one kind, numbered by first sight.
ghost use Rattle.std.specs.Prelude.{◌≡◌, [], IfOk, OnOk};
ghost use Rattle.afr_plan.specs.Names.{with_name, number_of, file_names};

use crate::keyed::{KEYED_FROM, Keyed, TextKey, Word};
use afr_base::NoMemory;
use afr_object::List;
use afr_plan::WordList;
use indexmap::IndexSet;
use std::alloc::Global;
use std::marker::Model;

/// Distinct names, each under the number of its first sight. Few of them are hashed without a key, and
/// many under the key of the plan's text.
#[derive(Drop)]
pub(crate) struct NameTable {
    set: IndexSet<Word, Keyed>,
    /// How many names are hashed without a key.
    keyed_from: usize,
}

impl Model for NameTable {
    ghost use Rattle.std.specs.Prelude.{List, ℕ, map};

    ghost Value = { List (List ℕ) };

    ghost view = { λ t. map (λ name. name.bytes.items) t.set.keys };
}

impl NameTable {
    pub(crate) fn new(alloc: Global) -> NameTable
        ensures { result ≡ [] }
    {
        NameTable {
            set: IndexSet::with_hasher(alloc, Keyed::unkeyed()),
            keyed_from: KEYED_FROM,
        }
    }

    /// The names of the opening files, `f1` and so on. Nobody picks them, so that they don't make few names many.
    pub(crate) fn of_files(alloc: Global, files: u32) -> Result<NameTable, NoMemory>
        ensures ok { IfOk result (λ names. names ≡ file_names files) }
    {
        let mut names = NameTable::new(alloc);
        for i in 0..files {
            let number = i + 1;
            let name = format!(in alloc; "f{number}")?;
            names.add(Word {
                bytes: name.into_bytes(),
            })?;
        }
        names.keyed_from = files as usize + KEYED_FROM;
        Ok(names)
    }

    /// The number of a name, which is added at the end where it is new: one look-up, or two at the
    /// size at which the table is keyed. A table has no room for a name whose number isn't a `u32`.
    pub(crate) fn number(&mut self, key: &mut TextKey<'_>, name: Vec<u8>) -> Result<u32, NoMemory>
        ensures ok { IfOk result (λ id. id ≡ number_of self.old name.items) }
        ensures value { OnOk result (self.new ≡ with_name self.old name.items) }
    {
        let word = Word { bytes: name };
        self.make_ready(key, &word)?;
        self.add(word)
    }

    fn add(&mut self, word: Word) -> Result<u32, NoMemory>
        ensures ok { IfOk result (λ id. id ≡ number_of self.old word.bytes.items) }
        ensures value { OnOk result (self.new ≡ with_name self.old word.bytes.items) }
    {
        let (index, _) = self.set.insert_full(word)?;
        let id = narrowed(index)?;
        Ok(id)
    }

    /// Sees to the key before a name is added that makes few names many.
    fn make_ready(&mut self, key: &mut TextKey<'_>, name: &Word) -> Result<(), NoMemory>
        ensures { self.new ≡ self.old }
    {
        if self.set.len() != self.keyed_from || self.set.contains(name) {
            return Ok(());
        }
        self.rekey(key)
    }

    /// Hashes the names anew, under the key of the text. Where there's no memory, nothing has moved.
    fn rekey(&mut self, key: &mut TextKey<'_>) -> Result<(), NoMemory>
        ensures { self.new ≡ self.old }
    {
        let alloc = *self.set.allocator();
        let keyed = key.get();
        let mut set = IndexSet::with_capacity_and_hasher(alloc, self.set.len(), keyed)?;
        set.append(&mut self.set)?;
        self.set = set;
        Ok(())
    }

    /// The names in the order of their numbers. Their bytes aren't copied.
    pub(crate) fn into_list(self, alloc: Global) -> Result<WordList, NoMemory>
        ensures ok { IfOk result (λ words. words ≡ self) }
    {
        let NameTable { set, keyed_from: _ } = self;
        let mut words = List::new(alloc);
        for name in set {
            let Word { bytes } = name;
            words.push(List::from_vec(bytes))?;
        }
        Ok(words)
    }
}

fn narrowed(index: usize) -> Result<u32, NoMemory>
    ensures ok { IfOk result (λ id. id ≡ index) }
{
    match u32::try_from(index) {
        Ok(id) => Ok(id),
        Err(_) => Err(NoMemory),
    }
}
