//! The numbers of a path's names.
ghost use Rattle.std.specs.Prelude.{◌≡◌, [], IfOk, OnOk};
ghost use Rattle.afr_plan.specs.Names.{with_names, file_names};
ghost use Rattle.afr_plan.specs.Paths.{names_in};
ghost use Rattle.afr_plan.specs.PlanOf.{path_of};

use crate::keyed::TextKey;
use crate::names::NameTable;
use afr_base::{NameId, NoMemory};
use afr_object::{List, TryCopy};
use afr_plan::{NamePath, WordList};
use afr_plan_line::{is_same, names_of};
use std::alloc::Global;
use std::marker::Model;

/// The names of a plan so far, and the path that was numbered last: most commands are on the object of the one before, and
/// no name of theirs is looked up. Contracts see the names alone.
#[derive(Drop)]
pub(crate) struct PathTable<'t> {
    names: NameTable,
    last: &'t [u8],
    last_ids: NamePath,
}

impl<'t> Model for PathTable<'t> {
    ghost use Rattle.std.specs.Prelude.{List, ℕ};
    ghost use Rattle.afr_plan.specs.Paths.{names_in};
    ghost use Rattle.afr_plan_read.specs.Numbered.{IsNumbered};

    ghost Value = { List (List ℕ) };

    ghost view = { λ t. t.names };

    ghost invariant = { λ t. IsNumbered t.names (names_in t.last.now) t.last_ids };
}

impl<'t> PathTable<'t> {
    pub(crate) fn new(alloc: Global) -> PathTable<'t>
        ensures { result ≡ [] }
    {
        PathTable {
            names: NameTable::new(alloc),
            last: &[],
            last_ids: List::new(alloc),
        }
    }

    /// The names of the opening files.
    pub(crate) fn of_files(alloc: Global, files: u32) -> Result<PathTable<'t>, NoMemory>
        ensures ok { IfOk result (λ names. names ≡ file_names files) }
    {
        Ok(PathTable {
            names: NameTable::of_files(alloc, files)?,
            last: &[],
            last_ids: List::new(alloc),
        })
    }

    /// The numbers of a path's names; new names are added.
    pub(crate) fn path(
        &mut self,
        key: &mut TextKey<'_>,
        alloc: Global,
        path: &'t [u8],
    ) -> Result<NamePath, NoMemory>
        ensures ok { IfOk result (λ ids. ids ≡ path_of self.old (names_in path.now)) }
        ensures value { OnOk result (self.new ≡ with_names self.old (names_in path.now)) }
    {
        if is_same(path, self.last) {
            return self.last_ids.copy();
        }
        self.number(key, alloc, path)
    }

    /// Numbers a path name by name, and keeps it. While that goes on, none is kept.
    fn number(
        &mut self,
        key: &mut TextKey<'_>,
        alloc: Global,
        path: &'t [u8],
    ) -> Result<NamePath, NoMemory>
        ensures ok { IfOk result (λ ids. ids ≡ path_of self.old (names_in path.now)) }
        ensures value { OnOk result (self.new ≡ with_names self.old (names_in path.now)) }
    {
        self.last = &[];
        self.last_ids = List::new(alloc);
        let ids = number_path(&mut self.names, key, alloc, path)?;
        self.last_ids = ids.copy()?;
        self.last = path;
        Ok(ids)
    }

    /// The names in the order of their numbers.
    pub(crate) fn into_list(self, alloc: Global) -> Result<WordList, NoMemory>
        ensures ok { IfOk result (λ words. words ≡ self.entry) }
    {
        let PathTable {
            names,
            last: _,
            last_ids: _,
        } = self;
        names.into_list(alloc)
    }
}

/// The numbers of a path's names; new names are added. One look-up a name.
fn number_path(
    table: &mut NameTable,
    key: &mut TextKey<'_>,
    alloc: Global,
    path: &[u8],
) -> Result<NamePath, NoMemory>
    ensures ok { IfOk result (λ ids. ids ≡ path_of table.old (names_in path.now)) }
    ensures value { OnOk result (table.new ≡ with_names table.old (names_in path.now)) }
{
    let mut ids = List::new(alloc);
    let mut names = names_of(path);
    while let Some(name) = names.next() {
        let id = table.number(key, name.to_vec(alloc)?)?;
        ids.push(NameId(id))?;
    }
    Ok(ids)
}
