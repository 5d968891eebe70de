//! The words of a plan of which some lines are still to come, and commands over their numbers.
ghost use Rattle.std.specs.Prelude.{◌≡◌, IfOk, OnOk};
ghost use Rattle.afr_plan.specs.Names.{with_name, with_names, number_of, file_names};
ghost use Rattle.afr_plan.specs.Paths.{names_in};
ghost use Rattle.afr_plan.specs.PlanOf.{empty_plan, path_of, command_of, words_with};
ghost use Rattle.afr_plan.specs.declared.command.Command.TheVariants as commands;
ghost use Rattle.afr_plan_line.specs.Seen.{seen_action, seen_data};

use crate::data_bytes::SharedData;
use crate::keyed::TextKey;
use crate::names::NameTable;
use crate::paths::PathTable;
use afr_base::{KeyId, NoMemory, ValueId};
use afr_plan::{Command, NamePath, WordList, Words};
use afr_plan_line::{SpokenAction, SpokenData};
use std::alloc::Global;
use std::marker::Model;

/// The words of a plan of which some lines are still to come.
#[derive(Drop)]
pub(crate) struct WordTables<'t> {
    key: TextKey<'t>,
    names: PathTable<'t>,
    keys: NameTable,
    values: NameTable,
    /// Contracts don't see it.
    shared: SharedData<'t>,
}

impl<'t> Model for WordTables<'t> {
    ghost use Rattle.afr_plan.specs.declared.plan.Words.{Words};

    ghost Value = { Words };

    ghost view = { λ w. record { names = w.names; keys = w.keys; values = w.values } };
}

impl<'t> WordTables<'t> {
    pub(crate) fn new(alloc: Global, text: &'t [u8]) -> WordTables<'t>
        ensures { result ≡ empty_plan.words }
    {
        WordTables {
            key: TextKey::new(text),
            names: PathTable::new(alloc),
            keys: NameTable::new(alloc),
            values: NameTable::new(alloc),
            shared: SharedData::new(alloc),
        }
    }

    /// The opening files are named before all else.
    pub(crate) fn name_files(&mut self, alloc: Global, files: u32) -> Result<(), NoMemory>
        ensures ok { OnOk result (self.new ≡ record self.old { names = file_names files }) }
    {
        self.names = PathTable::of_files(alloc, files)?;
        Ok(())
    }

    /// The numbers of a path's names; new names are added.
    fn path(&mut self, alloc: Global, path: &'t [u8]) -> Result<NamePath, NoMemory>
        ensures ok { IfOk result (λ ids. ids ≡ path_of self.old.names (names_in path.now)) }
        ensures value { OnOk result (self.new ≡ record self.old { names = with_names self.old.names (names_in path.now) }) }
    {
        self.names.path(&mut self.key, alloc, path)
    }

    fn key(&mut self, alloc: Global, key: &[u8]) -> Result<KeyId, NoMemory>
        ensures ok { IfOk result (λ id. id ≡ record { 0 = number_of self.old.keys key.now }) }
        ensures value { OnOk result (self.new ≡ record self.old { keys = with_name self.old.keys key.now }) }
    {
        let id = self.keys.number(&mut self.key, key.to_vec(alloc)?)?;
        Ok(KeyId(id))
    }

    fn value(&mut self, alloc: Global, value: &[u8]) -> Result<ValueId, NoMemory>
        ensures ok { IfOk result (λ id. id ≡ record { 0 = number_of self.old.values value.now }) }
        ensures value { OnOk result (self.new ≡ record self.old { values = with_name self.old.values value.now }) }
    {
        let id = self.values.number(&mut self.key, value.to_vec(alloc)?)?;
        Ok(ValueId(id))
    }

    /// A command, its words numbered; new words are added.
    pub(crate) fn command(
        &mut self,
        alloc: Global,
        path: &'t [u8],
        action: &SpokenAction<'t>,
    ) -> Result<Command, NoMemory>
        ensures ok { IfOk result (λ command. command ≡ command_of self.old (names_in path.now) (seen_action action.now)) }
        ensures value { OnOk result (self.new ≡ words_with self.old (names_in path.now) (seen_action action.now)) }
    {
        let path = self.path(alloc, path)?;
        match action {
            SpokenAction::Write { at, data } => write_of(alloc, &mut self.shared, path, *at, data),
            SpokenAction::Cut { len } => Ok(Command::Cut { path, len: *len }),
            SpokenAction::Read { at, len } => Ok(Command::Read {
                path,
                at: *at,
                len: *len,
            }),
            SpokenAction::Create => Ok(Command::Create { path }),
            SpokenAction::Mkdir => Ok(Command::Mkdir { path }),
            SpokenAction::Unlink => Ok(Command::Unlink { path }),
            SpokenAction::Rmdir => Ok(Command::Rmdir { path }),
            SpokenAction::Ls => Ok(Command::Ls { path }),
            SpokenAction::Stat => Ok(Command::Stat { path }),
            SpokenAction::SetAttr { key, value } => self.set_attr(alloc, path, key, value),
            SpokenAction::GetAttr { key } => self.get_attr(alloc, path, key),
            SpokenAction::Rename { to } => self.rename(alloc, path, *to),
        }
    }

    /// The second path's names come after the first one's.
    fn rename(&mut self, alloc: Global, from: NamePath, to: &'t [u8]) -> Result<Command, NoMemory>
        ensures ok { IfOk result (λ command. command ≡ commands.Rename from (path_of self.old.names (names_in to.now))) }
        ensures value { OnOk result (self.new ≡ record self.old { names = with_names self.old.names (names_in to.now) }) }
    {
        let to = self.path(alloc, to)?;
        Ok(Command::Rename { from, to })
    }

    fn set_attr(
        &mut self,
        alloc: Global,
        path: NamePath,
        key: &[u8],
        value: &[u8],
    ) -> Result<Command, NoMemory>
        ensures ok { IfOk result (λ command. command ≡ commands.SetAttr path (record { 0 = number_of self.old.keys key.now }) (record { 0 = number_of self.old.values value.now })) }
        ensures value { OnOk result (self.new ≡ record self.old { keys = with_name self.old.keys key.now; values = with_name self.old.values value.now }) }
    {
        let key = self.key(alloc, key)?;
        let value = self.value(alloc, value)?;
        Ok(Command::SetAttr { path, key, value })
    }

    fn get_attr(&mut self, alloc: Global, path: NamePath, key: &[u8]) -> Result<Command, NoMemory>
        ensures ok { IfOk result (λ command. command ≡ commands.GetAttr path (record { 0 = number_of self.old.keys key.now })) }
        ensures value { OnOk result (self.new ≡ record self.old { keys = with_name self.old.keys key.now }) }
    {
        let key = self.key(alloc, key)?;
        Ok(Command::GetAttr { path, key })
    }

    pub(crate) fn into_words(self, alloc: Global) -> Result<Words, NoMemory>
        ensures ok { IfOk result (λ words. words ≡ self.entry) }
    {
        let WordTables {
            key: _,
            names,
            keys,
            values,
            shared: _,
        } = self;
        let names = names.into_list(alloc)?;
        let (keys, values) = lists_of(alloc, keys, values)?;
        Ok(Words {
            names,
            keys,
            values,
        })
    }
}

/// The words of two tables.
fn lists_of(
    alloc: Global,
    keys: NameTable,
    values: NameTable,
) -> Result<(WordList, WordList), NoMemory>
    ensures ok { IfOk result (λ lists. lists ≡ (keys, values)) }
{
    let keys = keys.into_list(alloc)?;
    let values = values.into_list(alloc)?;
    Ok((keys, values))
}

fn write_of<'t>(
    alloc: Global,
    shared: &mut SharedData<'t>,
    path: NamePath,
    at: u32,
    spoken: &SpokenData<'t>,
) -> Result<Command, NoMemory>
    ensures ok { IfOk result (λ command. command ≡ commands.Write path at (seen_data spoken.now)) }
{
    let bytes = shared.chunk(alloc, spoken)?;
    Ok(Command::Write { path, at, bytes })
}
