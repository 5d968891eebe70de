//! The words of a generated load.
ghost use Rattle.std.specs.Prelude.{◌≡◌, ◌≤◌, ◌++◌, ◌∷◌, [], IfOk, OnOk, codes};
ghost use Rattle.afr_plan.specs.Names.{file_name, file_names};
ghost use Rattle.afr_gen.specs.Generated as specs;

use afr_base::NoMemory;
use afr_object::List;
use afr_plan::{Word, WordList, Words};
use std::alloc::Global;

/// The opening files of the load.
pub const FILES: u32 = 8;

/// The value that a client gives: its name.
pub fn value(alloc: Global, client: u8) -> Result<Word, NoMemory>
    ensures ok { IfOk result (λ value. value ≡ specs.value client) }
{
    let value = format!(in alloc; "c{client}")?;
    Ok(List::from_vec(value.into_bytes()))
}

/// The name of an opening file, by its number from 1.
fn file_name(alloc: Global, number: u32) -> Result<Word, NoMemory>
    ensures ok { IfOk result (λ name. name ≡ file_name number) }
{
    let name = format!(in alloc; "f{number}")?;
    Ok(List::from_vec(name.into_bytes()))
}

fn file_names(alloc: Global) -> Result<WordList, NoMemory>
    ensures ok { IfOk result (λ names. names ≡ file_names 8) }
{
    let mut names = List::new(alloc);
    for before in 0..FILES {
        names.push(file_name(alloc, before + 1)?)?;
    }
    Ok(names)
}

/// The one key, where it is given a value.
fn keys(alloc: Global, values: &WordList) -> Result<WordList, NoMemory>
    ensures ok { IfOk result (λ keys. keys ≡ specs.keys values.now) }
{
    let mut keys = List::new(alloc);
    if values.len() > 0 {
        keys.push(List::from_vec(b"owner".to_vec(alloc)?))?;
    }
    Ok(keys)
}

/// The files, and what the clients set.
pub fn make_words(alloc: Global, values: WordList) -> Result<Words, NoMemory>
    ensures ok { IfOk result (λ words. words ≡ specs.words values) }
{
    let names = file_names(alloc)?;
    let keys = keys(alloc, &values)?;
    Ok(Words {
        names,
        keys,
        values,
    })
}
