//! Merges of what three bricks have in one directory.
use afr_base::{Gfid, NameId, NoMemory, What};
use afr_heal_merge::merged_names;
use afr_object::{Entry, List, NameList};
use std::alloc::Global;
use std::test::Fail;

const FILE: Entry = Entry {
    gfid: Gfid(70),
    what: What::File,
};

const LATER_FILE: Entry = Entry {
    gfid: Gfid(80),
    what: What::File,
};

const DIRECTORY: Entry = Entry {
    gfid: Gfid(70),
    what: What::Dir,
};

fn two_names(
    alloc: Global,
    first: (NameId, Entry),
    second: (NameId, Entry),
) -> Result<NameList, NoMemory> {
    let mut names = List::new(alloc);
    names.push(first)?;
    names.push(second)?;
    Ok(names)
}

/// Bricks 0, 2 and 4 have two names each, of which they share two.
fn merged(alloc: Global) -> Result<NameList, NoMemory> {
    let lists = [
        Some(two_names(alloc, (NameId(2), LATER_FILE), (NameId(5), FILE))?),
        None,
        Some(two_names(alloc, (NameId(2), FILE), (NameId(5), DIRECTORY))?),
        None,
        Some(two_names(alloc, (NameId(1), FILE), (NameId(5), FILE))?),
    ];
    merged_names(alloc, &lists)
}

#[test]
fn the_greater_gfid_stands_and_of_one_gfid_the_directory(rt: HostRuntime) -> Result<(), Fail> {
    let names = merged(rt.alloc()).ok().ok_or("memory")?;
    let wanted = [
        (NameId(1), FILE),
        (NameId(2), LATER_FILE),
        (NameId(5), DIRECTORY),
    ];
    let holds = names.as_slice() == wanted.as_slice();
    assert!(rt; holds);
    Ok(())
}
