//! Names in their order, copies of a change, and bytes that are shared.
use afr_base::{Gfid, NameId, NoMemory, What};
use afr_object::{Change, Chunk, Entry, SortedMap, TryCopy};
use std::alloc::Global;
use std::test::Fail;

const ENTRY: Entry = Entry {
    gfid: Gfid(9),
    what: What::File,
};

/// A name comes, stands in the list of all names, and goes.
fn keeps_a_name(alloc: Global) -> Result<bool, NoMemory> {
    let mut map = SortedMap::new(alloc);
    map.insert(NameId(4), ENTRY)?;
    let names = map.list(alloc)?;
    let same = SortedMap::from_list(alloc, &names)?;
    let listed = names.len() == 1 && same.get(NameId(4)) == Some(ENTRY);
    map.remove(NameId(4));
    Ok(listed && map.get(NameId(4)).is_none())
}

#[test]
fn a_name_comes_is_listed_and_goes(rt: HostRuntime) -> Result<(), Fail> {
    let kept = keeps_a_name(rt.alloc()).ok().ok_or("memory")?;
    assert!(rt; kept);
    Ok(())
}

/// A write of one byte.
fn write(alloc: Global) -> Result<Change, NoMemory> {
    let mut bytes = Chunk::new(alloc);
    bytes.push(7u8)?;
    Ok(Change::Write {
        gfid: Gfid(9),
        at: 3,
        bytes,
    })
}

fn is_that_write(change: &Change) -> bool {
    match change {
        Change::Write { at, bytes, .. } => *at == 3 && bytes.as_slice() == [7u8].as_slice(),
        _ => false,
    }
}

fn is_copied(alloc: Global) -> Result<bool, NoMemory> {
    let write = write(alloc)?;
    let copy = write.copy()?;
    Ok(is_that_write(&copy))
}

#[test]
fn a_copied_write_has_its_bytes(rt: HostRuntime) -> Result<(), Fail> {
    let copied = is_copied(rt.alloc()).ok().ok_or("memory")?;
    assert!(rt; copied);
    Ok(())
}

/// A front shares its bytes with the whole, and a byte that is added to a copy of it leaves both as they are.
fn shares_its_bytes(alloc: Global) -> Result<bool, NoMemory> {
    let whole = Chunk::from_vec(b"abc".to_vec(alloc)?)?;
    let front = whole.front(2)?;
    let mut longer = front.copy()?;
    longer.push(b'd')?;
    let fronts = front.as_slice() == b"ab".as_slice() && longer.as_slice() == b"abd".as_slice();
    Ok(fronts && whole.len() == 3 && *whole.item(2) == b'c')
}

#[test]
fn a_front_shares_its_bytes(rt: HostRuntime) -> Result<(), Fail> {
    let shared = shares_its_bytes(rt.alloc()).ok().ok_or("memory")?;
    assert!(rt; shared);
    Ok(())
}
