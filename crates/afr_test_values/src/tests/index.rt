//! The objects that may need heal.
use afr_base::{Gfid, NoMemory, What};
use afr_index::Index;
use std::test::Fail;

/// Three objects are set, one of them twice, and one is cleared.
fn lists_what_is_left(index: &mut Index) -> Result<bool, NoMemory> {
    index.set(Gfid(7), What::File)?;
    index.set(Gfid(1), What::Dir)?;
    index.set(Gfid(9), What::File)?;
    index.set(Gfid(7), What::Dir)?;
    index.clear(Gfid(9));
    let list = index.list()?;
    Ok(list.as_slice() == [(Gfid(1), What::Dir), (Gfid(7), What::Dir)].as_slice())
}

#[test]
fn an_object_is_listed_until_it_is_cleared(rt: HostRuntime) -> Result<(), Fail> {
    let holds = lists_what_is_left(&mut Index::new(rt.alloc()))
        .ok()
        .ok_or("memory")?;
    assert!(rt; holds);
    Ok(())
}
