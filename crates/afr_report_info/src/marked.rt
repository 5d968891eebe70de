//! The objects with a number above 0 on some of the bricks.
ghost use Rattle.std.specs.Prelude.{◌≡◌, IfOk, OnOk, slice_get};
ghost use Rattle.afr_model.specs.ReportObjects.{joined_into};
ghost use Rattle.afr_base.specs.Rising.{IsRising};
ghost use Rattle.afr_report_info.specs.Shown.{index_in, marked_in};

use afr_base::{BrickId, BrickSet, Gfid, NoMemory, What};
use afr_index::Index;
use afr_object::{IndexList, List};
use afr_server::Server;
use std::alloc::Global;

/// The objects in rising gfid, each once. It takes O(log m) for each of the m objects that the
/// index of a brick lists.
pub fn marked(alloc: Global, servers: &[Server], among: BrickSet) -> Result<Index, NoMemory>
    requires rising { IsRising 0 among }
    ensures ok { IfOk result (λ index. index ≡ marked_in servers.now among) }
{
    if among.is_empty() {
        return Ok(Index::new(alloc));
    }
    let brick = among.lowest();
    let mut index = marked(alloc, servers, among.without(brick))?;
    let list = index_of(alloc, servers, brick)?;
    join(&mut index, list.as_slice())?;
    Ok(index)
}

/// The objects with a number above 0 on a brick; none where there is no such brick.
fn index_of(alloc: Global, servers: &[Server], brick: BrickId) -> Result<IndexList, NoMemory>
    ensures ok { IfOk result (λ list. list ≡ index_in (slice_get servers.now brick.0)) }
{
    match servers.get(brick.0 as usize) {
        Some(server) => server.brick().index(),
        None => Ok(List::new(alloc)),
    }
}

/// Sets each object of the list, the last first.
fn join(index: &mut Index, list: &[(Gfid, What)]) -> Result<(), NoMemory>
    ensures ok { OnOk result (index.new ≡ joined_into index.old list.now) }
{
    let len = list.len();
    for i in 0..len {
        let (gfid, what) = list[len - 1 - i];
        index.set(gfid, what)?;
    }
    Ok(())
}
