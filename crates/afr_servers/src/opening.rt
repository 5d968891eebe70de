//! A new server of a brick, before any line.
ghost use Rattle.std.specs.Prelude.{◌≡◌, IfOk, not};
ghost use Rattle.afr_object.specs.Tables.{opening};
ghost use Rattle.afr_servers.specs.Opening.{IsNew};

use afr_base::{BrickId, Gfid, NameId, NoMemory, OPENING_GFIDS};
use afr_brick::Brick;
use afr_plan::Plan;
use afr_server::{Server, planned_faults};
use std::alloc::Global;

/// A brick with the opening files.
fn opened_brick(alloc: Global, files: u32, arbiter: bool) -> Result<Brick, NoMemory>
    ensures ok { IfOk result (λ brick. brick ≡ record { keeps = not arbiter; objects = opening files }) }
{
    let mut brick = Brick::empty(alloc, arbiter)?;
    for i in 0..files {
        brick.add_opening_file(NameId(i), Gfid(OPENING_GFIDS + u128::from(i) + 1))?;
    }
    Ok(brick)
}

/// A server over such a brick, with the faults that the plan has for it.
pub(crate) fn opened_server(alloc: Global, plan: &Plan, brick: BrickId) -> Result<Server, NoMemory>
    ensures { IfOk result (λ server. IsNew plan.now brick.0 server) }
{
    let arbiter = plan.shape.arbiter && brick.0 == 2;
    let copies = opened_brick(alloc, plan.files, arbiter)?;
    let faults = planned_faults(alloc, plan.faults.as_slice(), brick)?;
    Ok(Server::new(alloc, copies, faults))
}
