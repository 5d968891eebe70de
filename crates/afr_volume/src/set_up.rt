//! The actors of a plan, before any line.
ghost use Rattle.std.specs.Prelude.{IfOk};
ghost use Rattle.afr_volume.specs.Starting.{AreNewActors, IsNewActor};

use crate::actor::Actor;
use afr_base::NoMemory;
use afr_client::Work;
use afr_servers::Visit;
use std::alloc::Global;

/// An actor for each client, none of which has begun.
pub(crate) fn all_actors(alloc: Global, clients: usize) -> Result<Vec<Actor>, NoMemory>
    ensures ok { IfOk result (λ actors. AreNewActors clients actors.items) }
{
    let mut actors = Vec::new(alloc);
    for _ in 0..clients {
        actors.push(new_actor())?;
    }
    Ok(actors)
}

fn new_actor() -> Actor
    ensures { IsNewActor result }
{
    Actor {
        ended: 0,
        killed: false,
        visit: Visit::new(),
        picked: None,
        work: Work::none(),
    }
}
