//! An actor meets bricks.
ghost use Rattle.std.specs.Prelude.{◌≡◌, ℕ, ◌<◌, ◌≤◌, length};
ghost use Rattle.afr_server.specs.Serving.{HasEpoch};
ghost use Rattle.afr_servers.specs.Calls.{At, MeetsBetween};

use crate::epochs::Epochs;
use afr_base::ActorId;
use afr_server::Server;

/// The actor meets the bricks from one up to another, and finds their epochs. It takes no memory.
pub(crate) fn meet_between(
    servers: &mut Vec<Server>,
    actor: ActorId,
    from: usize,
    to: usize,
    mut epochs: Epochs,
) -> Epochs
    requires known { actor.0 < 20 }
    requires order { from ≤ to }
    requires there { to ≤ length servers.old.items }
    requires few { to ≤ 5 }
    requires five { length epochs.of ≡ 5 }
    requires room { (y : ℕ) → from ≤ y → y < to → At y servers.old.items (HasEpoch actor) }
    ensures met { MeetsBetween actor from to servers.old.items servers.new.items epochs result }
    ensures five { length result.of ≡ 5 }
{
    for b in from..to {
        epochs.of[b] = servers[b].meet(actor);
    }
    epochs
}
