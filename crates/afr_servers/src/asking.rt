//! One brick is asked.
ghost use Rattle.std.specs.Prelude.{◌≡◌, ℕ, ◌-◌, ◌^◌, ◌<◌, ◌≤◌, true, length, IfOk, OnOk, OnErr};
ghost use Rattle.afr_faults.specs.Planned.{next_fault};
ghost use Rattle.afr_server.specs.Carried.{CanCarryOut, CanLock};
ghost use Rattle.afr_server.specs.Covered.{IsUnderLocks};
ghost use Rattle.afr_server.specs.Outcome.{is_carried_out};
ghost use Rattle.afr_server.specs.Serving.{HasEpoch, has_session, is_met};
ghost use Rattle.afr_servers.specs.Calls.{AsksFirst, AsksOne, At};
ghost use Rattle.afr_servers.specs.Found.{epoch_at};

use crate::epochs::Epochs;
use crate::meeting::meet_between;
use afr_base::{ActorId, BrickId, NoMemory};
use afr_lines::Request;
use afr_object::Load;
use afr_server::{Served, Server};

/// A request within a work, over the epoch that its actor found at the brick.
pub(crate) fn ask_one(
    servers: &mut Vec<Server>,
    actor: ActorId,
    epochs: &Epochs,
    brick: BrickId,
    request: &Request,
    load: Load<'_>,
    given: &mut Served,
) -> Result<(), NoMemory>
    requires known { actor.0 < 20 }
    requires few { length servers.old.items ≤ 5 }
    requires there { brick.0 < length servers.old.items }
    requires count { At brick.0 servers.old.items (λ s. s.faults.requests < 2 ^ 32 - 1) }
    requires lock { CanLock request.now }
    requires can { At brick.0 servers.old.items (λ s. is_carried_out (has_session (epoch_at brick.0 epochs.now) actor s) (next_fault s.faults) ≡ true → CanCarryOut request.now load s.copies.objects) }
    requires covered { At brick.0 servers.old.items (λ s. is_carried_out (has_session (epoch_at brick.0 epochs.now) actor s) (next_fault s.faults) ≡ true → IsUnderLocks actor request.now load s) }
    ensures ok { OnOk result (AsksOne actor epochs.now brick.0 request.now load.entry servers.old.items servers.new.items given.new) }
    ensures err { OnErr result (servers.new.items ≡ servers.old.items) }
{
    let epoch = epochs.of[brick.0 as usize];
    servers[brick.0 as usize].ask(actor, epoch, request, load, given)
}

/// The first line of a work: one brick is asked, and once its memory is there the others meet the
/// actor, which takes none.
pub(crate) fn ask_one_first(
    servers: &mut Vec<Server>,
    actor: ActorId,
    brick: BrickId,
    request: &Request,
    load: Load<'_>,
    given: &mut Served,
) -> Result<Epochs, NoMemory>
    requires known { actor.0 < 20 }
    requires few { length servers.old.items ≤ 5 }
    requires there { brick.0 < length servers.old.items }
    requires count { At brick.0 servers.old.items (λ s. s.faults.requests < 2 ^ 32 - 1) }
    requires room { (y : ℕ) → At y servers.old.items (HasEpoch actor) }
    requires lock { CanLock request.now }
    requires can { At brick.0 servers.old.items (λ s. is_carried_out (is_met actor s) (next_fault s.faults) ≡ true → CanCarryOut request.now load s.copies.objects) }
    requires covered { At brick.0 servers.old.items (λ s. is_carried_out (is_met actor s) (next_fault s.faults) ≡ true → IsUnderLocks actor request.now load s) }
    ensures ok { IfOk result (λ epochs. AsksFirst actor brick.0 request.now load.entry servers.old.items servers.new.items epochs given.new) }
    ensures err { OnErr result (servers.new.items ≡ servers.old.items) }
{
    let at = brick.0 as usize;
    let epoch = servers[at].ask_first(actor, request, load, given)?;
    let mut epochs = Epochs::none();
    epochs.of[at] = epoch;
    let epochs = meet_between(servers, actor, 0, at, epochs);
    let bricks = servers.len();
    let epochs = meet_between(servers, actor, at + 1, bricks, epochs);
    Ok(epochs)
}
