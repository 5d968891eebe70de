//! What a request for a lock gets.
use afr_base::ActorId;

/// What a request for a lock gets. `Held` names the owner of the conflicting lock that was granted first.
#[derive(Clone, Copy, Debug, PartialEq, Eq)]
pub enum Got {
    Granted,
    Held(ActorId),
}
