//! Which changelog attribute of a copy, and its name.
ghost use Rattle.std.specs.Prelude.{◌≡◌, IfOk, string_bytes};
ghost use Rattle.afr_marks.specs.Values.{name_of};

use afr_base::{BrickId, NoMemory};
use std::alloc::Global;

/// One of the changelog attributes of a copy.
#[derive(Clone, Copy, Debug, PartialEq, Eq)]
pub enum Which {
    /// The operations that are open on the copy.
    Dirty,
    /// The operations that the copy has and this brick missed.
    Client(BrickId),
}

/// The name under which a brick stores the attribute, in time proportional to its length.
pub fn attr_name(alloc: Global, which: Which) -> Result<String, NoMemory>
    ensures ok { IfOk result (λ name. string_bytes name ≡ name_of which) }
{
    match which {
        Which::Dirty => Ok(String::from_str(alloc, "trusted.afr.dirty")?),
        Which::Client(brick) => client_name(alloc, brick),
    }
}

fn client_name(alloc: Global, brick: BrickId) -> Result<String, NoMemory>
    ensures ok { IfOk result (λ name. string_bytes name ≡ name_of (Which.Client brick)) }
{
    let number = brick.0;
    Ok(format!(in alloc; "trusted.afr.vol-client-{number}")?)
}
