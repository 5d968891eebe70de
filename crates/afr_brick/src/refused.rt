//! Why a brick does not carry out a request.
ghost use Rattle.std.specs.Prelude.{◌≡◌};
ghost use Rattle.afr_brick.specs.declared.refused.Refused.TheVariants.{NoMemory as RefusedNoMemory};

use afr_base::NoMemory;

/// A request that was not carried out, and left the brick as it was.
#[derive(Clone, Copy, Debug, PartialEq, Eq)]
pub enum Refused {
    /// The brick has no copy of the object.
    NoObject,
    NoMemory,
}

impl From<NoMemory> for Refused {
    ghost from_gives = { λ _ e. e ≡ RefusedNoMemory };

    fn from(_error: NoMemory) -> Refused {
        Refused::NoMemory
    }
}

impl From<afr_content::NoMemory> for Refused {
    ghost from_gives = { λ _ e. e ≡ RefusedNoMemory };

    fn from(_error: afr_content::NoMemory) -> Refused {
        Refused::NoMemory
    }
}
