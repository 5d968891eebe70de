//! An image, and why bytes are none.
ghost use Rattle.std.specs.Prelude.{◌≡◌};

use crate::step::Step;
use afr_base::NoMemory;
use afr_object::List;
use afr_plan::Plan;
use thiserror::Error;

/// Steps in the order of the log. Contracts see the plain list of them.
pub type StepList = List<Step>;

/// A run as it was recorded: its plan, and a step for each line of its log.
#[derive(Debug, Drop)]
pub struct Image {
    pub plan: Plan,
    pub steps: StepList,
}

/// The first reason for which bytes are no image, and the place of the byte at which it shows.
#[derive(Clone, Copy, Debug, PartialEq, Eq, Error)]
#[error("at {at}, code {code}")]
pub struct ImageFault {
    pub at: u32,
    pub code: u8,
}

/// Why an image wasn't read.
#[derive(Clone, Copy, Debug, PartialEq, Eq, Error)]
pub enum ImageStop {
    #[error("image refused: {0}")]
    Refused(ImageFault),
    #[error("no memory")]
    NoMemory,
}

impl From<NoMemory> for ImageStop {
    ghost use Rattle.afr_image.specs.declared.image.ImageStop.TheVariants as stops;

    ghost from_gives = { λ _ stop. stop ≡ stops.NoMemory };

    fn from(_: NoMemory) -> ImageStop {
        ImageStop::NoMemory
    }
}

pub mod codes {
    //! The codes of refusals.

    /// The bytes are more than whoever reads them allows.
    pub const LONG: u8 = 0;

    /// They don't begin as an image does.
    pub const MAGIC: u8 = 11;

    /// They end before the steps are whole.
    pub const SHORT: u8 = 12;

    /// They have no plan as it is printed.
    pub const PLAN: u8 = 13;

    /// A step is the one of no line.
    pub const STEP: u8 = 14;

    /// They go on after the last step.
    pub const TAIL: u8 = 15;

    /// There are more steps than turns.
    pub const TURNS: u8 = 16;
}
