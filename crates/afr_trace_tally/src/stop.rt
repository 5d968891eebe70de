//! Why a line isn't added.
ghost use Rattle.std.specs.Prelude.{◌≡◌};

use afr_base::NoMemory;

/// A line that isn't added. What was kept is of no use then.
#[derive(Clone, Copy, Debug, PartialEq, Eq)]
pub enum TallyStop {
    /// A file would pass its longest length.
    TooLong,
    NoMemory,
}

impl From<NoMemory> for TallyStop {
    ghost use Rattle.afr_trace_tally.specs.declared.stop.TallyStop.TheVariants as stops;

    ghost from_gives = { λ _ stop. stop ≡ stops.NoMemory };

    fn from(_: NoMemory) -> TallyStop {
        TallyStop::NoMemory
    }
}
