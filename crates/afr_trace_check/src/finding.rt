//! What the check of a trace says.
ghost use Rattle.std.specs.Prelude.{◌≡◌};

use afr_base::NoMemory;

/// What a line of a trace can break.
#[derive(Clone, Copy, Debug, PartialEq, Eq)]
pub enum Rule {
    /// It is the text of no line, or it names what isn't there.
    Text,
    /// It isn't what the plan has for its moment.
    Follows,
    /// It was told other than what its brick then gives.
    Honest,
    /// It accuses a brick without a cause.
    Blamed,
    /// After it a copy that nobody accuses lacks what was acknowledged.
    Safe,
}

/// Whether each line keeps every rule: how many there are, or the first that breaks one, and the first rule that it breaks.
#[derive(Clone, Copy, Debug, PartialEq, Eq)]
pub enum Finding {
    Yes(u32),
    No { line: u32, rule: Rule },
}

/// Why a trace isn't checked.
#[derive(Clone, Copy, Debug, PartialEq, Eq)]
pub enum CheckStop {
    /// It has more than 2,000 line feeds, or its plan writes or cuts past 1,024 bytes.
    Limit,
    NoMemory,
}

impl From<NoMemory> for CheckStop {
    ghost use Rattle.afr_trace_check.specs.declared.finding.CheckStop.TheVariants as stops;

    ghost from_gives = { λ _ stop. stop ≡ stops.NoMemory };

    fn from(_: NoMemory) -> CheckStop {
        CheckStop::NoMemory
    }
}
