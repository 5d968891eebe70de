//! The version that a volume's line is spelled in.
ghost use Rattle.std.specs.Prelude.{◌≡◌, reverse, map};
ghost use Rattle.afr_plan.specs.Rules as rule;
ghost use Rattle.afr_plan.specs.Said as said;
ghost use Rattle.afr_plan_line.specs.Seen.{seen};

use afr_plan::Version;
use afr_plan_line::Spoken;

fn is_same(version: Version, other: Version) -> bool
    ensures { result ≡ rule.is_same version other }
{
    match version {
        Version::One => matches!(other, Version::One),
        Version::Two => matches!(other, Version::Two),
    }
}

/// Whether a line may follow the first line of a plan in this version.
fn is_spelled(version: Version, spoken: &Spoken) -> bool
    ensures { result ≡ rule.is_spelled_after (said.Afr version) (seen spoken.now) }
{
    match spoken {
        Spoken::Volume(spelled, _) => is_same(version, *spelled),
        Spoken::Afr(_) => true,
        Spoken::Files(_) => true,
        Spoken::Turns(_) => true,
        Spoken::Client(_) => true,
        Spoken::Command { path: _, action: _ } => true,
        Spoken::Healer(_) => true,
        Spoken::Round(_) => true,
        Spoken::Faulty {
            brick: _,
            at: _,
            fault: _,
        } => true,
        Spoken::At { at: _, event: _ } => true,
        Spoken::Go { who: _, count: _ } => true,
        Spoken::End => true,
    }
}

fn may_follow(newest: &Spoken, spoken: &Spoken) -> bool
    ensures { result ≡ rule.is_spelled_after (seen newest.now) (seen spoken.now) }
{
    match newest {
        Spoken::Afr(version) => is_spelled(*version, spoken),
        Spoken::Volume(_, _) => true,
        Spoken::Files(_) => true,
        Spoken::Turns(_) => true,
        Spoken::Client(_) => true,
        Spoken::Command { path: _, action: _ } => true,
        Spoken::Healer(_) => true,
        Spoken::Round(_) => true,
        Spoken::Faulty {
            brick: _,
            at: _,
            fault: _,
        } => true,
        Spoken::At { at: _, event: _ } => true,
        Spoken::Go { who: _, count: _ } => true,
        Spoken::End => true,
    }
}

/// Whether a volume is spelled in the version of the line before it.
pub(crate) fn is_versioned(before: &[Spoken], spoken: &Spoken) -> bool
    ensures { result ≡ rule.is_versioned (reverse (map seen before.now)) (seen spoken.now) }
{
    match before {
        [] => true,
        [.., newest] => may_follow(newest, spoken),
    }
}
