//! The source of a healer's present heal, as code reads it.
ghost use Rattle.std.specs.Prelude.{◌≡◌, option_map};
ghost use Rattle.afr_law_picks.specs.Sources.Sources.{has_chosen, is_later, picked_by, picked_source};

use afr_base::{BrickId, Kind};
use afr_heal_machine::{HealMachine, HealOutcome};
use afr_healer::Healer;

/// The first locks and looks don't end a heal so.
fn is_later(outcome: HealOutcome) -> bool
    ensures { result ≡ is_later outcome }
{
    match outcome {
        HealOutcome::Busy(_) | HealOutcome::Short | HealOutcome::Nothing | HealOutcome::Split =>
            false,
        HealOutcome::Settled | HealOutcome::Moved(_) | HealOutcome::Failed => true,
    }
}

/// The first looks are over and didn't end the heal.
fn has_chosen(heal: &HealMachine) -> bool
    ensures { result ≡ has_chosen heal.now }
{
    if heal.register().broken {
        is_later(heal.outcome())
    } else {
        heal.has_looked()
    }
}

fn picked_in(heal: &HealMachine) -> Option<BrickId>
    ensures { option_map (λ b. b.0) result ≡ picked_by heal.now.kind (has_chosen heal.now) heal.now.source.0 }
{
    match heal.kind() {
        Kind::Names => None,
        Kind::Bytes | Kind::Attrs => {
            if has_chosen(heal) {
                Some(heal.source())
            } else {
                None
            }
        }
    }
}

/// What the rule picked for the healer's present heal; none before it was asked, and for names.
pub fn chosen_source(healer: &Healer) -> Option<BrickId>
    ensures { option_map (λ b. b.0) result ≡ picked_source healer.now }
{
    match &healer.round {
        Some(round) => match round.heal() {
            Some(heal) => picked_in(heal),
            None => None,
        },
        None => None,
    }
}
