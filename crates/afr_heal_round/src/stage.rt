//! Where a round stands.

use afr_heal_machine::HealMachine;

/// Where a round stands.
#[derive(Drop)]
pub enum RoundStage {
    /// The index is asked for. What it lists is healed then, or the round is over with the list.
    Asking { heals: bool },
    Healing(HealMachine),
    /// No heal is left, or the index was refused.
    Over { refused: bool },
}
