//! The reply of a heal.
ghost use Rattle.std.specs.Prelude.{◌≡◌, IfOk};
ghost use Rattle.afr_heal_machine.specs.Outcome.{reply_of};

use crate::outcome::HealOutcome;
use afr_base::NoMemory;
use afr_choice::Looked;
use afr_lines::HealReply;
use afr_object::Views;
use std::alloc::Global;

/// The reply of a heal that ends so. Only the views of a split take memory.
pub(crate) fn ending(
    alloc: Global,
    outcome: HealOutcome,
    seen: &Looked,
) -> Result<HealReply, NoMemory>
    ensures { IfOk result (λ reply. reply ≡ reply_of outcome seen.now) }
{
    match outcome {
        HealOutcome::Settled => Ok(HealReply::Settled),
        HealOutcome::Busy(owner) => Ok(HealReply::Busy(owner)),
        HealOutcome::Short => Ok(HealReply::Short),
        HealOutcome::Nothing => Ok(HealReply::Nothing),
        HealOutcome::Split => {
            let views = Views::new(alloc, &seen.views)?;
            Ok(HealReply::Split(views))
        }
        HealOutcome::Moved(brick) => Ok(HealReply::Moved(brick)),
        HealOutcome::Failed => Ok(HealReply::Failed),
    }
}
