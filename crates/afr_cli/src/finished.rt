//! Whether the actors of a volume have any work left.
ghost use Rattle.std.specs.Prelude.{◌≡◌, ◌≤◌, ◌<◌, ◌+◌, ℕ, true, false, length};
ghost use Rattle.afr_model.specs.Actors.{IsActor};
ghost use Rattle.afr_volume.specs.Tasks.{is_done_in};
ghost use Rattle.afr_cli.specs.Crawl.{AreDoneIn, IsLeftIn};
ghost use Rattle.afr_cli.specs.Statuses.{AreDone, IsWorkLeft};

use afr_base::{ActorId, FIRST_CLIENT, FIRST_HEALER};
use afr_volume::Volume;

/// Whether each actor was killed or has ended all its works.
#[tactic(auto, using(crate::proofs::ActorLemmas::all_plain, crate::proofs::ActorLemmas::left_plain))]
pub fn all_done(volume: &Volume) -> bool
    requires few { length volume.now.plan.healers ≤ 16 }
    requires plain { volume.now.crawl ≡ false }
    ensures done { result ≡ true → AreDone volume.now.plan volume.now.log }
    ensures left { result ≡ false → IsWorkLeft volume.now.plan volume.now.log }
{
    all_done_in(volume)
}

/// Whether each actor was killed, or has ended all its works and is at no task.
#[tactic(auto, using(crate::proofs::ActorLemmas::all_actors))]
pub fn all_done_in(volume: &Volume) -> bool
    requires few { length volume.now.plan.healers ≤ 16 }
    ensures done { result ≡ true → AreDoneIn volume.now }
    ensures left { result ≡ false → IsLeftIn volume.now }
{
    volume.every_line();
    let clients = volume.plan().clients.len() as u16;
    let healers = volume.plan().healers.len() as u16;
    are_done(volume, FIRST_CLIENT, clients) && are_done(volume, FIRST_HEALER, healers)
}

/// The same of so many actors in a row.
fn are_done(volume: &Volume, first: u16, count: u16) -> bool
    requires few { first + count ≤ 33 }
    requires actors { (i : ℕ) → i < count → IsActor volume.now.plan (first + i) }
    ensures done { result ≡ true → (i : ℕ) → i < count → is_done_in (first + i) volume.now ≡ true }
    ensures left { result ≡ false → IsLeftIn volume.now }
{
    for i in 0..count {
        if !volume.is_done(ActorId(first + i)) {
            return false;
        }
    }
    true
}
