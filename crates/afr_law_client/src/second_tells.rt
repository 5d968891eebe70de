//! The second transaction of a rename: what its lines tell, that who is accused by its part is accused by the whole work, and
//! that the first one has asked for an unlock before it.

ghost use Rattle.afr_law_client.specs.Second.Held.{AcknowledgedUnlocks, HeldFirst, HeldGivenUp, HeldKept, HeldRead, HeldUnlocked, PartUnlocks};
ghost use Rattle.afr_law_client.specs.Second.Second.{BlamedWhole, PartsAreWhole, SecondTells};

use crate::lines_tell_of_a_transaction;
use afr_client_transaction::a_transaction_follows_another;

/// From its first lock on the lines of a second transaction tell of it what those of a first one tell.
pub fn a_second_transaction_tells()
    ensures { SecondTells }
{
    a_transaction_follows_another();
    lines_tell_of_a_transaction();
}

/// A work is its two transactions' parts, and a post-op that is blamed by the second part is blamed by the work.
pub fn a_part_is_blamed_as_the_whole()
    ensures parts { PartsAreWhole }
    ensures blamed { BlamedWhole }
{}

/// Until a transaction releases its locks, each brick that did post-op has its lock held, whatever was told. So a transaction
/// that is acknowledged and over has asked for an unlock.
pub fn an_acknowledged_attempt_unlocks()
    ensures first { HeldFirst }
    ensures kept { HeldKept }
    ensures read { HeldRead }
    ensures given_up { HeldGivenUp }
    ensures unlocked { HeldUnlocked }
    ensures unlocks { AcknowledgedUnlocks }
    ensures part { PartUnlocks }
{}
