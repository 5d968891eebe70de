//! One transaction after another in one work: the second is the first of a work that has only looked and read so far.

ghost use Rattle.afr_client_transaction.specs.Again.Again.{AgainAllowed, AgainNew, AgainSame, AgainSound, EndsPlain, PlainBegun, PlainFirst, PlainKept, PlainRead};

mod again;

use crate::a_transaction_stays_sound;
pub use again::begins_again;

/// Whatever a transaction was told, it leaves nothing but what its next lock clears. So where it is over and acknowledged, the
/// first lock of another is allowed, and with it the register is the one of a work whose first transaction this is.
pub fn a_transaction_follows_another()
    ensures first { PlainFirst }
    ensures kept { PlainKept }
    ensures read { PlainRead }
    ensures begun { PlainBegun }
    ensures ends { EndsPlain }
    ensures allowed { AgainAllowed }
    ensures same { AgainSame }
    ensures sound { AgainSound }
    ensures new { AgainNew }
{
    a_transaction_stays_sound();
}
