//! What the readings of the two names say against a rename.
ghost use Rattle.std.specs.Prelude.{◌≡◌, None, Some};
ghost use Rattle.afr_client_entry.specs.Renames.Against.{against_new, against_old, half_reply, is_acknowledged, is_same};

use crate::Refusal;
use afr_base::{Gfid, What};
use afr_client_transaction::TransactionOutcome;
use afr_lines::{Answer, Good, Reply};
use afr_object::Entry;

/// What the answer for the new name says against its making.
pub(crate) fn against_new(answer: &Answer) -> Option<Refusal>
    ensures { result ≡ against_new answer.now }
{
    match answer {
        Answer::Entry(None) => None,
        Answer::Entry(Some(_)) => Some(Refusal::Exists),
        _ => Some(Refusal::Failed),
    }
}

/// What the answer for the old name says against its removal: it has to lead to the file still. Another's name of that path is
/// as good as none.
pub(crate) fn against_old(file: Gfid, answer: &Answer) -> Option<Refusal>
    ensures { result ≡ against_old file answer.now }
{
    match answer {
        Answer::Entry(Some(entry)) => {
            if is_same(file, *entry) {
                None
            } else {
                Some(Refusal::NoEntry)
            }
        }
        Answer::Entry(None) => Some(Refusal::NoEntry),
        _ => Some(Refusal::Failed),
    }
}

fn is_same(file: Gfid, entry: Entry) -> bool
    ensures { result ≡ is_same file entry }
{
    match entry.what {
        What::File => entry.gfid.0 == file.0,
        What::Dir => false,
    }
}

pub(crate) fn is_acknowledged(outcome: &TransactionOutcome) -> bool
    ensures { result ≡ is_acknowledged outcome.now }
{
    matches!(outcome, TransactionOutcome::Acknowledged)
}

/// The reply of a rename whose new name stands, by what its removal has ended with.
pub(crate) fn half_reply(outcome: &TransactionOutcome) -> Reply
    ensures { result ≡ half_reply outcome.now }
{
    if is_acknowledged(outcome) {
        Reply::Ok(Good::Done)
    } else {
        Reply::Half
    }
}
