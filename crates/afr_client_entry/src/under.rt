//! Under the locks of a name, which is read before the change is begun: what a transaction begins, and what it ends with.
ghost use Rattle.std.specs.Prelude.{◌≡◌, ℕ, false, true, Ok, Some, None};
ghost use Rattle.afr_client_entry.specs.Entry.{progress_begun};
ghost use Rattle.afr_client_entry.specs.Renames.Under.{next_under};
ghost use Rattle.afr_client_transaction.specs.Progress.{is_over};
ghost use Rattle.afr_discipline.specs.Free.{is_ask};
ghost use Rattle.afr_lines.specs.declared.line.Next.{Next};
ghost use Rattle.afr_lines.specs.declared.request.Request.{Request};

use crate::refusal::{Refusal, reply_to};
use crate::stage::Found;
use afr_base::NoMemory;
use afr_client_transaction::Transaction;
use afr_lines::Reply;
use afr_object::Change;
use std::alloc::Global;

/// The change of the next line, where that is a Begin line at this position: the name was read before it.
pub(crate) fn begins_under(
    transaction: &Transaction,
    found: Found,
    at: u32,
) -> Result<Option<Change>, NoMemory>
    ensures some { (change : Change) → result ≡ Ok (Some change) → (asked : Request) → next_under found at asked transaction.now ≡ Next.Begin change }
    ensures none { result ≡ Ok None → (asked : Request) → is_ask (next_under found at asked transaction.now) ≡ false → is_over transaction.now.stage transaction.now ≡ true }
{
    match found {
        Found::Unread(_) => Ok(None),
        _ => transaction.begins(at),
    }
}

/// The transaction hears of a Begin line at this position.
pub(crate) fn begun_under(transaction: &mut Transaction, found: Found, at: u32)
    ensures { transaction.new ≡ progress_begun found at transaction.old }
{
    match found {
        Found::Unread(_) => {}
        Found::Fits | Found::Refused(_) => transaction.begun(at),
    }
}

/// The reply, where the next line is the end.
pub(crate) fn end_under(
    alloc: Global,
    transaction: &Transaction,
    found: Found,
) -> Result<Option<Reply>, NoMemory>
    ensures some { (reply : Reply) → result ≡ Ok (Some reply) → (at : ℕ) (asked : Request) → next_under found at asked transaction.now ≡ Next.End reply }
    ensures none { result ≡ Ok None → is_over transaction.now.stage transaction.now ≡ false }
{
    match found {
        Found::Refused(why) => refused(transaction, why),
        _ => transaction.end(alloc),
    }
}

/// A refusal is said once no lock is left.
fn refused(transaction: &Transaction, why: Refusal) -> Result<Option<Reply>, NoMemory>
    ensures some { (reply : Reply) → result ≡ Ok (Some reply) → (at : ℕ) (asked : Request) → next_under (Found.Refused why) at asked transaction.now ≡ Next.End reply }
    ensures none { result ≡ Ok None → is_over transaction.now.stage transaction.now ≡ false }
{
    if transaction.is_over() {
        Ok(Some(reply_to(why)))
    } else {
        Ok(None)
    }
}
