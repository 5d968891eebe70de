//! One of a rename's transactions: under the locks of a name this is read before the change is begun.
ghost use Rattle.std.specs.Prelude.{◌≡◌, ℕ, false, true, Some, None};
ghost use Rattle.afr_base.specs.declared.ids.Kind.{Kind};
ghost use Rattle.afr_lines.specs.Areas.{kind_for};
ghost use Rattle.afr_client_entry.specs.Renames.Under.{IsUnder, choices_under, found_after, next_under, progress_after};
ghost use Rattle.afr_rule.specs.Choosing.{IsRule};
ghost use Rattle.afr_client_transaction.specs.Between.{is_read};
ghost use Rattle.afr_client_transaction.specs.Progress as progress;
ghost use Rattle.afr_client_transaction.specs.Progress.{is_beginning};
ghost use Rattle.afr_client_walk.specs.Choosing.{RuleAnswers, reader_of};
ghost use Rattle.afr_discipline.specs.Free.{is_ask};

use crate::stage::{hears, picked_under, settle};
use crate::{Found, Refusal};
use afr_base::BrickId;
use afr_client_transaction::Transaction;
use afr_client_walk::reader_of;
use afr_lines::{Next, Request, Told};
use afr_rule::{Candidate, ReadRule};

/// Whom the next line under the locks asks, where it is a request.
pub(crate) fn asks_under(
    transaction: &Transaction,
    found: Found,
    asked: Request,
    request: &mut Request,
) -> Option<BrickId>
    ensures some { (b : BrickId) → result ≡ Some b → (at : ℕ) → next_under found at asked transaction.now ≡ Next.Ask b request.new }
    ensures none { result ≡ None → (at : ℕ) → is_ask (next_under found at asked transaction.now) ≡ false }
{
    match found {
        Found::Unread(brick) => {
            if !transaction.is_beginning() {
                return transaction.asks(request);
            }
            *request = asked;
            Some(brick)
        }
        Found::Fits | Found::Refused(_) => transaction.asks(request),
    }
}

/// The transaction hears an answer, of which the name's says this against the change. What the name was found to be comes
/// first, and then what the rule has picked.
pub(crate) fn heard_under<G: Fn(&[Candidate]) -> usize>(
    transaction: &mut Transaction,
    found: Found,
    why: Option<Refusal>,
    brick: BrickId,
    request: &Request,
    asked: Request,
    told: &Told,
    at: u32,
    rule: &ReadRule<G>,
) -> (Found, Option<BrickId>)
    requires rule { IsRule G.Fn rule.now }
    requires sound { IsUnder transaction.old.change transaction.old found }
    requires names { kind_for transaction.old.change ≡ Kind.Names }
    requires reads { is_read asked ≡ true }
    requires more { progress.is_over transaction.old.stage transaction.old ≡ false }
    requires line { next_under found at asked transaction.old ≡ Next.Ask brick request.now }
    ensures transaction { transaction.new ≡ progress_after found why asked told.now at transaction.old }
    ensures picked { RuleAnswers G.Fn rule.now (choices_under found told.now at transaction.old) result.1 }
    ensures found { result.0 ≡ found_after (reader_of result.1) found why transaction.old.stage }
{
    match found {
        Found::Unread(reader) => unread_heard(
            transaction,
            reader,
            why,
            brick,
            request,
            asked,
            told,
            at,
            rule,
        ),
        Found::Fits | Found::Refused(_) => {
            hears(transaction, brick, request, told, at);
            (found, None)
        }
    }
}

fn unread_heard<G: Fn(&[Candidate]) -> usize>(
    transaction: &mut Transaction,
    reader: BrickId,
    why: Option<Refusal>,
    brick: BrickId,
    request: &Request,
    asked: Request,
    told: &Told,
    at: u32,
    rule: &ReadRule<G>,
) -> (Found, Option<BrickId>)
    requires rule { IsRule G.Fn rule.now }
    requires sound { IsUnder transaction.old.change transaction.old (Found.Unread reader) }
    requires names { kind_for transaction.old.change ≡ Kind.Names }
    requires reads { is_read asked ≡ true }
    requires more { progress.is_over transaction.old.stage transaction.old ≡ false }
    requires line { next_under (Found.Unread reader) at asked transaction.old ≡ Next.Ask brick request.now }
    ensures transaction { transaction.new ≡ progress_after (Found.Unread reader) why asked told.now at transaction.old }
    ensures picked { RuleAnswers G.Fn rule.now (choices_under (Found.Unread reader) told.now at transaction.old) result.1 }
    ensures found { result.0 ≡ found_after (reader_of result.1) (Found.Unread reader) why transaction.old.stage }
{
    let _ = asked;
    if !transaction.is_beginning() {
        hears(transaction, brick, request, told, at);
        let picked = picked_under(transaction, rule);
        return (Found::Unread(reader_of(picked)), picked);
    }
    transaction.note_read(brick, request, told, at);
    (settle(transaction, why), None)
}
