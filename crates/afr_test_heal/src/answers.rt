//! Which answers bricks give to the requests of a heal.
ghost use Rattle.std.specs.Prelude.{◌≡◌, ℕ, true};
ghost use Rattle.afr_heal.specs.Answers.{fits};
ghost use Rattle.afr_heal.specs.Engine.{Ask};
ghost use Rattle.afr_heal_machine.specs.Healing.{CanHear, IsShowable, IsTellable};

use afr_base::LONGEST_FILE;
use afr_lines::{Answer, Request, Told, told_of};
use afr_object::View;

/// Whether bricks give this answer to this request of a heal.
fn fits(request: &Request, told: &Told) -> bool
    ensures { result ≡ fits request.now told.now }
{
    match told {
        Told::NotConnected | Told::Failed => true,
        Told::Granted | Told::Held(_) => matches!(request, Request::Lock { .. }),
        Told::Seen(_) | Told::NoObject => matches!(request, Request::Look { .. }),
        Told::Given => matches!(
            request,
            Request::ReadBytes { .. } | Request::ReadAttrs { .. } | Request::List { .. }
        ),
        Told::Done => matches!(
            request,
            Request::Unlock { .. }
                | Request::Pre { .. }
                | Request::Mend { .. }
                | Request::Settle { .. }
        ),
    }
}

fn is_showable(view: &View) -> bool
    ensures { result ≡ true → IsShowable view.now }
{
    view.len <= LONGEST_FILE
        && view.marks.bytes.dirty < u32::MAX
        && view.marks.attrs.dirty < u32::MAX
        && view.marks.names.dirty < u32::MAX
}

/// Whether a view in the answer has no length beyond that of the longest file, and leaves room for one more change.
fn is_tellable(told: &Told) -> bool
    ensures { result ≡ true → IsTellable told.now }
{
    match told {
        Told::Seen(view) => is_showable(view),
        _ => true,
    }
}

/// Whether the tests may give this answer to this request of a heal: only such answers may a heal hear.
pub(crate) fn can_hear(request: &Request, answer: &Answer) -> bool
    ensures { result ≡ true → (b : ℕ) → CanHear (Ask b request.now) answer.now }
{
    let told = told_of(answer);
    fits(request, &told) && is_tellable(&told)
}
