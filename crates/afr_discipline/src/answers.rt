//! What an answer tells of its request.
ghost use Rattle.std.specs.Prelude.{◌≡◌};
ghost use Rattle.afr_model_moves.specs.Note.{answers, fails, given, is_done, is_failed, is_given, is_granted, is_held, view_of};
ghost use Rattle.afr_model_moves.specs.Past.{is_gone};

use afr_lines::Told;
use afr_object::View;

pub(crate) fn is_granted(told: &Told) -> bool
    ensures { result ≡ is_granted told.now }
{
    match told {
        Told::Granted => true,
        _ => false,
    }
}

pub(crate) fn is_done(told: &Told) -> bool
    ensures { result ≡ is_done told.now }
{
    match told {
        Told::Done => true,
        _ => false,
    }
}

/// A read gave something.
pub(crate) fn is_given(told: &Told) -> bool
    ensures { result ≡ is_given told.now }
{
    match told {
        Told::Given => true,
        _ => false,
    }
}

/// A failed unlock is asked again.
pub(crate) fn is_failed(told: &Told) -> bool
    ensures { result ≡ is_failed told.now }
{
    match told {
        Told::Failed => true,
        _ => false,
    }
}

/// The session has ended, and with it its locks.
pub(crate) fn is_gone(told: &Told) -> bool
    ensures { result ≡ is_gone told.now }
{
    match told {
        Told::NotConnected => true,
        _ => false,
    }
}

/// No answer, as far as a heal goes.
pub(crate) fn fails(told: &Told) -> bool
    ensures { result ≡ fails told.now }
{
    match told {
        Told::NotConnected | Told::Failed => true,
        _ => false,
    }
}

/// Another actor has a lock that is in the way.
pub(crate) fn is_held(told: &Told) -> bool
    ensures { result ≡ is_held told.now }
{
    match told {
        Told::Held(_) => true,
        _ => false,
    }
}

/// An answer to a look: a view, or that there is no copy.
pub(crate) fn answers(told: &Told) -> bool
    ensures { result ≡ answers told.now }
{
    match told {
        Told::Seen(_) | Told::NoObject => true,
        _ => false,
    }
}

/// The view that was told.
pub(crate) fn view_of(told: &Told) -> Option<View>
    ensures { result ≡ view_of told.now }
{
    match told {
        Told::Seen(view) => Some(*view),
        _ => None,
    }
}

/// The position of a read that gave something.
pub(crate) fn given(told: &Told, at: u32) -> Option<u32>
    ensures { result ≡ given told.now at }
{
    match told {
        Told::Given => Some(at),
        _ => None,
    }
}
