//! What the lines before a line show, as it is handed over to fill the line.
ghost use Rattle.std.specs.Prelude.{◌≡◌};
ghost use Rattle.afr_trace_build.specs.Shown.{empty_view, len_in, listed_in, view_in, views_in};

use afr_base::{AllMarks, NameId, What};
use afr_choice::Looked;
use afr_object::{Entry, NameList, View};

/// What the lines before a line show of what its text leaves out.
#[derive(Drop)]
pub enum Shown {
    Nothing,
    /// Of a look that was seen: the view.
    View(View),
    /// Of a copy: how many bytes its read showed.
    Bytes(u32),
    /// Of a split: the views of the last looks.
    Views([Option<View>; 5]),
    /// Of an end that gave something: the names that the actor listed last.
    Names(NameList),
}

/// The view of an empty file, whose numbers are all 0.
fn empty_view() -> View
    ensures { result ≡ empty_view }
{
    View {
        what: What::File,
        len: 0,
        marks: AllMarks::zero(),
    }
}

pub(crate) fn view_in(shown: &Shown) -> View
    ensures { result ≡ view_in shown.now }
{
    match shown {
        Shown::View(view) => *view,
        _ => empty_view(),
    }
}

pub(crate) fn len_in(shown: &Shown) -> u32
    ensures { result ≡ len_in shown.now }
{
    match shown {
        Shown::Bytes(len) => *len,
        _ => 0,
    }
}

pub(crate) fn views_in(shown: &Shown) -> [Option<View>; 5]
    ensures { result ≡ views_in shown.now }
{
    match shown {
        Shown::Views(views) => *views,
        _ => Looked::none().views,
    }
}

pub(crate) fn listed_in(shown: &Shown) -> &[(NameId, Entry)]
    ensures { result.now ≡ listed_in shown.now }
{
    match shown {
        Shown::Names(names) => names.as_slice(),
        _ => &[],
    }
}
