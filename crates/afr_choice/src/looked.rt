//! What the bricks showed of one object.
ghost use Rattle.std.specs.Prelude.{◌≡◌, ◌<◌};
ghost use Rattle.afr_base.specs.Marks.{marks_of};
ghost use Rattle.afr_choice.specs.Looks.{no_looks, with_look, without_look};

use afr_base::{BrickId, BrickSet, Kind, Marks};
use afr_object::View;

/// The bricks that answered their last look, and what each of them showed: no view where it lacks
/// the object.
#[derive(Clone, Copy, Debug, PartialEq, Eq)]
pub struct Looked {
    pub reached: BrickSet,
    pub views: [Option<View>; 5],
}

impl Looked {
    /// Nobody was looked at.
    pub fn none() -> Looked
        ensures { result ≡ no_looks }
    {
        Looked {
            reached: BrickSet::none(),
            views: [None; 5],
        }
    }

    /// The brick answered a look; what it showed at an earlier one is forgotten.
    pub fn note(&mut self, b: BrickId, view: Option<View>)
        requires { b.0 < 5 }
        ensures { self.new ≡ with_look b.0 view self.old }
    {
        self.reached = self.reached.with(b);
        self.views[b.0 as usize] = view;
    }

    /// The brick didn't answer its look; what it showed at an earlier one is forgotten.
    pub fn lose(&mut self, b: BrickId)
        requires { b.0 < 5 }
        ensures { self.new ≡ without_look b.0 self.old }
    {
        self.reached = self.reached.without(b);
        self.views[b.0 as usize] = None;
    }
}

/// The numbers of one kind that a view shows, where they lie.
pub fn marks_shown(view: &View, kind: Kind) -> &Marks
    ensures { result.now ≡ marks_of kind view.now.marks }
{
    match kind {
        Kind::Bytes => &view.marks.bytes,
        Kind::Attrs => &view.marks.attrs,
        Kind::Names => &view.marks.names,
    }
}
