//! Looking at the copies of one object, brick after brick.
ghost use Rattle.std.specs.Prelude.{◌≡◌, ◌<◌, ◌≤◌, false};
ghost use Rattle.afr_base.specs.Bricks.{is_nothing, lowest};
ghost use Rattle.afr_lines.specs.Told.{told_by};
ghost use Rattle.afr_client_walk.specs.Looks.{heard_look, left_to_look, no_look, noted_look};

use afr_base::{BrickId, BrickSet};
use afr_choice::Looked;
use afr_lines::Answer;

/// The bricks that were asked for a look at one object, and what they showed.
#[derive(Clone, Copy, Debug)]
pub struct Looks {
    pub asked: BrickSet,
    pub looked: Looked,
}

impl Looks {
    /// Nobody was asked yet.
    pub fn new() -> Looks
        ensures { result ≡ no_look }
    {
        Looks {
            asked: BrickSet::none(),
            looked: Looked::none(),
        }
    }

    /// Whether all `n` bricks were asked.
    pub fn is_over(&self, n: u8) -> bool
        requires { n ≤ 5 }
        ensures { result ≡ is_nothing (left_to_look n self.now) }
    {
        BrickSet::all(n).minus(self.asked).is_empty()
    }

    /// The brick to ask next.
    pub fn next_brick(&self, n: u8) -> BrickId
        requires few { n ≤ 5 }
        requires left { is_nothing (left_to_look n self.now) ≡ false }
        ensures number { result.0 ≡ lowest (left_to_look n self.now) }
        ensures small { result.0 < 5 }
    {
        BrickSet::all(n).minus(self.asked).lowest()
    }

    /// The next brick has answered.
    pub fn hear(&mut self, n: u8, answer: &Answer)
        requires few { n ≤ 5 }
        requires left { is_nothing (left_to_look n self.old) ≡ false }
        ensures { self.new ≡ heard_look n (told_by answer.now) self.old }
    {
        let brick = self.next_brick(n);
        self.asked = self.asked.with(brick);
        note_look(&mut self.looked, brick, answer);
    }
}

/// The view goes from the answer to its place: it is large.
fn note_look(looked: &mut Looked, brick: BrickId, answer: &Answer)
    requires { brick.0 < 5 }
    ensures { looked.new ≡ noted_look brick.0 (told_by answer.now) looked.old }
{
    match answer {
        Answer::Seen(view) => looked.note(brick, Some(*view)),
        Answer::NoObject => looked.note(brick, None),
        _ => looked.lose(brick),
    }
}
