//! The directory that is removed: what was asked of it under its lock.
ghost use Rattle.std.specs.Prelude.{◌≡◌, ◌<◌, ◌≤◌};
ghost use Rattle.afr_base.specs.Bricks.{added, common};
ghost use Rattle.afr_model_moves.specs.Note.{is_held};
ghost use Rattle.afr_client_entry.specs.Removals.Removal.{both_held, child_after, takers_of, untouched, whole};
ghost use Rattle.afr_client_entry.specs.declared.removing.stage.RemovalStage.{RemovalStage};
ghost use Rattle.afr_client_walk.specs.Looks.{noted_look};

use afr_base::{BrickId, BrickSet, Gfid};
use afr_choice::{Looked, holders};
use afr_discipline::Register;
use afr_lines::{Area, Told};

/// What is known of the child, and of those that can remove it.
#[derive(Clone, Copy, Debug)]
pub struct Child {
    pub gfid: Gfid,
    /// Asked for the lock of the whole child, and not told that another actor holds it.
    pub lock_asked: BrickSet,
    /// Looked at since.
    pub look_asked: BrickSet,
    /// What they showed.
    pub looked: Looked,
    /// The bricks that take part in the attempt: by the last look, they hold the directory, its name's lock and the child's.
    pub takers: BrickSet,
    /// The copy that the rule picked when its looks were over: it is listed.
    pub reader: BrickId,
}

impl Child {
    /// Nothing was asked yet.
    pub(crate) fn new(gfid: Gfid) -> Child
        ensures { result ≡ untouched gfid }
    {
        Child {
            gfid,
            lock_asked: BrickSet::none(),
            look_asked: BrickSet::none(),
            looked: Looked::none(),
            takers: BrickSet::none(),
            reader: BrickId(0),
        }
    }

    /// The area that covers the whole child.
    pub(crate) fn whole(&self) -> Area
        ensures { result ≡ whole self.now }
    {
        Area::Name {
            gfid: self.gfid,
            name: None,
        }
    }

    /// A brick has answered the lock.
    pub(crate) fn locked(&self, b: BrickId, told: &Told, r: &Register) -> Child
        requires { b.0 < 5 }
        ensures { result ≡ child_after RemovalStage.Locking b.0 told.now r.now self.now }
    {
        let mut child = *self;
        child.lock_asked = self.lock_asked.with_if(!is_held(told), b);
        child
    }

    /// A brick has answered the look, and this is the register since.
    pub(crate) fn seen(&self, b: BrickId, told: &Told, r: &Register) -> Child
        requires { b.0 < 5 }
        ensures { result ≡ child_after RemovalStage.Looking b.0 told.now r.now self.now }
    {
        let mut child = *self;
        child.look_asked = self.look_asked.with(b);
        note_look(&mut child.looked, b, told);
        child.takers = takers_of(r);
        child
    }
}

fn is_held(told: &Told) -> bool
    ensures { result ≡ is_held told.now }
{
    matches!(told, Told::Held(_))
}

fn note_look(looked: &mut Looked, brick: BrickId, told: &Told)
    requires { brick.0 < 5 }
    ensures { looked.new ≡ noted_look brick.0 told.now looked.old }
{
    match told {
        Told::Seen(view) => looked.note(brick, Some(*view)),
        Told::NoObject => looked.note(brick, None),
        _ => looked.lose(brick),
    }
}

/// The bricks where the name and the whole child are locked.
pub(crate) fn both_held(r: &Register) -> BrickSet
    ensures { result ≡ both_held r.now }
{
    r.held.common(r.second_held)
}

/// Those of them that have the directory.
pub(crate) fn takers_of(r: &Register) -> BrickSet
    ensures { result ≡ takers_of r.now }
{
    holders(&r.looked).common(both_held(r))
}
