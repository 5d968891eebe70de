//! The register of an actor: what the lines of one work outside its heals, or of one heal, show.
ghost use Rattle.std.specs.Prelude.{◌≡◌, ◌≤◌};
ghost use Rattle.afr_choice.specs.Looks.{no_looks};
ghost use Rattle.afr_model_moves.specs.Register.{untouched};
ghost use Rattle.afr_discipline.specs.Stands.{Stands, no_lines};

use crate::notes::has_five;
use afr_base::{BrickId, BrickSet, Gfid, Kind, Shape};
use afr_choice::Looked;
use afr_lines::{Area, Request};
use afr_object::Change;

/// What an actor does next: it asks a brick, begins an attempt or a part of a heal, or ends its work or its heal.
#[derive(Clone, Copy, Debug)]
pub enum Move<'a> {
    Ask(BrickId, &'a Request),
    Begin(&'a Change),
    HealBegin(Gfid, Kind),
    End { ok: bool },
}

/// The steps of a transaction, from `Open` to `Posts`, and those of a heal in their order; `Untouched` is where no line
/// was.
#[derive(Clone, Copy, Debug)]
pub enum Step {
    Untouched,
    Open,
    Pres,
    Applies,
    Posts,
    HealLocks,
    WorkLocks,
    Looks,
    Reads,
    HealPres,
    Mends,
    Settles,
    Unlocks,
    HealUnlocks,
}

/// The parts of a heal; only that of bytes has more than the first.
#[derive(Clone, Copy, Debug)]
pub enum HealPart {
    Opening,
    Piece,
    Finish,
}

/// What the lines of one work outside its heals, or of one heal, show.
#[derive(Clone, Copy, Debug)]
pub struct Register {
    /// The bricks of the volume, and whether one is an arbiter.
    pub shape: Shape,
    /// What the present transaction, or the present part of a heal, locks.
    pub area: Option<Area>,
    /// The bricks where `area` is held.
    pub held: BrickSet,
    /// Another area that the transaction locks, as the child of a directory that is removed.
    pub second: Option<Area>,
    /// The bricks where `second` is held.
    pub second_held: BrickSet,
    /// The bricks where the Heal lock is held.
    pub healing: BrickSet,
    /// The views since the lock; in a heal, since its last HealBegin.
    pub looked: Looked,
    /// The bricks whose pre-op was done; in a heal, those whose dirty number it raised.
    pub pre: BrickSet,
    /// The bricks that carried the operation out.
    pub done: BrickSet,
    /// The bricks whose post-op was done.
    pub post: BrickSet,
    /// The views of a heal since its first HealBegin, before its second.
    pub seen: Looked,
    /// The positions of the reads of the present part of a heal that gave contents.
    pub reads: [Option<u32>; 5],
    /// How many bytes of the file the pieces of a heal are past.
    pub upto: u32,
    /// The bricks whose numbers the heal took back.
    pub settled: BrickSet,
    /// The heal has unlocks left and no other request.
    pub broken: bool,
    /// The step that the lines are in.
    pub(crate) step: Step,
    /// The bricks that were asked in this step, and are not to be asked again.
    pub(crate) asked: BrickSet,
    /// The transaction has an Unlock line of its area.
    pub(crate) unlocked: bool,
    /// The position of the present Begin or HealBegin.
    pub(crate) begun: Option<u32>,
    /// The lines are those of a heal.
    pub(crate) inside: bool,
    /// The object of the heal, by its Heal lock.
    pub(crate) object: Gfid,
    /// The kind of the heal, by its HealBegin.
    pub(crate) kind: Kind,
    /// The part that the heal is in.
    pub(crate) part: HealPart,
    /// The copies that may be the source by all lines of the heal.
    pub(crate) possible: BrickSet,
}

/// The register of no line.
pub fn fresh(shape: Shape) -> Register
    requires { shape.n ≤ 5 }
    ensures value { result ≡ no_lines shape }
    ensures stands { Stands result untouched }
    ensures shape { result.shape ≡ shape }
{
    empty(shape)
}

/// A register is made that of no line, where it stands: it is large.
pub fn renew(register: &mut Register)
    requires { register.old.shape.n ≤ 5 }
    ensures { register.new ≡ no_lines register.old.shape }
{
    register.area = None;
    register.held = BrickSet::none();
    register.second = None;
    register.second_held = BrickSet::none();
    register.healing = BrickSet::none();
    forget(&mut register.looked);
    register.pre = BrickSet::none();
    register.done = BrickSet::none();
    register.post = BrickSet::none();
    forget(&mut register.seen);
    register.reads = [None; 5];
    register.upto = 0;
    register.settled = BrickSet::none();
    register.broken = false;
    register.step = Step::Untouched;
    register.asked = BrickSet::none();
    register.unlocked = false;
    register.begun = None;
    register.inside = false;
    register.object = Gfid(0);
    register.kind = Kind::Bytes;
    register.part = HealPart::Opening;
    register.possible = BrickSet::all(register.shape.n);
}

/// Nobody was looked at, written where it stands.
pub(crate) fn forget(looked: &mut Looked)
    ensures { looked.new ≡ no_looks }
{
    has_five(&looked.views);
    looked.reached = BrickSet::none();
    looked.views[0] = None;
    looked.views[1] = None;
    looked.views[2] = None;
    looked.views[3] = None;
    looked.views[4] = None;
}

/// The register of no line, field by field.
pub(crate) fn empty(shape: Shape) -> Register
    requires { shape.n ≤ 5 }
    ensures { result ≡ no_lines shape }
{
    Register {
        shape,
        area: None,
        held: BrickSet::none(),
        second: None,
        second_held: BrickSet::none(),
        healing: BrickSet::none(),
        looked: Looked::none(),
        pre: BrickSet::none(),
        done: BrickSet::none(),
        post: BrickSet::none(),
        seen: Looked::none(),
        reads: [None; 5],
        upto: 0,
        settled: BrickSet::none(),
        broken: false,
        step: Step::Untouched,
        asked: BrickSet::none(),
        unlocked: false,
        begun: None,
        inside: false,
        object: Gfid(0),
        kind: Kind::Bytes,
        part: HealPart::Opening,
        possible: BrickSet::all(shape.n),
    }
}
