//! The lines of the tests: requests, views and registers, and the notes of a line at one brick or at all.
ghost use Rattle.std.specs.Prelude.{◌≡◌, ◌<◌, ◌≤◌};
ghost use Rattle.afr_discipline.specs.Notes.{AsksBelow};

use afr_base::{AllMarks, BrickId, BrickSet, Gfid, Kind, Marks, Shape, What};
use afr_discipline::{Move, Register, fresh, may, note};
use afr_lines::{Area, Domain, Request, Told};
use afr_object::{Repair, View};

pub(crate) const ATTRS: u64 = 1 << 63;

pub(crate) const FILE: Gfid = Gfid(2);

/// No file has more bytes.
pub(crate) const LONGEST: u32 = 1_048_576;

pub(crate) fn untouched() -> Register
    ensures { result.shape.n ≡ 3 }
{
    fresh(Shape {
        n: 3,
        arbiter: false,
    })
}

pub(crate) fn all_bytes() -> Area {
    Area::Range {
        gfid: FILE,
        from: 0,
        to: ATTRS,
    }
}

pub(crate) fn all_attrs() -> Area {
    Area::Range {
        gfid: FILE,
        from: ATTRS,
        to: ATTRS + 1,
    }
}

pub(crate) fn locks(domain: Domain, area: Area) -> Request {
    Request::Lock { domain, area }
}

pub(crate) fn unlocks(domain: Domain, area: Area) -> Request {
    Request::Unlock { domain, area }
}

pub(crate) fn raises(kind: Kind) -> Request {
    Request::Pre { gfid: FILE, kind }
}

pub(crate) fn clean() -> View {
    View {
        what: What::File,
        len: 7,
        marks: AllMarks::zero(),
    }
}

/// A copy that accuses brick 2 of having missed one change of the attributes.
pub(crate) fn ahead() -> View {
    let mut marks = AllMarks::zero();
    marks.attrs.pending[2] = 1;
    View {
        what: What::File,
        len: 7,
        marks,
    }
}

pub(crate) fn closes(attempt: u32) -> Request {
    Request::Post {
        attempt,
        gfid: FILE,
        kind: Kind::Bytes,
        missed: BrickSet::none(),
    }
}

pub(crate) fn puts(read: u32) -> Request {
    Request::Mend {
        repair: Repair::PutAttrs { gfid: FILE, read },
    }
}

/// Takes back what is held against brick 2, and the begun changes.
pub(crate) fn settles(missed: u32, dirty: u32) -> Request {
    Request::Settle {
        gfid: FILE,
        kind: Kind::Attrs,
        less: Marks {
            dirty,
            pending: [0, 0, missed, 0, 0],
        },
    }
}

/// Notes the move, and tells whether it was allowed before.
pub(crate) fn makes(register: &mut Register, step: &Move<'_>, told: Told, at: u32) -> bool
    requires few { register.old.shape.n ≤ 5 }
    requires small { AsksBelow step.now }
    ensures { register.new.shape ≡ register.old.shape }
{
    let allowed = may(register, step);
    if register.upto <= LONGEST {
        note(register, step, &told, at);
    }
    allowed
}

pub(crate) fn asks(register: &mut Register, b: u8, request: &Request, told: Told, at: u32) -> bool
    requires few { register.old.shape.n ≤ 5 }
    requires small { b < 5 }
    ensures { register.new.shape ≡ register.old.shape }
{
    makes(register, &Move::Ask(BrickId(b), request), told, at)
}

/// The request is made at the three bricks in turn, and is answered alike by each.
pub(crate) fn asks_all(register: &mut Register, request: &Request, told: Told, at: u32) -> bool
    requires few { register.old.shape.n ≤ 5 }
    requires soon { at ≤ 1000 }
    ensures { register.new.shape ≡ register.old.shape }
{
    let first = asks(register, 0, request, told, at);
    let second = asks(register, 1, request, told, at + 1);
    let third = asks(register, 2, request, told, at + 2);
    first && second && third
}

/// A heal locks, begins, and sees that brick 2 missed a change; tells whether each of its moves was allowed.
pub(crate) fn sees_behind(register: &mut Register) -> bool
    requires { register.old.shape.n ≤ 5 }
    ensures { register.new.shape ≡ register.old.shape }
{
    let lock = locks(Domain::Heal, all_bytes());
    let work = locks(Domain::Work, all_attrs());
    let look = Request::Look { gfid: FILE };
    let begin = Move::HealBegin(FILE, Kind::Attrs);
    let opened = asks_all(register, &lock, Told::Granted, 0);
    let locked = asks_all(register, &work, Told::Granted, 3);
    let begun = makes(register, &begin, Told::Done, 6);
    let first = asks(register, 0, &look, Told::Seen(ahead()), 7);
    let second = asks(register, 1, &look, Told::Seen(ahead()), 8);
    let third = asks(register, 2, &look, Told::Seen(clean()), 9);
    opened && locked && begun && first && second && third
}

/// Whether the request may come next at the brick.
pub(crate) fn may_ask(register: &Register, b: u8, request: &Request) -> bool
    requires { register.now.shape.n ≤ 5 }
{
    may(register, &Move::Ask(BrickId(b), request))
}

pub(crate) fn may_end(register: &Register) -> bool
    requires { register.now.shape.n ≤ 5 }
{
    may(register, &Move::End { ok: true })
}
