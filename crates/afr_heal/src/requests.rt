//! What each step of a heal asks of a brick.
ghost use Rattle.std.specs.Prelude.{◌≡◌, ◌<◌, ◌≤◌};
ghost use Rattle.afr_discipline.specs.Stands.{heal_part_of, seen_as, step_of};
ghost use Rattle.afr_heal.specs.Coming.{HasRoom};
ghost use Rattle.afr_heal.specs.Requests.{area_now, next_area, position, read_in, repair_in, request_in};
ghost use Rattle.afr_model_moves.specs.Keeps.{keeps_in};
ghost use Rattle.afr_model_moves.specs.Register.{piece_area, whole_area};
ghost use Rattle.afr_model_moves.specs.Rules.{heal_area};

use afr_base::{BrickId, FIRST_ATTRIBUTE, Gfid, HEAL_BLOCK, Kind};
use afr_discipline::{HealPart, Register, Step, len_at, owed_at, present_part};
use afr_lines::{Area, Domain, Request};
use afr_object::Repair;

/// All of one kind of the object.
fn whole_of(gfid: Gfid, kind: Kind) -> Area
    ensures { result ≡ whole_area gfid.0 kind }
{
    match kind {
        Kind::Bytes => Area::Range {
            gfid,
            from: 0,
            to: FIRST_ATTRIBUTE,
        },
        Kind::Attrs => Area::Range {
            gfid,
            from: FIRST_ATTRIBUTE,
            to: FIRST_ATTRIBUTE + 1,
        },
        Kind::Names => Area::Name { gfid, name: None },
    }
}

/// What the Heal lock of an object covers.
pub(crate) fn heal_range(gfid: Gfid) -> Area
    ensures { result ≡ heal_area gfid.0 }
{
    Area::Range {
        gfid,
        from: 0,
        to: FIRST_ATTRIBUTE,
    }
}

fn piece_of(gfid: Gfid, at: u32) -> Area
    ensures { result ≡ piece_area gfid.0 at }
{
    Area::Range {
        gfid,
        from: u64::from(at),
        to: u64::from(at) + u64::from(HEAL_BLOCK),
    }
}

/// The area of this part. The first unlock of a piece has moved `upto`, so it is not computed again.
pub(crate) fn area_of(register: &Register, gfid: Gfid, kind: Kind) -> Area
    ensures { result ≡ area_now (seen_as register.now) gfid kind }
{
    match register.area {
        Some(area) => area,
        None => whole_of(gfid, kind),
    }
}

/// The area of the next part of a heal of bytes.
pub(crate) fn next_of(register: &Register, source: BrickId, gfid: Gfid) -> Area
    requires { source.0 < 5 }
    ensures { result ≡ next_area (seen_as register.now) source.0 gfid }
{
    if register.upto < len_at(&register.seen, source) {
        piece_of(gfid, register.upto)
    } else {
        whole_of(gfid, Kind::Bytes)
    }
}

fn place_of(read: Option<u32>) -> u32
    ensures { result ≡ position read }
{
    match read {
        Some(at) => at,
        None => 0,
    }
}

fn read_of(register: &Register, gfid: Gfid, kind: Kind) -> Request
    ensures { result ≡ read_in (seen_as register.now) gfid kind }
{
    match kind {
        Kind::Bytes => Request::ReadBytes {
            gfid,
            at: register.upto,
            len: HEAL_BLOCK,
        },
        Kind::Attrs => Request::ReadAttrs { gfid },
        Kind::Names => Request::List { gfid },
    }
}

fn repair_of(register: &Register, source: BrickId, gfid: Gfid, kind: Kind) -> Repair
    requires { source.0 < 5 }
    ensures { result ≡ repair_in (seen_as register.now) source.0 gfid kind (heal_part_of register.now.part) }
{
    match (kind, present_part(register)) {
        (Kind::Bytes, HealPart::Opening) => Repair::CutTo {
            gfid,
            len: len_at(&register.seen, source),
        },
        (Kind::Bytes, _) => Repair::Copy {
            gfid,
            at: register.upto,
            span: HEAL_BLOCK,
            read: place_of(register.reads[source.0 as usize]),
        },
        (Kind::Attrs, _) => Repair::PutAttrs {
            gfid,
            read: place_of(register.reads[source.0 as usize]),
        },
        (Kind::Names, _) => Repair::PutNames {
            gfid,
            reads: [
                register.reads[0],
                register.reads[1],
                register.reads[2],
                register.reads[3],
                register.reads[4],
            ],
        },
    }
}

/// The request of a step at a brick, written in its place.
pub(crate) fn put_request(
    register: &Register,
    source: BrickId,
    gfid: Gfid,
    kind: Kind,
    step: Step,
    brick: BrickId,
    request: &mut Request,
)
    requires few { register.now.shape.n ≤ 5 }
    requires source { source.0 < 5 }
    requires small { brick.0 < 5 }
    requires room { HasRoom register.now kind brick.0 }
    ensures { request.new ≡ request_in register.now.shape.n (keeps_in register.now.shape) (seen_as register.now) source.0 gfid kind (step_of step) brick.0 }
{
    match step {
        Step::HealLocks => put_lock(Domain::Heal, heal_range(gfid), request),
        Step::WorkLocks => put_lock(Domain::Work, area_of(register, gfid, kind), request),
        Step::Looks => *request = Request::Look { gfid },
        Step::Reads => *request = read_of(register, gfid, kind),
        Step::HealPres => *request = Request::Pre { gfid, kind },
        Step::Mends => {
            *request = Request::Mend {
                repair: repair_of(register, source, gfid, kind),
            }
        }
        Step::Settles => {
            *request = Request::Settle {
                gfid,
                kind,
                less: owed_at(register, source, kind, brick),
            }
        }
        Step::Unlocks => put_unlock(Domain::Work, area_of(register, gfid, kind), request),
        Step::HealUnlocks
        | Step::Untouched
        | Step::Open
        | Step::Pres
        | Step::Applies
        | Step::Posts => put_unlock(Domain::Heal, heal_range(gfid), request),
    }
}

fn put_lock(domain: Domain, area: Area, request: &mut Request)
    ensures { request.new ≡ Request.Lock domain area }
{
    *request = Request::Lock { domain, area };
}

fn put_unlock(domain: Domain, area: Area, request: &mut Request)
    ensures { request.new ≡ Request.Unlock domain area }
{
    *request = Request::Unlock { domain, area };
}
