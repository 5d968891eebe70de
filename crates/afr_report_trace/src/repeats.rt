//! Requests that one brick after another is asked alike.
ghost use Rattle.std.specs.Prelude.{◌≡◌, IsTrue};
ghost use Rattle.afr_lines.specs.declared.request.Area.TheVariants.{Name, Range};
ghost use Rattle.afr_object.specs.declared.change.Repair.TheVariants.{Copy, CutTo};

use afr_base::{Gfid, Kind, Marks, NameId};
use afr_lines::{Area, Domain, Request};
use afr_object::Repair;

/// Whether a request is one that most bricks are asked alike, one after another. It is kept then
/// and else is not; its text is the same either way.
pub(crate) fn is_asked_of_all(request: &Request) -> bool {
    match request {
        Request::Look { .. } | Request::Lock { .. } | Request::Unlock { .. } => true,
        Request::Pre { .. } | Request::Mend { .. } | Request::Settle { .. } => true,
        _ => false,
    }
}

/// Whether a request is the same as another. No says nothing.
pub(crate) fn is_repeated(request: &Request, other: &Request) -> bool
    ensures { IsTrue result → other.now ≡ request.now }
{
    match request {
        Request::Look { gfid } => is_look(other, *gfid),
        Request::Lock { domain, area } => is_lock(other, *domain, *area),
        Request::Unlock { domain, area } => is_unlock(other, *domain, *area),
        Request::Pre { gfid, kind } => is_pre(other, *gfid, *kind),
        Request::Mend { repair } => is_mend(other, repair),
        Request::Settle { gfid, kind, less } => is_settle(other, *gfid, *kind, less),
        _ => false,
    }
}

fn is_look(request: &Request, gfid: Gfid) -> bool
    ensures { IsTrue result → request.now ≡ Request.Look gfid }
{
    match request {
        Request::Look { gfid: other } => *other == gfid,
        _ => false,
    }
}

fn is_lock(request: &Request, domain: Domain, area: Area) -> bool
    ensures { IsTrue result → request.now ≡ Request.Lock domain area }
{
    match request {
        Request::Lock {
            domain: other,
            area: covered,
        } => *other == domain && is_area(*covered, area),
        _ => false,
    }
}

fn is_unlock(request: &Request, domain: Domain, area: Area) -> bool
    ensures { IsTrue result → request.now ≡ Request.Unlock domain area }
{
    match request {
        Request::Unlock {
            domain: other,
            area: covered,
        } => *other == domain && is_area(*covered, area),
        _ => false,
    }
}

fn is_pre(request: &Request, gfid: Gfid, kind: Kind) -> bool
    ensures { IsTrue result → request.now ≡ Request.Pre gfid kind }
{
    match request {
        Request::Pre {
            gfid: other,
            kind: with,
        } => *other == gfid && *with == kind,
        _ => false,
    }
}

fn is_settle(request: &Request, gfid: Gfid, kind: Kind, less: &Marks) -> bool
    ensures { IsTrue result → request.now ≡ Request.Settle gfid kind less.now }
{
    match request {
        Request::Settle {
            gfid: other,
            kind: with,
            less: marks,
        } => *other == gfid && *with == kind && *marks == *less,
        _ => false,
    }
}

fn is_mend(request: &Request, repair: &Repair) -> bool
    ensures { IsTrue result → request.now ≡ Request.Mend repair.now }
{
    match request {
        Request::Mend { repair: other } => is_repair(other, repair),
        _ => false,
    }
}

/// Whether two cuts or two copies are the same.
fn is_repair(repair: &Repair, other: &Repair) -> bool
    ensures { IsTrue result → repair.now ≡ other.now }
{
    match other {
        Repair::CutTo { gfid, len } => is_cut(repair, *gfid, *len),
        Repair::Copy {
            gfid,
            at,
            span,
            read,
        } => is_copy(repair, *gfid, *at, *span, *read),
        _ => false,
    }
}

fn is_cut(repair: &Repair, gfid: Gfid, len: u32) -> bool
    ensures { IsTrue result → repair.now ≡ CutTo gfid len }
{
    match repair {
        Repair::CutTo {
            gfid: other,
            len: to,
        } => *other == gfid && *to == len,
        _ => false,
    }
}

fn is_copy(repair: &Repair, gfid: Gfid, at: u32, span: u32, read: u32) -> bool
    ensures { IsTrue result → repair.now ≡ Copy gfid at span read }
{
    match repair {
        Repair::Copy {
            gfid: other,
            at: from,
            span: len,
            read: of,
        } => *other == gfid && *from == at && *len == span && *of == read,
        _ => false,
    }
}

fn is_area(area: Area, other: Area) -> bool
    ensures { IsTrue result → area ≡ other }
{
    match other {
        Area::Range { gfid, from, to } => is_range(area, gfid, from, to),
        Area::Name { gfid, name } => is_name(area, gfid, name),
    }
}

fn is_range(area: Area, gfid: Gfid, from: u64, to: u64) -> bool
    ensures { IsTrue result → area ≡ Range gfid from to }
{
    match area {
        Area::Range {
            gfid: other,
            from: first,
            to: last,
        } => other == gfid && first == from && last == to,
        Area::Name { .. } => false,
    }
}

fn is_name(area: Area, gfid: Gfid, name: Option<NameId>) -> bool
    ensures { IsTrue result → area ≡ Name gfid name }
{
    match area {
        Area::Range { .. } => false,
        Area::Name {
            gfid: other,
            name: called,
        } => other == gfid && called == name,
    }
}
