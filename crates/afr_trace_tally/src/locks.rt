//! The locks on a brick, one line more at a time, and which of them is in the way of a request.
ghost use Rattle.std.specs.Prelude.{◌≡◌, true, false, filter, IfSome, IfNone, OnOk, ◌∷◌, [], ◌++◌};
ghost use Rattle.afr_model.specs.Locks.{granted_by_line, outlives, releases};
ghost use Rattle.afr_lines.specs.Overlap.{overlap, same_area};
ghost use Rattle.afr_lines.specs.Locks.{same_name, share_name, share_number, conflicts, first_conflict, same_domain};

use crate::sessions::ends_session;
use afr_base::{ActorId, BrickId, Gfid, NameId, NoMemory};
use afr_lines::{Area, Domain, HeldLock, Line, Request, Told};

/// The locks that a line neither releases nor ends the sessions of.
pub(crate) fn drop_released(locks: &mut Vec<HeldLock<Area>>, line: &Line, b: BrickId)
    ensures { locks.new.items ≡ filter (outlives line.now b.0) locks.old.items }
{
    locks.retain(|lock| outlives(line, b, lock));
}

pub(crate) fn add_granted(
    locks: &mut Vec<HeldLock<Area>>,
    line: &Line,
    b: BrickId,
) -> Result<(), NoMemory>
    ensures ok { OnOk result (locks.new.items ≡ locks.old.items ++ granted_by_line b.0 line.now) }
{
    if let Some(lock) = granted_by_line(line, b) {
        locks.push(lock)?;
    }
    Ok(())
}

fn granted_by_line(line: &Line, b: BrickId) -> Option<HeldLock<Area>>
    ensures some { IfSome result (λ lock. granted_by_line b.0 line.now ≡ lock ∷ []) }
    ensures none { IfNone result (granted_by_line b.0 line.now ≡ []) }
{
    match line {
        Line::Ask {
            actor,
            brick,
            request: Request::Lock { domain, area },
            told: Told::Granted,
            ..
        } => granted_if(*brick == b, *actor, *domain, *area),
        _ => None,
    }
}

fn granted_if(flag: bool, owner: ActorId, domain: Domain, area: Area) -> Option<HeldLock<Area>>
    ensures some { IfSome result (λ lock. (flag ≡ true) × (lock ≡ record { owner = owner; domain = domain; area = area })) }
    ensures none { IfNone result (flag ≡ false) }
{
    if flag {
        Some(HeldLock {
            owner,
            domain,
            area,
        })
    } else {
        None
    }
}

/// Whether a lock stays at a line, which may release it or end its owner's session.
fn outlives(line: &Line, b: BrickId, lock: &HeldLock<Area>) -> bool
    ensures { result ≡ outlives line.now b.0 lock.now }
{
    !releases(line, b, lock) && !ends_session(lock.owner, b, line)
}

fn releases(line: &Line, b: BrickId, lock: &HeldLock<Area>) -> bool
    ensures { result ≡ releases line.now b.0 lock.now }
{
    match line {
        Line::Ask {
            actor,
            brick,
            request: Request::Unlock { domain, area },
            took,
            ..
        } => {
            *took
                && *brick == b
                && *actor == lock.owner
                && same_domain(*domain, lock.domain)
                && same_area(area, &lock.area)
        }
        _ => false,
    }
}

fn same_domain(one: Domain, other: Domain) -> bool
    ensures { result ≡ same_domain one other }
{
    match one {
        Domain::Work => matches!(other, Domain::Work),
        Domain::Heal => matches!(other, Domain::Heal),
    }
}

fn same_area(one: &Area, other: &Area) -> bool
    ensures { result ≡ same_area one.now other.now }
{
    match one {
        Area::Range { gfid, from, to } => is_range(other, *gfid, *from, *to),
        Area::Name { gfid, name } => is_name(other, *gfid, *name),
    }
}

fn is_range(area: &Area, g: Gfid, start: u64, end: u64) -> bool
    ensures { result ≡ same_area (Area.Range g start end) area.now }
{
    match area {
        Area::Range { gfid, from, to } => g == *gfid && start == *from && end == *to,
        Area::Name { .. } => false,
    }
}

fn is_name(area: &Area, g: Gfid, one: Option<NameId>) -> bool
    ensures { result ≡ same_area (Area.Name g one) area.now }
{
    match area {
        Area::Range { .. } => false,
        Area::Name { gfid, name } => g == *gfid && same_name(one, *name),
    }
}

fn same_name(one: Option<NameId>, other: Option<NameId>) -> bool
    ensures { result ≡ same_name one other }
{
    match (one, other) {
        (None, None) => true,
        (Some(n), Some(m)) => n == m,
        _ => false,
    }
}

/// Whether two names of a directory can't be locked by two owners: they are equal, or one is the whole directory.
fn share_name(one: Option<NameId>, other: Option<NameId>) -> bool
    ensures { result ≡ share_name one other }
{
    match (one, other) {
        (Some(n), Some(m)) => n == m,
        _ => true,
    }
}

fn overlap(one: &Area, other: &Area) -> bool
    ensures { result ≡ overlap one.now other.now }
{
    match one {
        Area::Range { gfid, from, to } => meets_range(other, *gfid, *from, *to),
        Area::Name { gfid, name } => meets_name(other, *gfid, *name),
    }
}

fn meets_range(area: &Area, g: Gfid, start: u64, end: u64) -> bool
    ensures { result ≡ overlap (Area.Range g start end) area.now }
{
    match area {
        Area::Range { gfid, from, to } => g == *gfid && share_number(start, end, *from, *to),
        Area::Name { .. } => false,
    }
}

/// Whether each of two ranges begins before the other ends, and has a number.
fn share_number(from: u64, to: u64, start: u64, end: u64) -> bool
    ensures { result ≡ share_number from to start end }
{
    from < end && start < to && from < to && start < end
}

fn meets_name(area: &Area, g: Gfid, one: Option<NameId>) -> bool
    ensures { result ≡ overlap (Area.Name g one) area.now }
{
    match area {
        Area::Range { .. } => false,
        Area::Name { gfid, name } => g == *gfid && share_name(one, *name),
    }
}

/// Whether a lock of another owner is in the way of a request.
fn conflicts(a: ActorId, domain: Domain, area: &Area, lock: &HeldLock<Area>) -> bool
    ensures { result ≡ conflicts overlap (record { owner = a; domain = domain; area = area.now }) lock.now }
{
    lock.owner != a && same_domain(domain, lock.domain) && overlap(area, &lock.area)
}

/// The owner of the first lock that is in the way of the actor's.
pub(crate) fn first_conflict(
    a: ActorId,
    domain: Domain,
    area: &Area,
    locks: &[HeldLock<Area>],
) -> Option<ActorId>
    ensures { result ≡ first_conflict overlap (record { owner = a; domain = domain; area = area.now }) locks.now }
{
    for lock in locks {
        if conflicts(a, domain, area, lock) {
            return Some(lock.owner);
        }
    }
    None
}
