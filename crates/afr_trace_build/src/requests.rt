//! The request and the answer that a text stands for.
ghost use Rattle.std.specs.Prelude.{◌≡◌, ◌+◌, ◌<◌, ◌&&◌, nat_le, option_map, reverse};
ghost use Rattle.std.specs.Option.{option_copied};
ghost use Rattle.afr_lines.specs.Log.{change_at, from_oldest};
ghost use Rattle.afr_plan.specs.Reading.{checked};
ghost use Rattle.afr_trace_build.specs.Requests.{area_from, asks_for, flagged_bricks, may_all_miss, may_miss, no_slots, placed_reads, post_from, request_from, told_from, took_from};
ghost use Rattle.afr_trace_build.specs.Requests as spec;
ghost use Rattle.afr_trace_build.specs.Shown.{len_in};

use crate::named::{is_attrs_read, is_brick, is_read, listed_brick};
use crate::showing::{Shown, len_in, view_in};
use afr_base::{BrickId, BrickSet, FIRST_ATTRIBUTE, Gfid, LONGEST_FILE};
use afr_lines::{Area, Line, Request, Told, change_at, kind_for, line_at};
use afr_object::{Change, Repair, object_of};
use afr_plan::Plan;
use afr_trace_read::{Answered, Span, SpelledRequest};

/// What of an object a lock covers. The attributes lie from one place on, where a range without an end ends too.
fn area_from(gfid: Gfid, span: Span) -> Area
    ensures { result ≡ area_from gfid span }
{
    match span {
        Span::Meta => Area::Range {
            gfid,
            from: FIRST_ATTRIBUTE,
            to: FIRST_ATTRIBUTE + 1,
        },
        Span::Range { from, to: None } => Area::Range {
            gfid,
            from,
            to: FIRST_ATTRIBUTE,
        },
        Span::Range { from, to: Some(to) } => Area::Range { gfid, from, to },
        Span::AllNames => Area::Name { gfid, name: None },
        Span::OfName(name) => Area::Name {
            gfid,
            name: Some(name),
        },
    }
}

// ---- the close of an attempt

fn may_miss(plan: &Plan, missed: &[bool; 5], b: BrickId) -> bool
    requires { b.0 < 5 }
    ensures { result ≡ may_miss plan.now missed.now b.0 }
{
    !missed[b.0 as usize] || is_brick(plan, b)
}

fn may_all_miss(plan: &Plan, missed: &[bool; 5]) -> bool
    ensures { result ≡ may_all_miss plan.now missed.now }
{
    may_miss(plan, missed, BrickId(0))
        && may_miss(plan, missed, BrickId(1))
        && may_miss(plan, missed, BrickId(2))
        && may_miss(plan, missed, BrickId(3))
        && may_miss(plan, missed, BrickId(4))
}

fn flagged_bricks(missed: &[bool; 5]) -> BrickSet
    ensures { result ≡ flagged_bricks missed.now }
{
    BrickSet::of_five(missed[0], missed[1], missed[2], missed[3], missed[4])
}

fn post_from(
    plan: &Plan,
    attempt: u32,
    missed: &[bool; 5],
    change: Option<&Change>,
) -> Option<Request>
    ensures { result ≡ post_from plan.now attempt missed.now (option_copied change.entry) }
{
    let change = change?;
    if !may_all_miss(plan, missed) {
        return None;
    }
    Some(Request::Post {
        attempt,
        gfid: object_of(change),
        kind: kind_for(change),
        missed: flagged_bricks(missed),
    })
}

// ---- repairs

/// The positions of merged lists, each at the place of its brick; none where a line is no list or the bricks don't rise.
fn placed_reads(log: &[Line], reads: &[Option<u32>; 5]) -> Option<[Option<u32>; 5]>
    ensures { result ≡ placed_reads (reverse log.now) 0 no_slots reads.now }
{
    let mut slots: [Option<u32>; 5] = [None; 5];
    let mut next: u8 = 0;
    let mut rest: &[Option<u32>] = reads.as_slice();
    while let [read, more @ ..] = rest {
        if let Some(position) = read {
            let brick = listed_brick(line_at(log, *position as usize))?;
            if brick < next || brick >= 5 {
                return None;
            }
            slots[brick as usize] = Some(*position);
            next = brick + 1;
        }
        rest = more;
    }
    Some(slots)
}

fn put_names(log: &[Line], gfid: Gfid, reads: &[Option<u32>; 5]) -> Option<Request>
    ensures { result ≡ option_map (λ slots. Request.Mend (Repair.PutNames gfid slots)) (placed_reads (reverse log.now) 0 no_slots reads.now) }
{
    let reads = placed_reads(log, reads)?;
    Some(Request::Mend {
        repair: Repair::PutNames { gfid, reads },
    })
}

fn put_attrs(log: &[Line], gfid: Gfid, read: u32) -> Option<Request>
    ensures { result ≡ checked (asks_for spec.is_attrs_read (from_oldest read (reverse log.now))) (Request.Mend (Repair.PutAttrs gfid read)) }
{
    if !is_attrs_read(line_at(log, read as usize)) {
        return None;
    }
    Some(Request::Mend {
        repair: Repair::PutAttrs { gfid, read },
    })
}

/// A copy ends within the longest file, and is no shorter than what its read showed.
fn copy(log: &[Line], shown: &Shown, gfid: Gfid, at: u32, span: u32, read: u32) -> Option<Request>
    ensures { result ≡ checked (asks_for spec.is_read (from_oldest read (reverse log.now)) && nat_le (at + span) 1048576 && nat_le (len_in shown.now) span) (Request.Mend (Repair.Copy gfid at span read)) }
{
    let fits = is_read(line_at(log, read as usize))
        && u64::from(at) + u64::from(span) <= u64::from(LONGEST_FILE)
        && len_in(shown) <= span;
    if !fits {
        return None;
    }
    Some(Request::Mend {
        repair: Repair::Copy {
            gfid,
            at,
            span,
            read,
        },
    })
}

fn apply(log: &[Line], attempt: u32) -> Option<Request>
    ensures { result ≡ option_map (λ change. Request.Apply attempt) (change_at attempt (reverse log.now)) }
{
    match change_at(log, attempt as usize) {
        Some(_) => Some(Request::Apply { attempt }),
        None => None,
    }
}

// ---- requests

/// The request that a text stands for; none where it names what the plan or the lines before it don't have.
pub(crate) fn request_from(
    plan: &Plan,
    log: &[Line],
    shown: &Shown,
    asked: &SpelledRequest,
) -> Option<Request>
    ensures { result ≡ request_from plan.now (reverse log.now) shown.now asked.now }
{
    match asked {
        SpelledRequest::Lock { domain, gfid, span } => Some(Request::Lock {
            domain: *domain,
            area: area_from(*gfid, *span),
        }),
        SpelledRequest::Unlock { domain, gfid, span } => Some(Request::Unlock {
            domain: *domain,
            area: area_from(*gfid, *span),
        }),
        SpelledRequest::Look { gfid } => Some(Request::Look { gfid: *gfid }),
        SpelledRequest::ReadBytes { gfid, at, len } => Some(Request::ReadBytes {
            gfid: *gfid,
            at: *at,
            len: *len,
        }),
        SpelledRequest::ReadName { dir, name } => Some(Request::ReadName {
            gfid: *dir,
            name: *name,
        }),
        SpelledRequest::List { gfid } => Some(Request::List { gfid: *gfid }),
        SpelledRequest::ReadAttr { gfid, key } => Some(Request::ReadAttr {
            gfid: *gfid,
            key: *key,
        }),
        SpelledRequest::ReadAttrs { gfid } => Some(Request::ReadAttrs { gfid: *gfid }),
        SpelledRequest::Index => Some(Request::Index),
        SpelledRequest::Pre { gfid, kind } => Some(Request::Pre {
            gfid: *gfid,
            kind: *kind,
        }),
        SpelledRequest::Apply { attempt } => apply(log, *attempt),
        SpelledRequest::Post { attempt, missed } => {
            post_from(plan, *attempt, missed, change_at(log, *attempt as usize))
        }
        SpelledRequest::CutTo { gfid, len } => Some(Request::Mend {
            repair: Repair::CutTo {
                gfid: *gfid,
                len: *len,
            },
        }),
        SpelledRequest::Copy {
            gfid,
            at,
            span,
            read,
        } => copy(log, shown, *gfid, *at, *span, *read),
        SpelledRequest::PutAttrs { gfid, read } => put_attrs(log, *gfid, *read),
        SpelledRequest::PutNames { gfid, reads } => put_names(log, *gfid, reads),
        SpelledRequest::Settle { gfid, kind, less } => Some(Request::Settle {
            gfid: *gfid,
            kind: *kind,
            less: *less,
        }),
    }
}

// ---- answers

pub(crate) fn told_from(shown: &Shown, answered: Answered) -> Told
    ensures { result ≡ told_from shown.now answered }
{
    match answered {
        Answered::Granted => Told::Granted,
        Answered::Held(owner) => Told::Held(owner),
        Answered::Seen => Told::Seen(view_in(shown)),
        Answered::Done => Told::Done,
        Answered::Given => Told::Given,
        Answered::NoObject => Told::NoObject,
        Answered::Lost | Answered::Gone => Told::NotConnected,
        Answered::Failed => Told::Failed,
    }
}

/// Whether the brick carried the request out.
pub(crate) fn took_from(answered: Answered) -> bool
    ensures { result ≡ took_from answered }
{
    match answered {
        Answered::Gone | Answered::Failed => false,
        _ => true,
    }
}
