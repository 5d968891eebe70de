//! What is asked of a line without making it: whether it is a request, and whom it waits for.
ghost use Rattle.std.specs.Prelude.{◌≡◌, List, None, length, true};
ghost use Rattle.std.specs.Option.{option_map};
ghost use Rattle.afr_lines.specs.declared.line.Line.{Line};
ghost use Rattle.afr_log.specs.Entries.{IsThere, line_of};
ghost use Rattle.afr_log.specs.Log.{told_line, unasked_line, waited_for, waits_for};

use crate::packed::{Packed, Short};
use crate::shown::ToldLine;
use afr_base::ActorId;
use afr_lines::{Domain, Line, Request, Told};

/// A line that is kept, where it is no request.
fn unasked(line: &Line) -> Option<ToldLine<'_>>
    ensures { option_map told_line result ≡ unasked_line line.now }
{
    match line {
        Line::Ask { .. } => None,
        _ => Some(ToldLine::Kept(line)),
    }
}

/// The line of an entry, where it is no request and these lines are kept.
pub(crate) fn entry_unasked<'a>(entry: &Packed, kept: &'a [Line]) -> Option<ToldLine<'a>>
    requires { IsThere (length kept.now) entry.now }
    ensures { option_map told_line result ≡ unasked_line (line_of kept.now entry.now) }
{
    match entry {
        Packed::Kept(place) => unasked(&kept[*place]),
        Packed::HealBegun { kind, actor, id } => Some(ToldLine::HealBegun {
            actor: *actor,
            gfid: id.gfid(),
            kind: *kind,
        }),
        Packed::HealEnded {
            kind,
            actor,
            end,
            id,
        } => Some(ToldLine::HealEnded {
            actor: *actor,
            gfid: id.gfid(),
            kind: *kind,
            end: *end,
        }),
        _ => None,
    }
}

/// Whether an entry holds a request.
pub(crate) fn entry_asks(entry: &Packed) -> bool
    ensures { (kept : List Line) → result ≡ true → unasked_line (line_of kept entry.now) ≡ None }
{
    match entry {
        Packed::Kept(_) => false,
        Packed::HealBegun { .. } => false,
        Packed::HealEnded { .. } => false,
        _ => true,
    }
}

/// Whom a kept line waits for.
fn waits_for(line: &Line) -> Option<ActorId>
    ensures { result ≡ waits_for line.now }
{
    match line {
        Line::Ask {
            request: Request::Lock {
                domain: Domain::Work,
                ..
            },
            told: Told::Held(owner),
            ..
        } => Some(*owner),
        _ => None,
    }
}

/// Whom a lock of the works waits for, by what it was told.
fn holder(domain: Domain, told: Short) -> Option<ActorId>
    ensures { result ≡ waited_for domain told }
{
    match (domain, told) {
        (Domain::Work, Short::Held(owner)) => Some(owner),
        _ => None,
    }
}

/// Whom the line of an entry waits for, where these lines are kept.
pub(crate) fn entry_waits(entry: &Packed, kept: &[Line]) -> Option<ActorId>
    requires { IsThere (length kept.now) entry.now }
    ensures { result ≡ waits_for (line_of kept.now entry.now) }
{
    match entry {
        Packed::LockRange { domain, by, .. } => holder(*domain, by.told),
        Packed::LockName { domain, by, .. } => holder(*domain, by.told),
        Packed::Kept(place) => waits_for(&kept[*place]),
        _ => None,
    }
}
