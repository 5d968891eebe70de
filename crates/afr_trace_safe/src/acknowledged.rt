//! The first reply after an attempt, and whether it acknowledges the attempt.
ghost use Rattle.std.specs.Prelude.{◌≡◌, None, nat_lt, reverse, if◌then◌else◌};
ghost use Rattle.std.specs.Option.{option_copied};
ghost use Rattle.afr_lines.specs.Work.{reply_by};
ghost use Rattle.afr_model.specs.Attempts.{first_reply};
ghost use Rattle.afr_trace_safe.specs.Acknowledged.{begins_well, is_acknowledged, says_ok};

use afr_base::ActorId;
use afr_lines::{Line, Reply, line_at};

fn reply_by(a: ActorId, line: &Line) -> Option<&Reply>
    ensures { option_copied result ≡ reply_by a.0 line.now }
{
    match line {
        Line::End { actor, reply } => { if *actor == a { Some(reply) } else { None } }
        Line::Ask { .. } => None,
        Line::Begin { .. } => None,
        Line::HealBegin { .. } => None,
        Line::HealEnd { .. } => None,
        Line::Event { .. } => None,
    }
}

/// The same of a line after a position; nothing of one up to there.
fn reply_after(a: ActorId, attempt: usize, position: usize, line: &Line) -> Option<&Reply>
    ensures { option_copied result ≡ (if nat_lt attempt position then reply_by a.0 line.now else None) }
{
    if attempt < position {
        reply_by(a, line)
    } else {
        None
    }
}

/// The reply of the actor's first End line after a position. It walks no further than to that line.
fn first_reply(log: &[Line], a: ActorId, attempt: usize) -> Option<&Reply>
    ensures { option_copied result ≡ first_reply a.0 attempt (reverse log.now) }
{
    for position in attempt..log.len() {
        if let Some(reply) = reply_after(a, attempt, position, &log[position]) {
            return Some(reply);
        }
    }
    None
}

/// Whether an attempt begins at the position, and its actor's first End line after it says ok.
pub(crate) fn is_acknowledged(log: &[Line], attempt: usize) -> bool
    ensures { result ≡ is_acknowledged (reverse log.now) attempt }
{
    match line_at(log, attempt) {
        Some(line) => begins_well(line, log, attempt),
        None => false,
    }
}

fn begins_well(line: &Line, log: &[Line], attempt: usize) -> bool
    ensures { result ≡ begins_well (Some line.now) (reverse log.now) attempt }
{
    match line {
        Line::Begin { actor, .. } => says_ok(first_reply(log, *actor, attempt)),
        _ => false,
    }
}

fn says_ok(reply: Option<&Reply>) -> bool
    ensures { result ≡ says_ok (option_copied reply.entry) }
{
    match reply {
        Some(Reply::Ok(_)) => true,
        _ => false,
    }
}
