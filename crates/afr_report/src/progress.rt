//! How far an actor has come.
ghost use Rattle.std.specs.Prelude.{◌≡◌, reverse};
ghost use Rattle.std.specs.Option.{option_copied};
ghost use Rattle.afr_lines.specs.Work.{ended, is_killed, kills, reply_by};
ghost use Rattle.afr_log.specs.Log.{told_line};
ghost use Rattle.afr_model.specs.Report.{standing};
ghost use Rattle.afr_report.specs.Own.{lines_at};

use crate::own::line_at;
use afr_base::ActorId;
use afr_lines::{Event, Line, Reply};
use afr_log::{Log, ToldLine};

/// How many works of an actor have ended, and whether it was killed.
#[derive(Clone, Copy)]
pub struct Progress {
    pub done: usize,
    pub dead: bool,
}

/// How far the actor has come by the lines at these positions of the log.
pub fn progress_of(actor: ActorId, own: &[u32], log: &Log) -> Progress
    ensures done { result.done ≡ ended actor.0 (lines_at log.now.items (reverse own.now)) }
    ensures dead { result.dead ≡ is_killed actor.0 (lines_at log.now.items (reverse own.now)) }
{
    let mut done = 0;
    let mut dead = false;
    for at in own {
        if let Some(told) = line_at(log, *at) {
            if told_reply(actor, told).is_some() {
                done += 1;
            }
            dead = told_kill(actor, told) || dead;
        }
    }
    Progress { done, dead }
}

/// What stands behind the numbers of an actor that isn't done.
pub fn standing(dead: bool, done: usize, works: usize) -> &'static str
    ensures { result.now ≡ standing dead done works }
{
    if dead {
        " dead"
    } else if done < works {
        " unfinished"
    } else {
        ""
    }
}

/// What is told to answer a work of the actor.
pub fn told_reply<'a>(actor: ActorId, told: ToldLine<'a>) -> Option<&'a Reply>
    ensures { option_copied result ≡ reply_by actor.0 (told_line told.entry) }
{
    match told {
        ToldLine::Kept(line) => reply_by(actor, line),
        ToldLine::HealBegun { .. } => None,
        ToldLine::HealEnded { .. } => None,
    }
}

/// Whether what is told kills the actor.
fn told_kill(actor: ActorId, told: ToldLine<'_>) -> bool
    ensures { result ≡ kills actor.0 (told_line told.entry) }
{
    match told {
        ToldLine::Kept(line) => kills(actor, line),
        ToldLine::HealBegun { .. } => false,
        ToldLine::HealEnded { .. } => false,
    }
}

/// What the line answers a work of the actor.
fn reply_by(actor: ActorId, line: &Line) -> Option<&Reply>
    ensures { option_copied result ≡ reply_by actor.0 line.now }
{
    match line {
        Line::End { actor: by, reply } => { if *by == actor { Some(reply) } else { None } }
        Line::Ask { .. } => None,
        Line::Begin { .. } => None,
        Line::HealBegin { .. } => None,
        Line::HealEnd { .. } => None,
        Line::Event { .. } => None,
    }
}

pub fn kills(actor: ActorId, line: &Line) -> bool
    ensures { result ≡ kills actor.0 line.now }
{
    match line {
        Line::Event {
            event: Event::Kill(killed),
        } => *killed == actor,
        _ => false,
    }
}
