//! How the commands of clients and the heals of a log ended.
ghost use Rattle.std.specs.Prelude.{◌≡◌, cond, count_by};
ghost use Rattle.afr_log.specs.Log.{told_line};
ghost use Rattle.afr_report.specs.Summary.Summary as specs;

use crate::own::told_line_at;
use afr_base::{ActorId, MOST_CLIENTS};
use afr_lines::{HealReply, Line, Reply};
use afr_log::{Log, ToldLine};

/// How often each end comes in a log.
#[derive(Clone, Copy)]
pub struct EndCounts {
    /// The commands of clients that were carried out.
    pub ok: usize,
    /// Their other commands that ended.
    pub refused: usize,
    /// The heals that brought every copy up to date that their first looks reached.
    pub settled: usize,
}

/// Counts the ends in one walk over the log, by its lines that are no requests.
pub fn count_ends(log: &Log) -> EndCounts
    ensures ok { result.ok ≡ count_by specs.ends_ok log.now.items }
    ensures refused { result.refused ≡ count_by specs.ends_refused log.now.items }
    ensures settled { result.settled ≡ count_by specs.ends_settled log.now.items }
{
    let mut ok = 0;
    let mut refused = 0;
    let mut settled = 0;
    for at in 0..log.len() {
        if let Some(told) = told_line_at(log, at) {
            ok += one_if(told_ok(told));
            refused += one_if(told_refused(told));
            settled += one_if(told_settled(told));
        }
    }
    EndCounts {
        ok,
        refused,
        settled,
    }
}

fn one_if(holds: bool) -> usize
    ensures { result ≡ cond holds 1 0 }
{
    if holds { 1 } else { 0 }
}

fn told_ok(told: ToldLine<'_>) -> bool
    ensures { result ≡ specs.ends_ok (told_line told.entry) }
{
    match told {
        ToldLine::Kept(line) => ends_ok(line),
        ToldLine::HealBegun { .. } => false,
        ToldLine::HealEnded { .. } => false,
    }
}

fn told_refused(told: ToldLine<'_>) -> bool
    ensures { result ≡ specs.ends_refused (told_line told.entry) }
{
    match told {
        ToldLine::Kept(line) => ends_refused(line),
        ToldLine::HealBegun { .. } => false,
        ToldLine::HealEnded { .. } => false,
    }
}

fn told_settled(told: ToldLine<'_>) -> bool
    ensures { result ≡ specs.ends_settled (told_line told.entry) }
{
    match told {
        ToldLine::Kept(line) => ends_settled(line),
        ToldLine::HealBegun { .. } => false,
        ToldLine::HealEnded { end, .. } => is_settled(&end.reply()),
    }
}

fn ends_ok(line: &Line) -> bool
    ensures { result ≡ specs.ends_ok line.now }
{
    match line {
        Line::End { actor, reply } => is_client(*actor) && is_ok(reply),
        _ => false,
    }
}

fn ends_refused(line: &Line) -> bool
    ensures { result ≡ specs.ends_refused line.now }
{
    match line {
        Line::End { actor, reply } => is_client(*actor) && !is_ok(reply),
        _ => false,
    }
}

fn ends_settled(line: &Line) -> bool
    ensures { result ≡ specs.ends_settled line.now }
{
    match line {
        Line::HealEnd { reply, .. } => is_settled(reply),
        _ => false,
    }
}

fn is_client(actor: ActorId) -> bool
    ensures { result ≡ specs.is_client actor }
{
    actor.0 <= MOST_CLIENTS
}

fn is_ok(reply: &Reply) -> bool
    ensures { result ≡ specs.is_ok reply.now }
{
    match reply {
        Reply::Ok(_) => true,
        _ => false,
    }
}

fn is_settled(reply: &HealReply) -> bool
    ensures { result ≡ specs.is_settled reply.now }
{
    match reply {
        HealReply::Settled => true,
        _ => false,
    }
}
