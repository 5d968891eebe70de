//! Where in the log the lines stand that tell how far each actor has come, gathered in one pass.
ghost use Rattle.std.specs.Prelude.{◌≡◌, IfOk, OnOk, [], length, replicate, reverse, slice_get, slice_index_or};
ghost use Rattle.std.specs.Option.{option_and_then, option_map};
ghost use Rattle.afr_log.specs.Log.{told_line, unasked};
ghost use Rattle.afr_report.specs.Own.{placed, places, subject_of};

use afr_base::{ACTORS, ActorId, NoMemory};
use afr_lines::{Event, Line};
use afr_log::{Log, ToldLine};
use afr_object::List;
use std::alloc::Global;

/// For each actor, by its number, the positions of the lines that tell of it, the oldest first: the
/// ends of its works and heals, and that it was killed. One pass over the log.
pub fn places(alloc: Global, log: &Log) -> Result<Vec<List<u32>>, NoMemory>
    ensures ok { IfOk result (λ lists. lists.items ≡ places (reverse log.now.items)) }
{
    let mut lists = no_places(alloc)?;
    for at in 0..log.len() {
        note_at(&mut lists, log, at)?;
    }
    Ok(lists)
}

/// An empty list for each actor.
fn no_places(alloc: Global) -> Result<Vec<List<u32>>, NoMemory>
    ensures ok { IfOk result (λ lists. lists.items ≡ replicate 20 []) }
{
    let mut lists: Vec<List<u32>> = Vec::with_capacity(alloc, ACTORS)?;
    for actor in 0..ACTORS {
        let _ = actor;
        lists.push(List::new(alloc))?;
    }
    Ok(lists)
}

/// Notes a position, if its line is no request and tells of an actor.
fn note_at(lists: &mut Vec<List<u32>>, log: &Log, at: usize) -> Result<(), NoMemory>
    ensures ok { OnOk result (lists.new.items ≡ placed (option_and_then subject_of (unasked (slice_get log.now.items at))) at lists.old.items) }
{
    note(lists, told_line_at(log, at), at)
}

/// Notes the position of a line, if there is one and it tells of an actor.
fn note(lists: &mut Vec<List<u32>>, told: Option<ToldLine<'_>>, at: usize) -> Result<(), NoMemory>
    ensures ok { OnOk result (lists.new.items ≡ placed (option_and_then subject_of (option_map told_line told.entry)) at lists.old.items) }
{
    let Some(told) = told else {
        return Ok(());
    };
    match told_subject(told) {
        Some(actor) => place(lists, actor.0 as usize, at),
        None => Ok(()),
    }
}

/// Adds a position at the end of an actor's list, if the actor is one of a plan.
#[tactic(auto, using(std::proofs::lemmas::List::set_past))]
fn place(lists: &mut Vec<List<u32>>, actor: usize, at: usize) -> Result<(), NoMemory>
    ensures ok { OnOk result (lists.new.items ≡ placed (Some actor) at lists.old.items) }
{
    if actor < lists.len() {
        let at = narrowed(at)?;
        lists[actor].push(at)?;
    }
    Ok(())
}

/// The actor of whom what is told tells how far it has come.
fn told_subject(told: ToldLine<'_>) -> Option<ActorId>
    ensures { option_map (λ actor. actor.0) result ≡ subject_of (told_line told.entry) }
{
    match told {
        ToldLine::Kept(line) => subject_of(line),
        ToldLine::HealBegun { .. } => None,
        ToldLine::HealEnded { actor, .. } => Some(actor),
    }
}

/// The actor of whom the line tells how far it has come.
fn subject_of(line: &Line) -> Option<ActorId>
    ensures { option_map (λ actor. actor.0) result ≡ subject_of line.now }
{
    match line {
        Line::End { actor, .. } => Some(*actor),
        Line::HealEnd { actor, .. } => Some(*actor),
        Line::Event { event } => killed(*event),
        Line::Ask { .. } => None,
        Line::Begin { .. } => None,
        Line::HealBegin { .. } => None,
    }
}

fn killed(event: Event) -> Option<ActorId>
    ensures { option_map (λ actor. actor.0) result ≡ subject_of (Line.Event event) }
{
    match event {
        Event::Kill(actor) => Some(actor),
        Event::Stop(_) => None,
        Event::Start(_) => None,
        Event::Cut(_, _) => None,
        Event::Join(_, _) => None,
    }
}

/// A position in four bytes. A log with more lines than that is more than memory has room for.
fn narrowed(at: usize) -> Result<u32, NoMemory>
    ensures ok { IfOk result (λ place. place ≡ at) }
{
    match u32::try_from(at) {
        Ok(place) => Ok(place),
        Err(_) => Err(NoMemory),
    }
}

/// The list of an actor.
pub fn own_places(lists: &[List<u32>], actor: ActorId) -> &[u32]
    ensures { result.now ≡ slice_index_or lists.now actor.0 [] }
{
    match lists.get(actor.0 as usize) {
        Some(own) => own.as_slice(),
        None => &[],
    }
}

/// The line at a position of the log, where it is no request. Most are requests, which one look tells.
pub fn told_line_at(log: &Log, at: usize) -> Option<ToldLine<'_>>
    ensures { option_map told_line result ≡ unasked (slice_get log.now.items at) }
{
    if log.is_asked(at) {
        return None;
    }
    log.told_at(at)
}

/// The line at a position of the log, where it is no request.
pub fn line_at(log: &Log, at: u32) -> Option<ToldLine<'_>>
    ensures { option_map told_line result ≡ unasked (slice_get log.now.items at) }
{
    log.told_at(at as usize)
}
