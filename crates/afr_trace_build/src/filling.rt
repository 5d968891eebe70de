//! Filling one line.
ghost use Rattle.std.specs.Prelude.{◌≡◌, ◌&&◌, IfOk, reverse};
ghost use Rattle.std.specs.Option.{option_copied};
ghost use Rattle.afr_trace_build.specs.Filling.{asked_line, begun, begun_write, done_by, fill_with, has_work, heal_reply_from, is_event_of, is_heal_end, reply_from, where_named};
ghost use Rattle.afr_trace_build.specs.Requests.{is_answer, is_brick, request_from};
ghost use Rattle.afr_trace_build.specs.Shown.{views_in};

use crate::given::good_from;
use crate::named::{has_work, is_answer, is_brick, is_event_of, is_heal_end, present};
use crate::requests::{request_from, told_from, took_from};
use crate::showing::{Shown, listed_in, views_in};
use afr_base::{ActorId, BrickId, Gfid, Kind, NoMemory};
use afr_lines::{Event, HealReply, Line, Reply};
use afr_object::{Change, TryCopy, Views};
use afr_plan::{Command, Plan};
use afr_trace_read::{
    Answered, Doing, Healed, SpelledChange, SpelledReply, SpelledRequest, TraceLine,
};
use std::alloc::Global;

/// What a text stands for after the lines before it.
#[derive(Drop)]
pub enum Filled {
    Stands(Line),
    /// It is the text of no line here.
    NoLine,
    /// It begins a write other than that of the actor's present command.
    OtherWords,
}

fn asked_line(
    plan: &Plan,
    log: &[Line],
    shown: &Shown,
    actor: ActorId,
    brick: BrickId,
    asked: &SpelledRequest,
    answered: Answered,
) -> Filled
    ensures { result ≡ asked_line actor brick shown.now answered (request_from plan.now (reverse log.now) shown.now asked.now) }
{
    match request_from(plan, log, shown, asked) {
        Some(request) => Filled::Stands(Line::Ask {
            actor,
            brick,
            request,
            told: told_from(shown, answered),
            took: took_from(answered),
        }),
        None => Filled::NoLine,
    }
}

fn ask(
    plan: &Plan,
    log: &[Line],
    shown: &Shown,
    actor: ActorId,
    brick: BrickId,
    asked: &SpelledRequest,
    answered: Answered,
) -> Filled
    ensures { result ≡ where_named (is_brick plan.now brick.0 && is_answer plan.now answered) (asked_line actor brick shown.now answered (request_from plan.now (reverse log.now) shown.now asked.now)) }
{
    if !is_brick(plan, brick) || !is_answer(plan, answered) {
        return Filled::NoLine;
    }
    asked_line(plan, log, shown, actor, brick, asked, answered)
}

fn begun_write(
    actor: ActorId,
    gfid: Gfid,
    at: u32,
    len: u64,
    command: Option<&Command>,
) -> Result<Filled, NoMemory>
    ensures ok { IfOk result (λ f. f ≡ begun_write actor gfid at len (option_copied command.entry)) }
{
    let Some(Command::Write { bytes, .. }) = command else {
        return Ok(Filled::OtherWords);
    };
    if bytes.len() as u64 != len {
        return Ok(Filled::OtherWords);
    }
    let bytes = bytes.copy()?;
    Ok(Filled::Stands(Line::Begin {
        actor,
        change: Change::Write { gfid, at, bytes },
    }))
}

fn begun(
    plan: &Plan,
    log: &[Line],
    actor: ActorId,
    change: &SpelledChange,
) -> Result<Filled, NoMemory>
    ensures ok { IfOk result (λ f. f ≡ begun plan.now (reverse log.now) actor change.now) }
{
    let change = match change {
        SpelledChange::Write { gfid, at, len } => {
            return begun_write(actor, *gfid, *at, *len, present(plan, actor, log));
        }
        SpelledChange::Cut { gfid, len } => Change::Cut {
            gfid: *gfid,
            len: *len,
        },
        SpelledChange::SetAttr { gfid, key, value } => Change::SetAttr {
            gfid: *gfid,
            key: *key,
            value: *value,
        },
        SpelledChange::Make {
            what,
            dir,
            name,
            gfid,
        } => Change::Make {
            dir: *dir,
            name: *name,
            gfid: *gfid,
            what: *what,
        },
        SpelledChange::Remove { what, dir, name } => Change::Remove {
            dir: *dir,
            name: *name,
            what: *what,
        },
    };
    Ok(Filled::Stands(Line::Begin { actor, change }))
}

fn split(alloc: Global, shown: &Shown) -> Result<Views, NoMemory>
    ensures ok { IfOk result (λ views. views ≡ views_in shown.now) }
{
    let views = views_in(shown);
    Views::new(alloc, &views)
}

fn heal_reply_from(alloc: Global, shown: &Shown, healed: Healed) -> Result<HealReply, NoMemory>
    ensures ok { IfOk result (λ reply. reply ≡ heal_reply_from shown.now healed) }
{
    match healed {
        Healed::Nothing => Ok(HealReply::Nothing),
        Healed::Settled => Ok(HealReply::Settled),
        Healed::Split => heal_split(alloc, shown),
        Healed::Busy(owner) => Ok(HealReply::Busy(owner)),
        Healed::Short => Ok(HealReply::Short),
        Healed::Moved(brick) => Ok(HealReply::Moved(brick)),
        Healed::Failed => Ok(HealReply::Failed),
    }
}

fn heal_split(alloc: Global, shown: &Shown) -> Result<HealReply, NoMemory>
    ensures ok { IfOk result (λ reply. reply ≡ HealReply.Split (views_in shown.now)) }
{
    let views = split(alloc, shown)?;
    Ok(HealReply::Split(views))
}

fn split_brain(alloc: Global, shown: &Shown) -> Result<Reply, NoMemory>
    ensures ok { IfOk result (λ reply. reply ≡ Reply.SplitBrain (views_in shown.now)) }
{
    let views = split(alloc, shown)?;
    Ok(Reply::SplitBrain(views))
}

fn given(
    alloc: Global,
    plan: &Plan,
    log: &[Line],
    shown: &Shown,
    actor: ActorId,
    text: &[u8],
) -> Result<Reply, NoMemory>
    ensures ok { IfOk result (λ reply. reply ≡ reply_from plan.now (reverse log.now) shown.now actor SpelledReply.Ok text.now) }
{
    let given = good_from(
        alloc,
        plan,
        present(plan, actor, log),
        listed_in(shown),
        text,
    )?;
    Ok(Reply::Ok(given))
}

fn reply_from(
    alloc: Global,
    plan: &Plan,
    log: &[Line],
    shown: &Shown,
    actor: ActorId,
    reply: SpelledReply,
    text: &[u8],
) -> Result<Reply, NoMemory>
    ensures ok { IfOk result (λ end. end ≡ reply_from plan.now (reverse log.now) shown.now actor reply text.now) }
{
    match reply {
        SpelledReply::Ok => given(alloc, plan, log, shown, actor, text),
        SpelledReply::NoEntry => Ok(Reply::NoEntry),
        SpelledReply::Exists => Ok(Reply::Exists),
        SpelledReply::NotDir => Ok(Reply::NotDir),
        SpelledReply::IsDir => Ok(Reply::IsDir),
        SpelledReply::NotEmpty => Ok(Reply::NotEmpty),
        SpelledReply::NoQuorum => Ok(Reply::NoQuorum),
        SpelledReply::FewCopies => Ok(Reply::FewCopies),
        SpelledReply::SplitBrain => split_brain(alloc, shown),
        SpelledReply::Failed => Ok(Reply::Failed),
        SpelledReply::TooLarge => Ok(Reply::TooLarge),
        SpelledReply::Half => Ok(Reply::Half),
    }
}

fn ended(
    alloc: Global,
    plan: &Plan,
    log: &[Line],
    shown: &Shown,
    actor: ActorId,
    reply: SpelledReply,
    text: &[u8],
) -> Result<Filled, NoMemory>
    ensures ok { IfOk result (λ f. f ≡ done_by plan.now (reverse log.now) shown.now actor (Doing.End reply) text.now) }
{
    let reply = reply_from(alloc, plan, log, shown, actor, reply, text)?;
    Ok(Filled::Stands(Line::End { actor, reply }))
}

fn heal_ended(
    alloc: Global,
    plan: &Plan,
    shown: &Shown,
    actor: ActorId,
    gfid: Gfid,
    kind: Kind,
    healed: Healed,
) -> Result<Filled, NoMemory>
    ensures ok { IfOk result (λ f. f ≡ where_named (is_heal_end plan.now healed) (Filled.Stands (Line.HealEnd actor gfid kind (heal_reply_from shown.now healed)))) }
{
    if !is_heal_end(plan, healed) {
        return Ok(Filled::NoLine);
    }
    let reply = heal_reply_from(alloc, shown, healed)?;
    Ok(Filled::Stands(Line::HealEnd {
        actor,
        gfid,
        kind,
        reply,
    }))
}

fn done_by(
    alloc: Global,
    plan: &Plan,
    log: &[Line],
    shown: &Shown,
    actor: ActorId,
    doing: &Doing,
    text: &[u8],
) -> Result<Filled, NoMemory>
    ensures ok { IfOk result (λ f. f ≡ done_by plan.now (reverse log.now) shown.now actor doing.now text.now) }
{
    match doing {
        Doing::Ask {
            brick,
            asked,
            answered,
        } => Ok(ask(plan, log, shown, actor, *brick, asked, *answered)),
        Doing::HealBegin { kind, gfid } => Ok(Filled::Stands(Line::HealBegin {
            actor,
            gfid: *gfid,
            kind: *kind,
        })),
        Doing::Begin { change } => begun(plan, log, actor, change),
        Doing::HealEnd { kind, gfid, healed } => {
            heal_ended(alloc, plan, shown, actor, *gfid, *kind, *healed)
        }
        Doing::End { reply } => ended(alloc, plan, log, shown, actor, *reply, text),
    }
}

fn happened(plan: &Plan, event: Event) -> Filled
    ensures { result ≡ where_named (is_event_of plan.now event) (Filled.Stands (Line.Event event)) }
{
    if is_event_of(plan, event) {
        Filled::Stands(Line::Event { event })
    } else {
        Filled::NoLine
    }
}

/// The line that a text stands for after the lines of a log, which is kept the oldest first, by what those lines show.
/// Time is linear in the log and in the text.
pub fn fill(
    alloc: Global,
    plan: &Plan,
    log: &[Line],
    shown: &Shown,
    line: &TraceLine,
    contents: &[u8],
) -> Result<Filled, NoMemory>
    ensures ok { IfOk result (λ f. f ≡ fill_with plan.now (reverse log.now) shown.now (line.now, contents.now)) }
{
    match line {
        TraceLine::Event { event } => Ok(happened(plan, *event)),
        TraceLine::Of { actor, doing } => worked(alloc, plan, log, shown, *actor, doing, contents),
    }
}

fn worked(
    alloc: Global,
    plan: &Plan,
    log: &[Line],
    shown: &Shown,
    actor: ActorId,
    doing: &Doing,
    text: &[u8],
) -> Result<Filled, NoMemory>
    ensures ok { IfOk result (λ f. f ≡ where_named (has_work plan.now (reverse log.now) actor) (done_by plan.now (reverse log.now) shown.now actor doing.now text.now)) }
{
    if !has_work(plan, log, actor) {
        return Ok(Filled::NoLine);
    }
    done_by(alloc, plan, log, shown, actor, doing, text)
}
