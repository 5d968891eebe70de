//! The text of each line of a log.
ghost use Rattle.std.specs.Prelude.{◌≡◌, ◌++◌, OnOk, codes, string_bytes};
ghost use Rattle.afr_model.specs.ReportReplies.{actor_text, heal_text, reply_text};
ghost use Rattle.afr_report_trace.specs.Answers.{event_text};
ghost use Rattle.afr_report_trace.specs.Changes.{change_text};
ghost use Rattle.afr_report_trace.specs.Lines.{healed_text, line_text, said_text};

use crate::answers::{push_event, push_told};
use crate::askers::push_brick;
use crate::changes::push_change;
use crate::objects::push_object;
use crate::requests::push_request;
use afr_base::{ActorId, BrickId, Gfid, Kind, NoMemory};
use afr_lines::{Event, HealReply, Line, Reply, Request, Told};
use afr_object::Change;
use afr_plan::Plan;
use afr_report_words::{kind_word, push_actor, push_heal_reply, push_number, push_reply};

/// Adds the text of the line at a position, which is the number of the lines before it.
pub fn push_line(
    out: &mut String,
    plan: &Plan,
    position: usize,
    line: &Line,
) -> Result<(), NoMemory>
    ensures ok { OnOk result (string_bytes out.new ≡ string_bytes out.old ++ line_text plan.now position line.now) }
{
    push_number(out, position as u64)?;
    out.push(' ')?;
    push_rest(out, plan, line)
}

/// Adds what the line says, and its end.
pub(crate) fn push_rest(out: &mut String, plan: &Plan, line: &Line) -> Result<(), NoMemory>
    ensures ok { OnOk result (string_bytes out.new ≡ string_bytes out.old ++ (said_text plan.now line.now ++ codes "\n")) }
{
    push_said(out, plan, line)?;
    out.push('\n')?;
    Ok(())
}

fn push_said(out: &mut String, plan: &Plan, line: &Line) -> Result<(), NoMemory>
    ensures ok { OnOk result (string_bytes out.new ≡ string_bytes out.old ++ said_text plan.now line.now) }
{
    match line {
        Line::Ask {
            actor,
            brick,
            request,
            told,
            took,
        } => push_ask(out, plan, *actor, *brick, request, told, *took),
        Line::Begin { actor, change } => push_begin(out, plan, *actor, change),
        Line::HealBegin { actor, gfid, kind } => push_heal_begin(out, plan, *actor, *gfid, *kind),
        Line::End { actor, reply } => push_end(out, plan, *actor, reply),
        Line::HealEnd {
            actor,
            gfid,
            kind,
            reply,
        } => push_heal_end(out, plan, *actor, *gfid, *kind, reply),
        Line::Event { event } => push_event_line(out, *event),
    }
}

fn push_ask(
    out: &mut String,
    plan: &Plan,
    actor: ActorId,
    brick: BrickId,
    request: &Request,
    told: &Told,
    took: bool,
) -> Result<(), NoMemory>
    ensures ok { OnOk result (string_bytes out.new ≡ string_bytes out.old ++ said_text plan.now (Line.Ask actor brick request.now told.now took)) }
{
    push_actor(out, actor)?;
    push_brick(out, brick)?;
    push_request(out, plan, request)?;
    out.push(' ')?;
    push_told(out, told, took)
}

fn push_begin(
    out: &mut String,
    plan: &Plan,
    actor: ActorId,
    change: &Change,
) -> Result<(), NoMemory>
    ensures ok { OnOk result (string_bytes out.new ≡ string_bytes out.old ++ (actor_text actor ++ codes " begin " ++ change_text plan.now change.now)) }
{
    push_actor(out, actor)?;
    out.push_str(" begin ")?;
    push_change(out, plan, change)
}

fn push_heal_begin(
    out: &mut String,
    plan: &Plan,
    actor: ActorId,
    gfid: Gfid,
    kind: Kind,
) -> Result<(), NoMemory>
    ensures ok { OnOk result (string_bytes out.new ≡ string_bytes out.old ++ (actor_text actor ++ codes " begin " ++ codes "heal " ++ healed_text plan.now gfid kind)) }
{
    push_actor(out, actor)?;
    out.push_str(" begin ")?;
    out.push_str("heal ")?;
    push_healed(out, plan, gfid, kind)
}

/// Adds what a heal is about.
fn push_healed(out: &mut String, plan: &Plan, gfid: Gfid, kind: Kind) -> Result<(), NoMemory>
    ensures ok { OnOk result (string_bytes out.new ≡ string_bytes out.old ++ healed_text plan.now gfid kind) }
{
    out.push_str(kind_word(kind))?;
    out.push_str(" ")?;
    push_object(out, plan, gfid)
}

fn push_end(out: &mut String, plan: &Plan, actor: ActorId, reply: &Reply) -> Result<(), NoMemory>
    ensures ok { OnOk result (string_bytes out.new ≡ string_bytes out.old ++ (actor_text actor ++ codes " end " ++ reply_text plan.now.words reply.now)) }
{
    push_actor(out, actor)?;
    out.push_str(" end ")?;
    push_reply(out, &plan.words, reply)
}

fn push_heal_end(
    out: &mut String,
    plan: &Plan,
    actor: ActorId,
    gfid: Gfid,
    kind: Kind,
    reply: &HealReply,
) -> Result<(), NoMemory>
    ensures ok { OnOk result (string_bytes out.new ≡ string_bytes out.old ++ (actor_text actor ++ codes " end " ++ healed_text plan.now gfid kind ++ codes " " ++ heal_text reply.now)) }
{
    push_actor(out, actor)?;
    out.push_str(" end ")?;
    push_healed(out, plan, gfid, kind)?;
    out.push_str(" ")?;
    push_heal_reply(out, reply)
}

fn push_event_line(out: &mut String, event: Event) -> Result<(), NoMemory>
    ensures ok { OnOk result (string_bytes out.new ≡ string_bytes out.old ++ (codes "event " ++ event_text event)) }
{
    out.push_str("event ")?;
    push_event(out, event)
}
