//! The line of a heal: its kind, its object and how it ended.
ghost use Rattle.std.specs.Prelude.{◌≡◌, ◌++◌, OnOk, string_bytes};
ghost use Rattle.afr_log.specs.Log.{reply_in, told_line};
ghost use Rattle.afr_model.specs.ReportHealers.{heal_line};
ghost use Rattle.afr_model.specs.ReportReplies.{is_nothing_healed};
ghost use Rattle.afr_report.specs.Heals.{ended_heal, heal_of};

use afr_base::{ActorId, Gfid, Kind, NoMemory};
use afr_lines::{HealReply, Line};
use afr_log::{ShortEnd, ToldLine};
use afr_report_words::{kind_word, push_gfid, push_heal_reply};

/// Adds the line of a heal of this healer that found something to do; nothing for any other line
/// of the log.
pub fn push_told_heal(out: &mut String, healer: ActorId, told: ToldLine<'_>) -> Result<(), NoMemory>
    ensures ok { OnOk result (string_bytes out.new ≡ string_bytes out.old ++ heal_of healer.0 (told_line told.entry)) }
{
    match told {
        ToldLine::Kept(line) => push_heal(out, healer, line),
        ToldLine::HealBegun { .. } => Ok(()),
        ToldLine::HealEnded {
            actor,
            gfid,
            kind,
            end,
        } => push_short_heal(out, healer, actor, gfid, kind, end),
    }
}

/// The same of one whose end is kept in short.
fn push_short_heal(
    out: &mut String,
    healer: ActorId,
    actor: ActorId,
    gfid: Gfid,
    kind: Kind,
    end: ShortEnd,
) -> Result<(), NoMemory>
    ensures ok { OnOk result (string_bytes out.new ≡ string_bytes out.old ++ heal_of healer.0 (Line.HealEnd actor gfid kind (reply_in end))) }
{
    if actor != healer {
        return Ok(());
    }
    push_ended_heal(out, gfid, kind, &end.reply())
}

/// The same of a line that is kept as it is.
fn push_heal(out: &mut String, healer: ActorId, line: &Line) -> Result<(), NoMemory>
    ensures ok { OnOk result (string_bytes out.new ≡ string_bytes out.old ++ heal_of healer.0 line.now) }
{
    let Line::HealEnd {
        actor,
        gfid,
        kind,
        reply,
    } = line
    else {
        return Ok(());
    };
    if *actor != healer {
        return Ok(());
    }
    push_ended_heal(out, *gfid, *kind, reply)
}

/// The same of a line of whichever healer.
pub fn push_heal_line(out: &mut String, told: ToldLine<'_>) -> Result<(), NoMemory>
    ensures ok { OnOk result (string_bytes out.new ≡ string_bytes out.old ++ heal_line (told_line told.entry)) }
{
    match told {
        ToldLine::Kept(line) => push_kept_heal(out, line),
        ToldLine::HealBegun { .. } => Ok(()),
        ToldLine::HealEnded {
            gfid,
            kind,
            end,
            ..
        } => push_ended_heal(out, gfid, kind, &end.reply()),
    }
}

/// The same of a line that is kept as it is.
fn push_kept_heal(out: &mut String, line: &Line) -> Result<(), NoMemory>
    ensures ok { OnOk result (string_bytes out.new ≡ string_bytes out.old ++ heal_line line.now) }
{
    let Line::HealEnd {
        gfid,
        kind,
        reply,
        ..
    } = line
    else {
        return Ok(());
    };
    push_ended_heal(out, *gfid, *kind, reply)
}

fn push_ended_heal(
    out: &mut String,
    gfid: Gfid,
    kind: Kind,
    reply: &HealReply,
) -> Result<(), NoMemory>
    ensures ok { OnOk result (string_bytes out.new ≡ string_bytes out.old ++ ended_heal gfid kind reply.now) }
{
    if is_nothing(reply) {
        return Ok(());
    }
    let word = kind_word(kind);
    write!(out, "{word} ")?;
    push_gfid(out, gfid)?;
    out.push_str(" ")?;
    push_heal_reply(out, reply)?;
    out.push_str("\n")?;
    Ok(())
}

fn is_nothing(reply: &HealReply) -> bool
    ensures { result ≡ is_nothing_healed reply.now }
{
    match reply {
        HealReply::Nothing => true,
        HealReply::Settled => false,
        HealReply::Split(_) => false,
        HealReply::Busy(_) => false,
        HealReply::Short => false,
        HealReply::Moved(_) => false,
        HealReply::Failed => false,
    }
}
