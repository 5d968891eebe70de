//! How far each healer has come, and its rounds that have ended, with their heals.
ghost use Rattle.std.specs.Prelude.{◌≡◌, ◌++◌, ◌<◌, ◌≤◌, OnOk, Some, length, reverse, string_bytes};
ghost use Rattle.afr_model.specs.ReportHealers.{healer_text, healers_text, rounds_lines};
ghost use Rattle.afr_report.specs.Heals.{healer_head, round_with};
ghost use Rattle.afr_report.specs.Own.{lines_at, places};

use crate::heals::push_told_heal;
use crate::own::{line_at, own_places};
use crate::progress::{Progress, progress_of, standing, told_reply};
use afr_base::{ActorId, FIRST_HEALER, MOST_CLIENTS, NoMemory};
use afr_lines::Reply;
use afr_log::Log;
use afr_object::List;
use afr_plan::{RoundList, Words};
use afr_report_words::push_reply;

/// Adds the texts of all healers. Healer 1 has the first rounds.
pub fn push_healers(
    out: &mut String,
    words: &Words,
    healers: &[RoundList],
    lists: &[List<u32>],
    log: &Log,
) -> Result<(), NoMemory>
    requires few { length healers.now ≤ 3 }
    requires lists { lists.now ≡ places (reverse log.now.items) }
    ensures ok { OnOk result (string_bytes out.new ≡ string_bytes out.old ++ healers_text words.now 17 healers.now (reverse log.now.items)) }
{
    let mut healer = FIRST_HEALER;
    for rounds in healers {
        push_healer(out, words, ActorId(healer), rounds, lists, log)?;
        healer += 1;
    }
    Ok(())
}

/// Adds the text of one healer.
pub fn push_healer(
    out: &mut String,
    words: &Words,
    healer: ActorId,
    rounds: &RoundList,
    lists: &[List<u32>],
    log: &Log,
) -> Result<(), NoMemory>
    requires healer { 16 < healer.0 }
    requires small { healer.0 < 20 }
    requires lists { lists.now ≡ places (reverse log.now.items) }
    ensures ok { OnOk result (string_bytes out.new ≡ string_bytes out.old ++ healer_text words.now healer.0 rounds.now (reverse log.now.items)) }
{
    let own = own_places(lists, healer);
    push_healer_at(out, words, healer, rounds, own, log)
}

/// Adds the text of a healer by the lines at these positions of the log.
fn push_healer_at(
    out: &mut String,
    words: &Words,
    healer: ActorId,
    rounds: &RoundList,
    own: &[u32],
    log: &Log,
) -> Result<(), NoMemory>
    requires healer { 16 < healer.0 }
    ensures ok { OnOk result (string_bytes out.new ≡ string_bytes out.old ++ healer_text words.now healer.0 rounds.now (lines_at log.now.items (reverse own.now))) }
{
    let progress = progress_of(healer, own, log);
    push_healer_head(out, healer, progress, rounds.len())?;
    push_rounds(out, words, healer, own, log)
}

fn push_healer_head(
    out: &mut String,
    healer: ActorId,
    progress: Progress,
    rounds: usize,
) -> Result<(), NoMemory>
    requires healer { 16 < healer.0 }
    ensures ok { OnOk result (string_bytes out.new ≡ string_bytes out.old ++ healer_head healer.0 progress.dead progress.done rounds) }
{
    let number = healer.0 - MOST_CLIENTS;
    let Progress { done, dead } = progress;
    let standing = standing(dead, done, rounds);
    write!(out, "h{number} {done} of {rounds}{standing}\n")?;
    Ok(())
}

/// Adds each round that has ended and its heals, by the lines at these positions of the log.
fn push_rounds(
    out: &mut String,
    words: &Words,
    healer: ActorId,
    own: &[u32],
    log: &Log,
) -> Result<(), NoMemory>
    ensures ok { OnOk result (string_bytes out.new ≡ string_bytes out.old ++ rounds_lines words.now healer.0 (lines_at log.now.items (reverse own.now))) }
{
    let mut before = 0;
    let mut heals = String::new(*out.allocator());
    for at in own {
        if let Some(told) = line_at(log, *at) {
            if let Some(reply) = told_reply(healer, told) {
                push_round(out, words, before, reply, heals.as_str())?;
                heals.clear();
                before += 1;
            } else {
                push_told_heal(&mut heals, healer, told)?;
            }
        }
    }
    Ok(())
}

/// Adds the line of the round that comes after `before` others, and those of its heals.
fn push_round(
    out: &mut String,
    words: &Words,
    before: usize,
    reply: &Reply,
    heals: &str,
) -> Result<(), NoMemory>
    requires room { before < usize.MAX }
    ensures ok { OnOk result (string_bytes out.new ≡ string_bytes out.old ++ round_with words.now before reply.now heals.now) }
{
    let number = before + 1;
    write!(out, "{number} round ")?;
    push_reply(out, words, reply)?;
    out.push_str("\n")?;
    out.push_str(heals)?;
    Ok(())
}
