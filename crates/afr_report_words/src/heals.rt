//! The texts of how a heal ended, and of actors.
ghost use Rattle.std.specs.Prelude.{◌≡◌, ◌++◌, OnOk, codes, decimal, string_bytes};
ghost use Rattle.afr_model.specs.ReportReplies.{actor_text, heal_text};

use crate::numbers::push_number;
use crate::text::push_word;
use afr_base::{ActorId, BrickId, NoMemory};
use afr_lines::HealReply;

/// Adds how a heal ended.
pub fn push_heal_reply(out: &mut String, reply: &HealReply) -> Result<(), NoMemory>
    ensures ok { OnOk result (string_bytes out.new ≡ string_bytes out.old ++ heal_text reply.now) }
{
    match reply {
        HealReply::Nothing => push_word(out, "nothing"),
        HealReply::Settled => push_word(out, "settled"),
        HealReply::Split(_) => push_word(out, "split"),
        HealReply::Busy(owner) => push_busy(out, *owner),
        HealReply::Short => push_word(out, "short"),
        HealReply::Moved(brick) => push_moved(out, *brick),
        HealReply::Failed => push_word(out, "failed"),
    }
}

fn push_busy(out: &mut String, owner: ActorId) -> Result<(), NoMemory>
    ensures ok { OnOk result (string_bytes out.new ≡ string_bytes out.old ++ (codes "busy " ++ actor_text owner)) }
{
    out.push_str("busy ")?;
    push_actor(out, owner)
}

/// Adds an actor: clients are numbered from 1, and so are healers.
pub fn push_actor(out: &mut String, actor: ActorId) -> Result<(), NoMemory>
    ensures ok { OnOk result (string_bytes out.new ≡ string_bytes out.old ++ actor_text actor) }
{
    let number = actor.0;
    if 16 < number {
        out.push('h')?;
        return push_number(out, u64::from(number - 16));
    }
    out.push('c')?;
    push_number(out, u64::from(number))
}

fn push_moved(out: &mut String, brick: BrickId) -> Result<(), NoMemory>
    ensures ok { OnOk result (string_bytes out.new ≡ string_bytes out.old ++ (codes "moved " ++ decimal brick.0)) }
{
    out.push_str("moved ")?;
    push_number(out, u64::from(brick.0))
}
