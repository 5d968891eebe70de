//! Where heals begin and end: lines that are no requests, and are kept in short nonetheless, for a log has many of them.
ghost use Rattle.std.specs.Prelude.{◌≡◌, ℕ, List, IfSome, Some};
ghost use Rattle.afr_lines.specs.declared.line.Line.TheVariants as line_is;
ghost use Rattle.afr_lines.specs.declared.line.Line.{Line};
ghost use Rattle.afr_log.specs.Entries.{IsThere, gfid_in, line_of};
ghost use Rattle.afr_log.specs.Log.{reply_in};

use crate::id::{Id, id_of};
use crate::packed::Packed;
use afr_base::{ActorId, BrickId, Gfid, Kind};
use afr_lines::{HealReply, Line};

/// How a heal ended, but for a split, which has views.
#[derive(Clone, Copy, Debug)]
pub enum ShortEnd {
    Nothing,
    Settled,
    Busy(ActorId),
    Short,
    Moved(BrickId),
    Failed,
}

impl ShortEnd {
    /// The reply that this stands for.
    pub fn reply(self) -> HealReply
        ensures { result ≡ reply_in self }
    {
        match self {
            ShortEnd::Nothing => HealReply::Nothing,
            ShortEnd::Settled => HealReply::Settled,
            ShortEnd::Busy(owner) => HealReply::Busy(owner),
            ShortEnd::Short => HealReply::Short,
            ShortEnd::Moved(brick) => HealReply::Moved(brick),
            ShortEnd::Failed => HealReply::Failed,
        }
    }
}

/// What is kept of a reply without views.
fn end_of(reply: &HealReply) -> Option<ShortEnd>
    ensures { IfSome result (λ end. reply_in end ≡ reply.now) }
{
    match reply {
        HealReply::Nothing => Some(ShortEnd::Nothing),
        HealReply::Settled => Some(ShortEnd::Settled),
        HealReply::Split(_) => None,
        HealReply::Busy(owner) => Some(ShortEnd::Busy(*owner)),
        HealReply::Short => Some(ShortEnd::Short),
        HealReply::Moved(brick) => Some(ShortEnd::Moved(*brick)),
        HealReply::Failed => Some(ShortEnd::Failed),
    }
}

/// The entry of a line that is no request, if it has one.
#[inline]
pub(crate) fn pack_line(line: &Line) -> Option<Packed>
    ensures line { (entry : Packed) → result ≡ Some entry → (kept : List Line) → line_of kept entry ≡ line.now }
    ensures there { (entry : Packed) → result ≡ Some entry → (count : ℕ) → IsThere count entry }
{
    match line {
        Line::HealBegin { actor, gfid, kind } => Some(Packed::HealBegun {
            kind: *kind,
            actor: *actor,
            id: id_of(*gfid)?,
        }),
        Line::HealEnd {
            actor,
            gfid,
            kind,
            reply,
        } => pack_end(*actor, *gfid, *kind, reply),
        _ => None,
    }
}

fn pack_end(actor: ActorId, gfid: Gfid, kind: Kind, reply: &HealReply) -> Option<Packed>
    ensures line { (entry : Packed) → result ≡ Some entry → (kept : List Line) → line_of kept entry ≡ line_is.HealEnd actor gfid kind reply.now }
    ensures there { (entry : Packed) → result ≡ Some entry → (count : ℕ) → IsThere count entry }
{
    let end = end_of(reply)?;
    let id = id_of(gfid)?;
    Some(Packed::HealEnded {
        kind,
        actor,
        end,
        id,
    })
}

/// The line of a part that begins.
pub(crate) fn begun_line(actor: ActorId, id: Id, kind: Kind) -> Line
    ensures { result ≡ line_is.HealBegin actor (gfid_in id) kind }
{
    Line::HealBegin {
        actor,
        gfid: id.gfid(),
        kind,
    }
}

/// The line of a heal that has ended.
pub(crate) fn ended_line(actor: ActorId, id: Id, kind: Kind, end: ShortEnd) -> Line
    ensures { result ≡ line_is.HealEnd actor (gfid_in id) kind (reply_in end) }
{
    Line::HealEnd {
        actor,
        gfid: id.gfid(),
        kind,
        reply: end.reply(),
    }
}
