//! Answers, and the ends of heals and commands.
ghost use Rattle.std.specs.Prelude.{◌≡◌, codes};
ghost use Rattle.std.specs.Option.{option_map};
ghost use Rattle.afr_plan.specs.Reading.{as_a, word_then};
ghost use Rattle.afr_trace_read.specs.Parts.{actor_at, brick_at};
ghost use Rattle.afr_trace_read.specs.Reading.{answered_at, healed_at, is_ok, replied_at};

use crate::bytes::first_of;
use crate::kinds::{Answered, Healed, SpelledReply};
use crate::parts::{actor, brick};
use afr_plan_line::skip;

fn held(bytes: &[u8]) -> Option<(Answered, &[u8])>
    ensures { option_map (λ x. (x.0, x.1.now)) result ≡ as_a Answered.Held (word_then (codes "held ") actor_at) bytes.now }
{
    let rest = skip(b"held ", bytes)?;
    let (x, rest) = actor(rest)?;
    Some((Answered::Held(x), rest))
}

/// An answer, and what follows it.
#[tactic(auto, unfolding(crate::specs::Reading::answered_at))]
pub(crate) fn answered(bytes: &[u8]) -> Option<(Answered, &[u8])>
    ensures { option_map (λ x. (x.0, x.1.now)) result ≡ answered_at bytes.now }
{
    if let Some(rest) = skip(b"granted", bytes) {
        return Some((Answered::Granted, rest));
    }
    if let Some(x) = held(bytes) {
        return Some(x);
    }
    let words: [(&[u8], Answered); 7] = [
        (b"seen", Answered::Seen),
        (b"done", Answered::Done),
        (b"ok", Answered::Given),
        (b"absent", Answered::NoObject),
        (b"lost", Answered::Lost),
        (b"gone", Answered::Gone),
        (b"failed", Answered::Failed),
    ];
    first_of(&words, bytes)
}

fn busy(bytes: &[u8]) -> Option<(Healed, &[u8])>
    ensures { option_map (λ x. (x.0, x.1.now)) result ≡ as_a Healed.Busy (word_then (codes "busy ") actor_at) bytes.now }
{
    let rest = skip(b"busy ", bytes)?;
    let (x, rest) = actor(rest)?;
    Some((Healed::Busy(x), rest))
}

fn moved(bytes: &[u8]) -> Option<(Healed, &[u8])>
    ensures { option_map (λ x. (x.0, x.1.now)) result ≡ as_a Healed.Moved (word_then (codes "moved ") brick_at) bytes.now }
{
    let rest = skip(b"moved ", bytes)?;
    let (x, rest) = brick(rest)?;
    Some((Healed::Moved(x), rest))
}

/// The end of a heal, and what follows it.
#[tactic(auto, unfolding(crate::specs::Reading::healed_at))]
pub(crate) fn healed(bytes: &[u8]) -> Option<(Healed, &[u8])>
    ensures { option_map (λ x. (x.0, x.1.now)) result ≡ healed_at bytes.now }
{
    if let Some(rest) = skip(b"nothing", bytes) {
        return Some((Healed::Nothing, rest));
    }
    if let Some(rest) = skip(b"settled", bytes) {
        return Some((Healed::Settled, rest));
    }
    if let Some(rest) = skip(b"split", bytes) {
        return Some((Healed::Split, rest));
    }
    if let Some(x) = busy(bytes) {
        return Some(x);
    }
    if let Some(rest) = skip(b"short", bytes) {
        return Some((Healed::Short, rest));
    }
    if let Some(x) = moved(bytes) {
        return Some(x);
    }
    let rest = skip(b"failed", bytes)?;
    Some((Healed::Failed, rest))
}

/// The end of a command, and what follows it.
#[tactic(auto, unfolding(crate::specs::Reading::replied_at))]
pub(crate) fn replied(bytes: &[u8]) -> Option<(SpelledReply, &[u8])>
    ensures { option_map (λ x. (x.0, x.1.now)) result ≡ replied_at bytes.now }
{
    let words: [(&[u8], SpelledReply); 12] = [
        (b"ok", SpelledReply::Ok),
        (b"no-entry", SpelledReply::NoEntry),
        (b"exists", SpelledReply::Exists),
        (b"not-dir", SpelledReply::NotDir),
        (b"is-dir", SpelledReply::IsDir),
        (b"not-empty", SpelledReply::NotEmpty),
        (b"no-quorum", SpelledReply::NoQuorum),
        (b"few-copies", SpelledReply::FewCopies),
        (b"split-brain", SpelledReply::SplitBrain),
        (b"failed", SpelledReply::Failed),
        (b"too-large", SpelledReply::TooLarge),
        (b"half", SpelledReply::Half),
    ];
    first_of(&words, bytes)
}

/// Whether a reply says that the command was carried out.
pub(crate) fn is_ok(reply: SpelledReply) -> bool
    ensures { result ≡ is_ok reply }
{
    matches!(reply, SpelledReply::Ok)
}
