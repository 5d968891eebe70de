//! Whole lines.
ghost use Rattle.std.specs.Prelude.{◌≡◌, ◌^◌, ◌<◌, ◌++◌, codes, List, None, Some, ℕ, IfSome};
ghost use Rattle.std.specs.Option.{option_map};
ghost use Rattle.afr_plan.specs.Reading.{as_a, both, word_then};
ghost use Rattle.afr_report_trace.specs.Lines.{line_text};
ghost use Rattle.afr_trace_read.specs.Fit.{IsSpelled};
ghost use Rattle.afr_trace_read.specs.Forms.{then_word};
ghost use Rattle.afr_trace_read.specs.Parts.{actor_at, brick_at, event_at};
ghost use Rattle.afr_trace_read.specs.Reading.{about_at, answered_at, ask_of, asked_at, changing_at, content_at, doing_at, gives, heal_begin_of, heal_end_of, healed_at, line_at, line_told, may_stand, of_actor, replied_at};
ghost use Rattle.afr_trace_read.specs.Stands.{contents_of, trace_line_of};
ghost use Rattle.afr_trace_read.specs.Texts.{spelled_text};

use crate::answers::{answered, healed, is_ok, replied};
use crate::bytes::number;
use crate::changes::changing;
use crate::contents::is_contents;
use crate::kinds::{Doing, TraceLine};
use crate::parts::{actor, brick, event, kind, object};
use crate::requests::asked;
use afr_base::{Gfid, Kind};
use afr_lines::Line;
use afr_plan::Plan;
use afr_plan_line::skip;

/// A word, and what a heal is about.
#[tactic(auto, unfolding(crate::specs::Reading::about_at))]
fn about<'a>(plan: &Plan, word: &[u8], bytes: &'a [u8]) -> Option<(Kind, Gfid, &'a [u8])>
    ensures { option_map (λ x. ((x.0, x.1), x.2.now)) result ≡ about_at plan.now word.now bytes.now }
{
    let rest = skip(word, bytes)?;
    let (kind, rest) = kind(rest)?;
    let rest = skip(b" ", rest)?;
    let (gfid, rest) = object(plan, rest)?;
    Some((kind, gfid, rest))
}

fn ask<'a>(plan: &Plan, bytes: &'a [u8]) -> Option<(Doing, &'a [u8])>
    ensures { option_map (λ x. (x.0, x.1.now)) result ≡ as_a ask_of (both (then_word (both (then_word (word_then (codes " b") brick_at) (codes " ")) (asked_at plan.now)) (codes " ")) answered_at) bytes.now }
{
    let rest = skip(b" b", bytes)?;
    let (brick, rest) = brick(rest)?;
    let rest = skip(b" ", rest)?;
    let Some((asked, rest)) = asked(plan, rest) else {
        return None;
    };
    let rest = skip(b" ", rest)?;
    let (answered, rest) = answered(rest)?;
    Some((
        Doing::Ask {
            brick,
            asked,
            answered,
        },
        rest,
    ))
}

fn heal_begin<'a>(plan: &Plan, bytes: &'a [u8]) -> Option<(Doing, &'a [u8])>
    ensures { option_map (λ x. (x.0, x.1.now)) result ≡ as_a heal_begin_of (about_at plan.now (codes " begin heal ")) bytes.now }
{
    let (kind, gfid, rest) = about(plan, b" begin heal ", bytes)?;
    Some((Doing::HealBegin { kind, gfid }, rest))
}

fn begin<'a>(plan: &Plan, bytes: &'a [u8]) -> Option<(Doing, &'a [u8])>
    ensures { option_map (λ x. (x.0, x.1.now)) result ≡ as_a Doing.Begin (word_then (codes " begin ") (changing_at plan.now)) bytes.now }
{
    let rest = skip(b" begin ", bytes)?;
    let (change, rest) = changing(plan, rest)?;
    Some((Doing::Begin { change }, rest))
}

fn heal_end<'a>(plan: &Plan, bytes: &'a [u8]) -> Option<(Doing, &'a [u8])>
    ensures { option_map (λ x. (x.0, x.1.now)) result ≡ as_a heal_end_of (both (then_word (about_at plan.now (codes " end ")) (codes " ")) healed_at) bytes.now }
{
    let (kind, gfid, rest) = about(plan, b" end ", bytes)?;
    let rest = skip(b" ", rest)?;
    let (healed, rest) = healed(rest)?;
    Some((Doing::HealEnd { kind, gfid, healed }, rest))
}

fn end(bytes: &[u8]) -> Option<(Doing, &[u8])>
    ensures { option_map (λ x. (x.0, x.1.now)) result ≡ as_a Doing.End (word_then (codes " end ") replied_at) bytes.now }
{
    let rest = skip(b" end ", bytes)?;
    let (reply, rest) = replied(rest)?;
    Some((Doing::End { reply }, rest))
}

#[tactic(auto, unfolding(crate::specs::Reading::doing_at))]
fn doing<'a>(plan: &Plan, bytes: &'a [u8]) -> Option<(Doing, &'a [u8])>
    ensures { option_map (λ x. (x.0, x.1.now)) result ≡ doing_at plan.now bytes.now }
{
    if let Some(x) = ask(plan, bytes) {
        return Some(x);
    }
    if let Some(x) = heal_begin(plan, bytes) {
        return Some(x);
    }
    if let Some(x) = begin(plan, bytes) {
        return Some(x);
    }
    if let Some(x) = heal_end(plan, bytes) {
        return Some(x);
    }
    end(bytes)
}

fn event_line(bytes: &[u8]) -> Option<(TraceLine, &[u8])>
    ensures { option_map (λ x. (x.0, x.1.now)) result ≡ as_a TraceLine.Event (word_then (codes "event ") event_at) bytes.now }
{
    let rest = skip(b"event ", bytes)?;
    let (event, rest) = event(rest)?;
    Some((TraceLine::Event { event }, rest))
}

fn of_actor<'a>(plan: &Plan, bytes: &'a [u8]) -> Option<(TraceLine, &'a [u8])>
    ensures { option_map (λ x. (x.0, x.1.now)) result ≡ as_a of_actor (both actor_at (doing_at plan.now)) bytes.now }
{
    let (actor, rest) = actor(bytes)?;
    let Some((doing, rest)) = doing(plan, rest) else {
        return None;
    };
    Some((TraceLine::Of { actor, doing }, rest))
}

#[tactic(auto, unfolding(crate::specs::Reading::content_at))]
fn content<'a>(plan: &Plan, bytes: &'a [u8]) -> Option<(TraceLine, &'a [u8])>
    ensures { option_map (λ x. (x.0, x.1.now)) result ≡ content_at plan.now bytes.now }
{
    if let Some(x) = event_line(bytes) {
        return Some(x);
    }
    of_actor(plan, bytes)
}

/// A position and a line of it, and what follows them.
#[tactic(auto, unfolding(crate::specs::Reading::line_at))]
fn numbered_line<'a>(plan: &Plan, bytes: &'a [u8]) -> Option<((u32, TraceLine), &'a [u8])>
    ensures { option_map (λ x. (x.0, x.1.now)) result ≡ line_at plan.now bytes.now }
{
    let (n, rest) = number(bytes, 4_294_967_295)?;
    let rest = skip(b" ", rest)?;
    let Some((line, rest)) = content(plan, rest) else {
        return None;
    };
    Some(((n as u32, line), rest))
}

/// Whether a line is the end of a command that was carried out.
fn gives(line: &TraceLine) -> bool
    ensures { result ≡ gives line.now }
{
    match line {
        TraceLine::Of {
            doing: Doing::End { reply },
            ..
        } => is_ok(*reply),
        _ => false,
    }
}

fn may_stand(plan: &Plan, gives: bool, text: &[u8]) -> bool
    ensures { result ≡ may_stand plan.now gives text.now }
{
    if gives {
        is_contents(plan, text)
    } else {
        text.is_empty()
    }
}

/// The line whose text this is at a position, without its line feed, and what its command gave, from the space behind `ok` on; none
/// where it is the text of no line.
pub fn read_line<'a>(plan: &Plan, position: u32, bytes: &'a [u8]) -> Option<(TraceLine, &'a [u8])>
    ensures { option_map (λ x. (x.0, x.1.now)) result ≡ line_told plan.now position bytes.now }
{
    let Some(((at, line), rest)) = numbered_line(plan, bytes) else {
        return None;
    };
    if at == position && may_stand(plan, gives(&line), rest) {
        Some((line, rest))
    } else {
        None
    }
}

/// What a line is read to say has this text, and each line that has a text is read: the text of a line is the text of no other, and
/// what is read as no line is the text of none.
pub fn a_line_is_read_exactly()
    ensures text { (p : Plan) (k : ℕ) (bytes : List ℕ) (x : TraceLine × List ℕ) → line_told p k bytes ≡ Some x → IsSpelled p x × (bytes ≡ spelled_text p k x) }
    ensures read { (p : Plan) (k : ℕ) (x : TraceLine × List ℕ) → p.files < 2 ^ 32 → k < 2 ^ 32 → IsSpelled p x → line_told p k (spelled_text p k x) ≡ Some x }
    ensures none { (p : Plan) (k : ℕ) (bytes : List ℕ) (x : TraceLine × List ℕ) → p.files < 2 ^ 32 → k < 2 ^ 32 → IsSpelled p x → line_told p k bytes ≡ None → bytes ≡ spelled_text p k x → ⊥ }
    ensures one { (p : Plan) (k : ℕ) (x y : TraceLine × List ℕ) → p.files < 2 ^ 32 → k < 2 ^ 32 → IsSpelled p x → IsSpelled p y → spelled_text p k x ≡ spelled_text p k y → x ≡ y }
{}

/// The trace has of each line of the log the text of what it says, and behind it the text of what its command gave.
pub fn a_line_is_printed_as_it_is_spelled()
    ensures { (p : Plan) (k : ℕ) (l : Line) → IfSome (trace_line_of p l) (λ s. line_text p k l ≡ spelled_text p k (s, contents_of p l) ++ codes "\n") }
{}
