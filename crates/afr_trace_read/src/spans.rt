//! What a lock covers.
ghost use Rattle.std.specs.Prelude.{◌≡◌, ◌^◌, Some, None, codes};
ghost use Rattle.std.specs.Option.{option_map};
ghost use Rattle.afr_plan.specs.Reading.{as_a, both, either, word, word_then};
ghost use Rattle.afr_trace_read.specs.Forms.{number_below, then_word};
ghost use Rattle.afr_trace_read.specs.Parts.{name_at};
ghost use Rattle.afr_trace_read.specs.Reading.{covered_at, domain_at, span_at, span_of, upto_at};

use crate::bytes::{first_of, number};
use crate::kinds::Span;
use crate::parts::object;
use crate::words::name;
use afr_base::Gfid;
use afr_lines::Domain;
use afr_plan::Plan;
use afr_plan_line::skip;

/// The highest place of a range's end.
const MOST_END: u128 = 9_223_372_036_854_775_807;

fn closed(bytes: &[u8]) -> Option<(Option<u64>, &[u8])>
    ensures { option_map (λ x. (x.0, x.1.now)) result ≡ as_a Some (then_word (number_below (2 ^ 63)) (codes ")")) bytes.now }
{
    let (n, rest) = number(bytes, MOST_END)?;
    let rest = skip(b")", rest)?;
    Some((Some(n as u64), rest))
}

fn open(bytes: &[u8]) -> Option<(Option<u64>, &[u8])>
    ensures { option_map (λ x. (x.0, x.1.now)) result ≡ word (codes "end)") None bytes.now }
{
    let rest = skip(b"end)", bytes)?;
    Some((None, rest))
}

#[tactic(auto, unfolding(crate::specs::Reading::upto_at))]
fn upto(bytes: &[u8]) -> Option<(Option<u64>, &[u8])>
    ensures { option_map (λ x. (x.0, x.1.now)) result ≡ upto_at bytes.now }
{
    if let Some(x) = closed(bytes) {
        return Some(x);
    }
    open(bytes)
}

fn ranged(bytes: &[u8]) -> Option<(Span, &[u8])>
    ensures { option_map (λ x. (x.0, x.1.now)) result ≡ as_a span_of (both (then_word (word_then (codes "[") (number_below (2 ^ 63))) (codes ",")) upto_at) bytes.now }
{
    let rest = skip(b"[", bytes)?;
    let (from, rest) = number(rest, MOST_END)?;
    let rest = skip(b",", rest)?;
    let (to, rest) = upto(rest)?;
    Some((
        Span::Range {
            from: from as u64,
            to,
        },
        rest,
    ))
}

fn whole_span(bytes: &[u8]) -> Option<(Span, &[u8])>
    ensures { option_map (λ x. (x.0, x.1.now)) result ≡ either (word (codes "[meta]") Span.Meta) (word (codes "/*") Span.AllNames) bytes.now }
{
    first_of(&[(b"[meta]", Span::Meta), (b"/*", Span::AllNames)], bytes)
}

#[tactic(auto, unfolding(crate::specs::Reading::span_at))]
fn span<'a>(plan: &Plan, bytes: &'a [u8]) -> Option<(Span, &'a [u8])>
    ensures { option_map (λ x. (x.0, x.1.now)) result ≡ span_at plan.now bytes.now }
{
    if let Some(x) = ranged(bytes) {
        return Some(x);
    }
    if let Some(x) = name_span(plan, bytes) {
        return Some(x);
    }
    whole_span(bytes)
}

fn name_span<'a>(plan: &Plan, bytes: &'a [u8]) -> Option<(Span, &'a [u8])>
    ensures { option_map (λ x. (x.0, x.1.now)) result ≡ as_a Span.OfName (word_then (codes "/") (name_at plan.now)) bytes.now }
{
    let rest = skip(b"/", bytes)?;
    let (name, rest) = name(plan, rest)?;
    Some((Span::OfName(name), rest))
}

#[tactic(auto, unfolding(crate::specs::Reading::domain_at))]
fn domain(bytes: &[u8]) -> Option<(Domain, &[u8])>
    ensures { option_map (λ x. (x.0, x.1.now)) result ≡ domain_at bytes.now }
{
    match skip(b"heal ", bytes) {
        Some(rest) => Some((Domain::Heal, rest)),
        None => Some((Domain::Work, bytes)),
    }
}

/// A word, and what a lock covers.
#[tactic(auto, unfolding(crate::specs::Reading::covered_at))]
pub(crate) fn covered<'a>(
    plan: &Plan,
    word: &[u8],
    bytes: &'a [u8],
) -> Option<(Domain, Gfid, Span, &'a [u8])>
    ensures { option_map (λ x. (((x.0, x.1), x.2), x.3.now)) result ≡ covered_at plan.now word.now bytes.now }
{
    let rest = skip(word, bytes)?;
    let (domain, rest) = domain(rest)?;
    let (gfid, rest) = object(plan, rest)?;
    let (span, rest) = span(plan, rest)?;
    Some((domain, gfid, span, rest))
}
