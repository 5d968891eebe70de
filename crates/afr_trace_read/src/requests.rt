//! Requests.
ghost use Rattle.std.specs.Prelude.{◌≡◌, ◌+◌, ◌^◌, ◌≤◌, ◌<◌, ◌&&◌, nat_le, nat_lt, IfSome, codes};
ghost use Rattle.std.specs.Option.{option_map};
ghost use Rattle.afr_plan.specs.Reading.{as_a, both, word, word_then};
ghost use Rattle.afr_trace_read.specs.Forms.{number_below, then_word};
ghost use Rattle.afr_trace_read.specs.Lists.{marks_at, missed_at, reads_at};
ghost use Rattle.afr_trace_read.specs.Parts.{keyed_at, kind_at, named_at, object_at};
ghost use Rattle.afr_trace_read.specs.Reading.{asked_at, copy_of, covered_at, cut_to_of, lock_of, mending_at, numbered_at, post_of, pre_of, put_names_of, put_of, range_at, read_attr_of, read_name_of, read_of, reading_at, settle_of, stepping_at, unlock_of};

use crate::bytes::{MOST_SMALL, number};
use crate::kinds::SpelledRequest;
use crate::lists::{flags, marks, missed, reads};
use crate::parts::{kind, object};
use crate::spans::covered;
use crate::words::{keyed, named};
use afr_base::Gfid;
use afr_plan::Plan;
use afr_plan_line::skip;

fn is_range(at: u128, to: u128) -> bool
    requires { at < 2 ^ 32 }
    ensures { result ≡ (nat_le at to && nat_lt to (at + 2 ^ 32)) }
{
    at <= to && to < at + 4_294_967_296
}

/// A file, a place in it, and a place that isn't before it.
#[tactic(auto, unfolding(crate::specs::Reading::range_at))]
fn range<'a>(plan: &Plan, bytes: &'a [u8]) -> Option<(Gfid, u128, u128, &'a [u8])>
    ensures read { option_map (λ x. (((x.0, x.1), x.2), x.3.now)) result ≡ range_at plan.now bytes.now }
    ensures small { IfSome result (λ x. x.1 < 2 ^ 32) }
    ensures order { IfSome result (λ x. x.1 ≤ x.2) }
    ensures long { IfSome result (λ x. x.2 < x.1 + 2 ^ 32) }
{
    let (gfid, rest) = object(plan, bytes)?;
    let rest = skip(b"[", rest)?;
    let (at, rest) = number(rest, MOST_SMALL)?;
    let rest = skip(b",", rest)?;
    let (to, rest) = number(rest, 8_589_934_591)?;
    let rest = skip(b")", rest)?;
    if !is_range(at, to) {
        return None;
    }
    Some((gfid, at, to, rest))
}

/// A word, an object, another word and a number.
#[tactic(auto, unfolding(crate::specs::Reading::numbered_at))]
pub(crate) fn numbered<'a>(
    plan: &Plan,
    word: &[u8],
    between: &[u8],
    bytes: &'a [u8],
) -> Option<(Gfid, u32, &'a [u8])>
    ensures { option_map (λ x. ((x.0, x.1), x.2.now)) result ≡ numbered_at plan.now word.now between.now bytes.now }
{
    let rest = skip(word, bytes)?;
    let (gfid, rest) = object(plan, rest)?;
    let rest = skip(between, rest)?;
    let (n, rest) = number(rest, MOST_SMALL)?;
    Some((gfid, n as u32, rest))
}

/// A word and an object.
fn about<'a>(plan: &Plan, word: &[u8], bytes: &'a [u8]) -> Option<(Gfid, &'a [u8])>
    ensures { option_map (λ x. (x.0, x.1.now)) result ≡ word_then word.now (object_at plan.now) bytes.now }
{
    let rest = skip(word, bytes)?;
    object(plan, rest)
}

fn look<'a>(plan: &Plan, bytes: &'a [u8]) -> Option<(SpelledRequest, &'a [u8])>
    ensures { option_map (λ x. (x.0, x.1.now)) result ≡ as_a SpelledRequest.Look (word_then (codes "look ") (object_at plan.now)) bytes.now }
{
    let (gfid, rest) = about(plan, b"look ", bytes)?;
    Some((SpelledRequest::Look { gfid }, rest))
}

fn lock<'a>(plan: &Plan, bytes: &'a [u8]) -> Option<(SpelledRequest, &'a [u8])>
    ensures { option_map (λ x. (x.0, x.1.now)) result ≡ as_a lock_of (covered_at plan.now (codes "lock ")) bytes.now }
{
    let (domain, gfid, span, rest) = covered(plan, b"lock ", bytes)?;
    Some((SpelledRequest::Lock { domain, gfid, span }, rest))
}

fn unlock<'a>(plan: &Plan, bytes: &'a [u8]) -> Option<(SpelledRequest, &'a [u8])>
    ensures { option_map (λ x. (x.0, x.1.now)) result ≡ as_a unlock_of (covered_at plan.now (codes "unlock ")) bytes.now }
{
    let (domain, gfid, span, rest) = covered(plan, b"unlock ", bytes)?;
    Some((SpelledRequest::Unlock { domain, gfid, span }, rest))
}

fn read<'a>(plan: &Plan, bytes: &'a [u8]) -> Option<(SpelledRequest, &'a [u8])>
    ensures { option_map (λ x. (x.0, x.1.now)) result ≡ as_a read_of (word_then (codes "read ") (range_at plan.now)) bytes.now }
{
    let rest = skip(b"read ", bytes)?;
    let (gfid, at, to, rest) = range(plan, rest)?;
    let len = (to - at) as u32;
    Some((
        SpelledRequest::ReadBytes {
            gfid,
            at: at as u32,
            len,
        },
        rest,
    ))
}

fn read_name<'a>(plan: &Plan, bytes: &'a [u8]) -> Option<(SpelledRequest, &'a [u8])>
    ensures { option_map (λ x. (x.0, x.1.now)) result ≡ as_a read_name_of (word_then (codes "name ") (named_at plan.now)) bytes.now }
{
    let rest = skip(b"name ", bytes)?;
    let (dir, name, rest) = named(plan, rest)?;
    Some((SpelledRequest::ReadName { dir, name }, rest))
}

fn read_attr<'a>(plan: &Plan, bytes: &'a [u8]) -> Option<(SpelledRequest, &'a [u8])>
    ensures { option_map (λ x. (x.0, x.1.now)) result ≡ as_a read_attr_of (word_then (codes "attr ") (keyed_at plan.now)) bytes.now }
{
    let rest = skip(b"attr ", bytes)?;
    let (gfid, key, rest) = keyed(plan, rest)?;
    Some((SpelledRequest::ReadAttr { gfid, key }, rest))
}

fn list<'a>(plan: &Plan, bytes: &'a [u8]) -> Option<(SpelledRequest, &'a [u8])>
    ensures { option_map (λ x. (x.0, x.1.now)) result ≡ as_a SpelledRequest.List (word_then (codes "list ") (object_at plan.now)) bytes.now }
{
    let (gfid, rest) = about(plan, b"list ", bytes)?;
    Some((SpelledRequest::List { gfid }, rest))
}

fn attrs<'a>(plan: &Plan, bytes: &'a [u8]) -> Option<(SpelledRequest, &'a [u8])>
    ensures { option_map (λ x. (x.0, x.1.now)) result ≡ as_a SpelledRequest.ReadAttrs (word_then (codes "attrs ") (object_at plan.now)) bytes.now }
{
    let (gfid, rest) = about(plan, b"attrs ", bytes)?;
    Some((SpelledRequest::ReadAttrs { gfid }, rest))
}

fn index(bytes: &[u8]) -> Option<(SpelledRequest, &[u8])>
    ensures { option_map (λ x. (x.0, x.1.now)) result ≡ word (codes "index") SpelledRequest.Index bytes.now }
{
    let rest = skip(b"index", bytes)?;
    Some((SpelledRequest::Index, rest))
}

fn pre<'a>(plan: &Plan, bytes: &'a [u8]) -> Option<(SpelledRequest, &'a [u8])>
    ensures { option_map (λ x. (x.0, x.1.now)) result ≡ as_a pre_of (both (then_word (word_then (codes "pre ") (object_at plan.now)) (codes " ")) kind_at) bytes.now }
{
    let (gfid, rest) = about(plan, b"pre ", bytes)?;
    let rest = skip(b" ", rest)?;
    let (kind, rest) = kind(rest)?;
    Some((SpelledRequest::Pre { gfid, kind }, rest))
}

fn apply(bytes: &[u8]) -> Option<(SpelledRequest, &[u8])>
    ensures { option_map (λ x. (x.0, x.1.now)) result ≡ as_a SpelledRequest.Apply (word_then (codes "apply ") (number_below (2 ^ 32))) bytes.now }
{
    let rest = skip(b"apply ", bytes)?;
    let (n, rest) = number(rest, MOST_SMALL)?;
    Some((SpelledRequest::Apply { attempt: n as u32 }, rest))
}

fn post(bytes: &[u8]) -> Option<(SpelledRequest, &[u8])>
    ensures { option_map (λ x. (x.0, x.1.now)) result ≡ as_a post_of (both (then_word (word_then (codes "post ") (number_below (2 ^ 32))) (codes " ")) missed_at) bytes.now }
{
    let rest = skip(b"post ", bytes)?;
    let (n, rest) = number(rest, MOST_SMALL)?;
    let rest = skip(b" ", rest)?;
    let Some((missed, rest)) = missed(rest) else {
        return None;
    };
    let attempt = n as u32;
    let missed = flags(missed);
    Some((SpelledRequest::Post { attempt, missed }, rest))
}

fn cut_to<'a>(plan: &Plan, bytes: &'a [u8]) -> Option<(SpelledRequest, &'a [u8])>
    ensures { option_map (λ x. (x.0, x.1.now)) result ≡ as_a cut_to_of (numbered_at plan.now (codes "cut ") (codes " ")) bytes.now }
{
    let (gfid, len, rest) = numbered(plan, b"cut ", b" ", bytes)?;
    Some((SpelledRequest::CutTo { gfid, len }, rest))
}

fn copy<'a>(plan: &Plan, bytes: &'a [u8]) -> Option<(SpelledRequest, &'a [u8])>
    ensures { option_map (λ x. (x.0, x.1.now)) result ≡ as_a copy_of (both (then_word (word_then (codes "copy ") (range_at plan.now)) (codes " from ")) (number_below (2 ^ 32))) bytes.now }
{
    let rest = skip(b"copy ", bytes)?;
    let (gfid, at, to, rest) = range(plan, rest)?;
    let rest = skip(b" from ", rest)?;
    let (n, rest) = number(rest, MOST_SMALL)?;
    let span = (to - at) as u32;
    Some((
        SpelledRequest::Copy {
            gfid,
            at: at as u32,
            span,
            read: n as u32,
        },
        rest,
    ))
}

fn put_attrs<'a>(plan: &Plan, bytes: &'a [u8]) -> Option<(SpelledRequest, &'a [u8])>
    ensures { option_map (λ x. (x.0, x.1.now)) result ≡ as_a put_of (numbered_at plan.now (codes "put-attrs ") (codes " from ")) bytes.now }
{
    let (gfid, read, rest) = numbered(plan, b"put-attrs ", b" from ", bytes)?;
    Some((SpelledRequest::PutAttrs { gfid, read }, rest))
}

fn put_names<'a>(plan: &Plan, bytes: &'a [u8]) -> Option<(SpelledRequest, &'a [u8])>
    ensures { option_map (λ x. (x.0, x.1.now)) result ≡ as_a put_names_of (both (then_word (word_then (codes "put-names ") (object_at plan.now)) (codes " from ")) reads_at) bytes.now }
{
    let (gfid, rest) = about(plan, b"put-names ", bytes)?;
    let rest = skip(b" from ", rest)?;
    let (reads, rest) = reads(rest)?;
    Some((SpelledRequest::PutNames { gfid, reads }, rest))
}

fn settle<'a>(plan: &Plan, bytes: &'a [u8]) -> Option<(SpelledRequest, &'a [u8])>
    ensures { option_map (λ x. (x.0, x.1.now)) result ≡ as_a settle_of (both (then_word (both (then_word (word_then (codes "settle ") (object_at plan.now)) (codes " ")) kind_at) (codes " ")) (marks_at plan.now.shape.n)) bytes.now }
{
    let (gfid, rest) = about(plan, b"settle ", bytes)?;
    let rest = skip(b" ", rest)?;
    let (kind, rest) = kind(rest)?;
    let rest = skip(b" ", rest)?;
    let (less, rest) = marks(plan.shape.n, rest)?;
    Some((SpelledRequest::Settle { gfid, kind, less }, rest))
}

#[tactic(auto, unfolding(crate::specs::Reading::reading_at))]
fn reading<'a>(plan: &Plan, bytes: &'a [u8]) -> Option<(SpelledRequest, &'a [u8])>
    ensures { option_map (λ x. (x.0, x.1.now)) result ≡ reading_at plan.now bytes.now }
{
    if let Some(x) = look(plan, bytes) {
        return Some(x);
    }
    if let Some(x) = read(plan, bytes) {
        return Some(x);
    }
    if let Some(x) = read_name(plan, bytes) {
        return Some(x);
    }
    if let Some(x) = read_attr(plan, bytes) {
        return Some(x);
    }
    if let Some(x) = list(plan, bytes) {
        return Some(x);
    }
    if let Some(x) = attrs(plan, bytes) {
        return Some(x);
    }
    index(bytes)
}

#[tactic(auto, unfolding(crate::specs::Reading::stepping_at))]
fn stepping<'a>(plan: &Plan, bytes: &'a [u8]) -> Option<(SpelledRequest, &'a [u8])>
    ensures { option_map (λ x. (x.0, x.1.now)) result ≡ stepping_at plan.now bytes.now }
{
    if let Some(x) = lock(plan, bytes) {
        return Some(x);
    }
    if let Some(x) = unlock(plan, bytes) {
        return Some(x);
    }
    if let Some(x) = pre(plan, bytes) {
        return Some(x);
    }
    if let Some(x) = apply(bytes) {
        return Some(x);
    }
    post(bytes)
}

#[tactic(auto, unfolding(crate::specs::Reading::mending_at))]
fn mending<'a>(plan: &Plan, bytes: &'a [u8]) -> Option<(SpelledRequest, &'a [u8])>
    ensures { option_map (λ x. (x.0, x.1.now)) result ≡ mending_at plan.now bytes.now }
{
    if let Some(x) = cut_to(plan, bytes) {
        return Some(x);
    }
    if let Some(x) = copy(plan, bytes) {
        return Some(x);
    }
    if let Some(x) = put_attrs(plan, bytes) {
        return Some(x);
    }
    if let Some(x) = put_names(plan, bytes) {
        return Some(x);
    }
    settle(plan, bytes)
}

/// A request, and what follows it.
#[tactic(auto, unfolding(crate::specs::Reading::asked_at))]
pub(crate) fn asked<'a>(plan: &Plan, bytes: &'a [u8]) -> Option<(SpelledRequest, &'a [u8])>
    ensures { option_map (λ x. (x.0, x.1.now)) result ≡ asked_at plan.now bytes.now }
{
    if let Some(x) = reading(plan, bytes) {
        return Some(x);
    }
    if let Some(x) = stepping(plan, bytes) {
        return Some(x);
    }
    mending(plan, bytes)
}
