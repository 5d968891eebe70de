//! The lists within a request: bricks that missed an operation, positions of reads, and changelog numbers.
ghost use Rattle.std.specs.Prelude.{◌≡◌, ◌<◌, Some, None};
ghost use Rattle.std.specs.Option.{option_copied, option_map};
ghost use Rattle.afr_plan.specs.Reading.{after};
ghost use Rattle.afr_trace_read.specs.Lists as list;

use crate::bytes::{MOST_SMALL, number};
use afr_base::{BrickId, BrickSet, Marks};
use afr_plan_line::skip;

/// What follows a brick's number in a list.
fn after_brick(first: bool, b: u8, bytes: &[u8]) -> Option<&[u8]>
    requires { b < 5 }
    ensures { option_copied result ≡ after (list.brick_word first b) bytes.now }
{
    if first {
        skip(&[b'0' + b], bytes)
    } else {
        skip(&[b',', b'0' + b], bytes)
    }
}

/// The set with one brick more, where its number stands next, and what follows.
fn then_brick(set: BrickSet, b: u8, bytes: &[u8]) -> (BrickSet, &[u8])
    requires { b < 5 }
    ensures { (result.0, result.1.now) ≡ list.then_brick b (set, bytes.now) }
{
    match after_brick(set.is_empty(), b, bytes) {
        Some(rest) => (set.with(BrickId(b)), rest),
        None => (set, bytes),
    }
}

fn front_bricks(bytes: &[u8]) -> (BrickSet, &[u8])
    ensures { (result.0, result.1.now) ≡ list.front_bricks bytes.now }
{
    let (set, rest) = then_brick(BrickSet::none(), 0, bytes);
    let (set, rest) = then_brick(set, 1, rest);
    let (set, rest) = then_brick(set, 2, rest);
    let (set, rest) = then_brick(set, 3, rest);
    then_brick(set, 4, rest)
}

/// The bricks that missed an operation, rising, or a dash for none.
#[tactic(auto, unfolding(crate::specs::Lists::missed_at))]
pub(crate) fn missed(bytes: &[u8]) -> Option<(BrickSet, &[u8])>
    ensures { option_map (λ x. (x.0, x.1.now)) result ≡ list.missed_at bytes.now }
{
    if let Some(rest) = skip(b"-", bytes) {
        return Some((BrickSet::none(), rest));
    }
    let (set, rest) = front_bricks(bytes);
    if set.is_empty() {
        return None;
    }
    Some((set, rest))
}

/// Of each of five bricks, whether it is in the set.
pub(crate) fn flags(set: BrickSet) -> [bool; 5]
    ensures { result ≡ list.flags_of set }
{
    [
        set.has(BrickId(0)),
        set.has(BrickId(1)),
        set.has(BrickId(2)),
        set.has(BrickId(3)),
        set.has(BrickId(4)),
    ]
}

/// A number behind a comma.
#[tactic(auto, unfolding(crate::specs::Lists::next_at))]
fn next(bytes: &[u8]) -> Option<(u32, &[u8])>
    ensures { option_map (λ x. (x.0, x.1.now)) result ≡ list.next_at bytes.now }
{
    let rest = skip(b",", bytes)?;
    let (n, rest) = number(rest, MOST_SMALL)?;
    Some((n as u32, rest))
}

#[tactic(auto, unfolding(crate::specs::Lists::one_more))]
fn one_more(bytes: &[u8]) -> (Option<u32>, &[u8])
    ensures { Some (result.0, result.1.now) ≡ list.one_more bytes.now }
{
    match next(bytes) {
        Some((n, rest)) => (Some(n), rest),
        None => (None, bytes),
    }
}

#[tactic(auto, unfolding(crate::specs::Lists::two_more))]
fn two_more(bytes: &[u8]) -> (Option<u32>, Option<u32>, &[u8])
    ensures { Some ((result.0, result.1), result.2.now) ≡ list.two_more bytes.now }
{
    match next(bytes) {
        Some((n, rest)) => {
            let (a, rest) = one_more(rest);
            (Some(n), a, rest)
        }
        None => (None, None, bytes),
    }
}

#[tactic(auto, unfolding(crate::specs::Lists::three_more))]
fn three_more(bytes: &[u8]) -> (Option<u32>, Option<u32>, Option<u32>, &[u8])
    ensures { Some ((result.0, (result.1, result.2)), result.3.now) ≡ list.three_more bytes.now }
{
    match next(bytes) {
        Some((n, rest)) => {
            let (a, b, rest) = two_more(rest);
            (Some(n), a, b, rest)
        }
        None => (None, None, None, bytes),
    }
}

#[tactic(auto, unfolding(crate::specs::Lists::four_more))]
fn four_more(bytes: &[u8]) -> (Option<u32>, Option<u32>, Option<u32>, Option<u32>, &[u8])
    ensures { Some ((result.0, (result.1, (result.2, result.3))), result.4.now) ≡ list.four_more bytes.now }
{
    match next(bytes) {
        Some((n, rest)) => {
            let (a, b, c, rest) = three_more(rest);
            (Some(n), a, b, c, rest)
        }
        None => (None, None, None, None, bytes),
    }
}

/// One to five positions of reads.
#[tactic(auto, unfolding(crate::specs::Lists::reads_at))]
pub(crate) fn reads(bytes: &[u8]) -> Option<([Option<u32>; 5], &[u8])>
    ensures { option_map (λ x. (x.0, x.1.now)) result ≡ list.reads_at bytes.now }
{
    let (n, rest) = number(bytes, MOST_SMALL)?;
    let (a, b, c, d, rest) = four_more(rest);
    Some(([Some(n as u32), a, b, c, d], rest))
}

/// A number behind a space.
#[tactic(auto, unfolding(crate::specs::Lists::spaced_at))]
fn spaced(bytes: &[u8]) -> Option<(u32, &[u8])>
    ensures { option_map (λ x. (x.0, x.1.now)) result ≡ list.spaced_at bytes.now }
{
    let rest = skip(b" ", bytes)?;
    let (n, rest) = number(rest, MOST_SMALL)?;
    Some((n as u32, rest))
}

#[tactic(auto, unfolding(crate::specs::Lists::three_at))]
fn three(bytes: &[u8]) -> Option<(u32, u32, u32, &[u8])>
    ensures { option_map (λ x. (((x.0, x.1), x.2), x.3.now)) result ≡ list.three_at bytes.now }
{
    let (a, rest) = spaced(bytes)?;
    let (b, rest) = spaced(rest)?;
    let (c, rest) = spaced(rest)?;
    Some((a, b, c, rest))
}

/// The last two of five numbers; of three there are none more.
#[tactic(auto, unfolding(crate::specs::Lists::last_at))]
fn last(n: u8, bytes: &[u8]) -> Option<(u32, u32, &[u8])>
    ensures { option_map (λ x. ((x.0, x.1), x.2.now)) result ≡ list.last_at n bytes.now }
{
    if n == 5 {
        let (d, rest) = spaced(bytes)?;
        let (e, rest) = spaced(rest)?;
        return Some((d, e, rest));
    }
    if n == 3 { Some((0, 0, bytes)) } else { None }
}

/// The changelog numbers of one kind on a copy, in a volume of `n` bricks.
#[tactic(auto, unfolding(crate::specs::Lists::marks_at))]
pub(crate) fn marks(n: u8, bytes: &[u8]) -> Option<(Marks, &[u8])>
    ensures { option_map (λ x. (x.0, x.1.now)) result ≡ list.marks_at n bytes.now }
{
    let (dirty, rest) = number(bytes, MOST_SMALL)?;
    let (a, b, c, rest) = three(rest)?;
    let (d, e, rest) = last(n, rest)?;
    Some((
        Marks {
            dirty: dirty as u32,
            pending: [a, b, c, d, e],
        },
        rest,
    ))
}
