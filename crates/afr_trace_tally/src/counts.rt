//! What the lines so far have counted in the numbers of each copy of one brick.
ghost use Rattle.std.specs.Prelude.{◌≡◌, ◌+◌, ◌-◌, ◌<◌, ◌≤◌, ◌^◌, ℕ, [], IfSome, OnOk, slice_index, if◌then◌else◌};
ghost use Rattle.afr_base.specs.Bricks.{member};
ghost use Rattle.afr_base.specs.declared.ids.Kind.{Kind};
ghost use Rattle.std.specs.BTreeMap.{insert_entry};
ghost use Rattle.afr_object.specs.Tables.{gfid_cmp};
ghost use Rattle.afr_trace_tally.specs.Counts.{IsOne, IsRoomy, count_at, counted_by, counted_in, counts_for, no_count, or_none, plus, with_counts};
ghost use Rattle.afr_trace_tally.specs.Flags.{five};

use afr_base::{BrickId, BrickSet, Gfid, Kind, Marks, NoMemory};
use afr_lines::{Line, Request};
use afr_object::SortedMap;
use std::alloc::Global;

/// The numbers of one kind of one copy as sums: the operations that were opened, those that were closed or settled, and for each brick
/// those that it was said to have missed, and those of them that were settled.
#[derive(Clone, Copy)]
pub struct Count {
    pub opened: u64,
    pub closed: u64,
    pub blamed: [u64; 5],
    pub settled: [u64; 5],
}

/// What a request counts, and in which numbers of which object.
#[derive(Clone, Copy)]
pub(crate) struct Counted {
    pub gfid: Gfid,
    pub kind: Kind,
    pub count: Count,
}

fn no_count() -> Count
    ensures { result ≡ no_count }
{
    Count {
        opened: 0,
        closed: 0,
        blamed: [0; 5],
        settled: [0; 5],
    }
}

fn or_none(count: Option<Count>) -> Count
    ensures { result ≡ or_none count }
{
    match count {
        Some(count) => count,
        None => no_count(),
    }
}

fn one_if(flag: bool) -> u64
    ensures value { result ≡ (if flag then 1 else 0) }
    ensures small { result ≤ 1 }
{
    if flag { 1 } else { 0 }
}

#[tactic(auto, using(crate::proofs::CountLemmas::one_pre))]
fn pre_counts() -> Count
    ensures value { result ≡ record no_count { opened = 1 } }
    ensures small { IsOne result }
{
    let mut count = no_count();
    count.opened = 1;
    count
}

#[tactic(auto, using(crate::proofs::CountLemmas::one_post))]
fn post_counts(missed: BrickSet) -> Count
    ensures value { result ≡ record no_count { closed = 1; blamed = five (λ b. if member missed b then 1 else 0) } }
    ensures small { IsOne result }
{
    let mut count = no_count();
    count.closed = 1;
    count.blamed = all_missed(missed);
    count
}

fn wide(n: u32) -> u64
    ensures value { result ≡ n }
    ensures small { result ≤ 4294967296 }
{
    u64::from(n)
}

fn all_wide(numbers: &[u32; 5]) -> [u64; 5]
    ensures value { result ≡ five (λ b. slice_index numbers.now b) }
    ensures small { (b : ℕ) → b < 5 → slice_index result b ≤ 4294967296 }
{
    [
        wide(numbers[0]),
        wide(numbers[1]),
        wide(numbers[2]),
        wide(numbers[3]),
        wide(numbers[4]),
    ]
}

fn all_missed(missed: BrickSet) -> [u64; 5]
    ensures value { result ≡ five (λ b. if member missed b then 1 else 0) }
    ensures small { (b : ℕ) → b < 5 → slice_index result b ≤ 1 }
{
    [
        one_if(missed.has(BrickId(0))),
        one_if(missed.has(BrickId(1))),
        one_if(missed.has(BrickId(2))),
        one_if(missed.has(BrickId(3))),
        one_if(missed.has(BrickId(4))),
    ]
}

#[tactic(auto, using(crate::proofs::CountLemmas::one_settle))]
fn settle_counts(less: &Marks) -> Count
    ensures value { result ≡ record no_count { closed = less.now.dirty; settled = five (λ b. slice_index less.now.pending b) } }
    ensures small { IsOne result }
{
    let mut count = no_count();
    count.closed = wide(less.dirty);
    count.settled = all_wide(&less.pending);
    count
}

/// What a request counts where it is carried out.
fn counted_in(request: &Request) -> Option<Counted>
    ensures value { result ≡ counted_in request.now }
    ensures small { IfSome result (λ x. IsOne x.count) }
{
    match request {
        Request::Pre { gfid, kind } => Some(Counted {
            gfid: *gfid,
            kind: *kind,
            count: pre_counts(),
        }),
        Request::Post {
            gfid,
            kind,
            missed,
            ..
        } => Some(Counted {
            gfid: *gfid,
            kind: *kind,
            count: post_counts(*missed),
        }),
        Request::Settle { gfid, kind, less } => Some(Counted {
            gfid: *gfid,
            kind: *kind,
            count: settle_counts(less),
        }),
        _ => None,
    }
}

/// What a line counts on a brick that has its object.
pub(crate) fn counted_by(b: BrickId, line: &Line) -> Option<Counted>
    ensures value { result ≡ counted_by b.0 line.now }
    ensures small { IfSome result (λ x. IsOne x.count) }
{
    match line {
        Line::Ask {
            brick,
            request,
            took,
            ..
        } => {
            if *took && *brick == b {
                counted_in(request)
            } else {
                None
            }
        }
        _ => None,
    }
}

fn plus_five(more: &[u64; 5], was: &[u64; 5]) -> [u64; 5]
    requires room { (b : ℕ) → b < 5 → slice_index more.now b + slice_index was.now b < 2 ^ 64 }
    ensures { result ≡ five (λ b. slice_index more.now b + slice_index was.now b) }
{
    [
        more[0] + was[0],
        more[1] + was[1],
        more[2] + was[2],
        more[3] + was[3],
        more[4] + was[4],
    ]
}

/// What two counts make together.
pub(crate) fn plus(more: &Count, was: &Count) -> Count
    requires one { IsOne more.now }
    requires room { IsRoomy was.now }
    ensures { result ≡ plus more.now was.now }
{
    Count {
        opened: more.opened + was.opened,
        closed: more.closed + was.closed,
        blamed: plus_five(&more.blamed, &was.blamed),
        settled: plus_five(&more.settled, &was.settled),
    }
}

/// The counts of each copy, by kind.
#[derive(Drop)]
pub(crate) struct Counts {
    bytes: SortedMap<Gfid, Count>,
    attrs: SortedMap<Gfid, Count>,
    names: SortedMap<Gfid, Count>,
}

pub(crate) fn no_counts(alloc: Global) -> Counts
    ensures { (kind : Kind) → counts_for kind result ≡ [] }
{
    Counts {
        bytes: SortedMap::new(alloc),
        attrs: SortedMap::new(alloc),
        names: SortedMap::new(alloc),
    }
}

/// What was counted in the numbers of a copy, in O(log n).
pub(crate) fn count_at(counts: &Counts, gfid: Gfid, kind: Kind) -> Count
    ensures { result ≡ count_at gfid (counts_for kind counts.now) }
{
    match kind {
        Kind::Bytes => or_none(counts.bytes.get(gfid)),
        Kind::Attrs => or_none(counts.attrs.get(gfid)),
        Kind::Names => or_none(counts.names.get(gfid)),
    }
}

/// Replaces what was counted in the numbers of a copy, in O(log n).
pub(crate) fn put_count(
    counts: &mut Counts,
    gfid: Gfid,
    kind: Kind,
    count: Count,
) -> Result<(), NoMemory>
    ensures ok { OnOk result (counts.new ≡ with_counts kind (insert_entry gfid_cmp (counts_for kind counts.old) gfid count) counts.old) }
{
    match kind {
        Kind::Bytes => counts.bytes.insert(gfid, count),
        Kind::Attrs => counts.attrs.insert(gfid, count),
        Kind::Names => counts.names.insert(gfid, count),
    }
}
