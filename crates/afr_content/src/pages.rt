//! The pages of a file by their numbers. One that isn't in the map, or keeps no byte, is all zeros.
ghost use Rattle.std.specs.Prelude.{◌≡◌, ◌≢◌, ℕ, ◌+◌, ◌-◌, ◌*◌, ◌/◌, ◌<◌, ◌≤◌, [], true, false, length, min, slice_index, take, IfNone, IfSome, IsSome, OnErr, OnOk};
ghost use Rattle.std.specs.BTreeMap.{get};
ghost use Rattle.std.specs.Ordering.{nat_cmp};
ghost use Rattle.afr_object.specs.Bytes.{written, zeroed, byte_at};
ghost use Rattle.afr_content.specs.Kept.{byte_in, cleared, is_there, kept, overlaid, room_at, shortened};

use crate::content::NoMemory;
use crate::page::{PAGE, Page};
use std::alloc::Global;
use std::collections::BTreeMap;

pub(crate) type Pages = BTreeMap<u32, Page>;

/// How many pages a file of that length reaches into.
fn page_count(len: usize) -> usize
    requires { len ≤ 1048576 }
    ensures { result ≡ (len + 4096 - 1) / 4096 }
{
    (len + PAGE - 1) / PAGE
}

/// Whether a page keeps a byte.
pub(crate) fn has(pages: &Pages, number: u32) -> bool
    ensures { result ≡ is_there (kept pages.now.entries) number }
{
    match pages.get(&number) {
        Some(page) => page.has_bytes(),
        None => false,
    }
}

/// Writes the bytes at an offset. Bytes of one page that is there and has memory for them take one search.
pub(crate) fn overlay(
    pages: &mut Pages,
    alloc: Global,
    at: usize,
    bytes: &[u8],
) -> Result<(), NoMemory>
    requires { at + length bytes.now ≤ 1048576 }
    ensures ok { OnOk result ((q : ℕ) → kept pages.new.entries q ≡ overlaid at bytes.now (kept pages.old.entries) q) }
    ensures err { OnErr result ((q : ℕ) → kept pages.new.entries q ≡ kept pages.old.entries q) }
{
    if write_there(pages, at, bytes) {
        return Ok(());
    }
    write_anew(pages, alloc, at, bytes)
}

/// Writes bytes of one page, if it is there and has memory for them.
fn write_there(pages: &mut Pages, at: usize, bytes: &[u8]) -> bool
    requires { at + length bytes.now ≤ 1048576 }
    ensures yes { result ≡ true → (q : ℕ) → kept pages.new.entries q ≡ overlaid at bytes.now (kept pages.old.entries) q }
    ensures no { result ≡ false → (q : ℕ) → kept pages.new.entries q ≡ kept pages.old.entries q }
{
    let from = at % PAGE;
    if from + bytes.len() > PAGE {
        return false;
    }
    write_in_room(pages, (at / PAGE) as u32, from, bytes)
}

fn write_in_room(pages: &mut Pages, number: u32, at: usize, bytes: &[u8]) -> bool
    requires { at + length bytes.now ≤ 4096 }
    ensures yes { result ≡ true → kept pages.new.entries number ≡ written at bytes.now (kept pages.old.entries number) }
    ensures no { result ≡ false → kept pages.new.entries number ≡ kept pages.old.entries number }
    ensures others { (q : ℕ) → q ≢ number → kept pages.new.entries q ≡ kept pages.old.entries q }
{
    match pages.get_mut(&number) {
        Some(page) => page.write_in_room(at, bytes),
        None => false,
    }
}

/// Takes memory for the bytes, and writes them.
#[inline(never)]
fn write_anew(pages: &mut Pages, alloc: Global, at: usize, bytes: &[u8]) -> Result<(), NoMemory>
    requires { at + length bytes.now ≤ 1048576 }
    ensures ok { OnOk result ((q : ℕ) → kept pages.new.entries q ≡ overlaid at bytes.now (kept pages.old.entries) q) }
    ensures err { OnErr result ((q : ℕ) → kept pages.new.entries q ≡ kept pages.old.entries q) }
{
    take_room(pages, alloc, at, bytes.len())?;
    write(pages, at, bytes);
    Ok(())
}

/// Takes memory for all pages of a span, so that a write of it can't fail. No page keeps another
/// byte for it.
fn take_room(pages: &mut Pages, alloc: Global, at: usize, len: usize) -> Result<(), NoMemory>
    requires { at + len ≤ 1048576 }
    ensures bytes { (q : ℕ) → kept pages.new.entries q ≡ kept pages.old.entries q }
    ensures ok { OnOk result ((q : ℕ) → at / 4096 ≤ q → min (at + len - q * 4096) 4096 ≤ room_at pages.new.entries q) }
{
    let end = at + len;
    for number in at / PAGE..page_count(end) {
        add(pages, alloc, number as u32)?;
        reserve(pages, number as u32, PAGE.min(end - number * PAGE))?;
    }
    Ok(())
}

/// Adds a page that keeps no byte, where there is none.
fn add(pages: &mut Pages, alloc: Global, number: u32) -> Result<(), NoMemory>
    ensures bytes { (q : ℕ) → kept pages.new.entries q ≡ kept pages.old.entries q }
    ensures room { (q : ℕ) → room_at pages.old.entries q ≤ room_at pages.new.entries q }
    ensures ok { OnOk result (IsSome (get nat_cmp pages.new number)) }
{
    if !pages.contains_key(&number) {
        pages.insert(number, Page::new(alloc))?;
    }
    Ok(())
}

fn reserve(pages: &mut Pages, number: u32, need: usize) -> Result<(), NoMemory>
    requires there { IsSome (get nat_cmp pages.old number) }
    requires need { need ≤ 4096 }
    ensures bytes { (q : ℕ) → kept pages.new.entries q ≡ kept pages.old.entries q }
    ensures room { (q : ℕ) → room_at pages.old.entries q ≤ room_at pages.new.entries q }
    ensures ok { OnOk result (need ≤ room_at pages.new.entries number) }
{
    match pages.get_mut(&number) {
        Some(page) => page.reserve(need),
        None => unreachable!(),
    }
}

/// Writes the bytes at an offset, into pages that have memory for them.
fn write(pages: &mut Pages, at: usize, bytes: &[u8])
    requires end { at + length bytes.now ≤ 1048576 }
    requires room { (q : ℕ) → at / 4096 ≤ q → min (at + length bytes.now - q * 4096) 4096 ≤ room_at pages.old.entries q }
    ensures { (q : ℕ) → kept pages.new.entries q ≡ overlaid at bytes.now (kept pages.old.entries) q }
{
    let end = at + bytes.len();
    for number in at / PAGE..page_count(end) {
        let begin = number * PAGE;
        let from = at.max(begin);
        let to = end.min(begin + PAGE);
        write_in(
            pages,
            number as u32,
            from - begin,
            &bytes[from - at..to - at],
        );
    }
}

fn write_in(pages: &mut Pages, number: u32, at: usize, bytes: &[u8])
    requires { at + length bytes.now ≤ room_at pages.old.entries number }
    ensures bytes { kept pages.new.entries number ≡ written at bytes.now (kept pages.old.entries number) }
    ensures others { (q : ℕ) → q ≢ number → kept pages.new.entries q ≡ kept pages.old.entries q }
    ensures room { (q : ℕ) → room_at pages.old.entries q ≤ room_at pages.new.entries q }
{
    if let Some(page) = pages.get_mut(&number) {
        page.write(at, bytes);
    }
}

/// Makes the bytes from one offset up to another zero in each page that is there.
pub(crate) fn zero(pages: &mut Pages, from: usize, to: usize)
    requires order { from ≤ to }
    requires end { to ≤ 1048576 }
    requires short { (q : ℕ) → length (kept pages.old.entries q) ≤ 4096 }
    ensures { (q : ℕ) → kept pages.new.entries q ≡ cleared from to (kept pages.old.entries) q }
{
    for number in from / PAGE..page_count(to) {
        let begin = number * PAGE;
        zero_in(pages, number as u32, from.saturating_sub(begin), to - begin);
    }
}

fn zero_in(pages: &mut Pages, number: u32, from: usize, to: usize)
    requires { from ≤ to }
    ensures bytes { kept pages.new.entries number ≡ zeroed from to (kept pages.old.entries number) }
    ensures others { (q : ℕ) → q ≢ number → kept pages.new.entries q ≡ kept pages.old.entries q }
{
    if let Some(page) = pages.get_mut(&number) {
        page.zero(from, to);
    }
}

/// Drops the pages that begin at or past a length, and the bytes of the last one from it on.
pub(crate) fn cut(pages: &mut Pages, len: usize)
    requires few { len ≤ 1048576 }
    requires short { (q : ℕ) → length (kept pages.old.entries q) ≤ 4096 }
    ensures { (q : ℕ) → kept pages.new.entries q ≡ shortened len (kept pages.old.entries) q }
{
    drop_from(pages, page_count(len) as u32);
    cut_in(pages, (len / PAGE) as u32, len % PAGE);
}

/// Drops the pages from a number on, one step for each.
fn drop_from(pages: &mut Pages, first: u32)
    ensures below { (q : ℕ) → q < first → kept pages.new.entries q ≡ kept pages.old.entries q }
    ensures above { (q : ℕ) → first ≤ q → kept pages.new.entries q ≡ [] }
{
    while let Some(number) = last_from(pages, first) {
        pages.remove(&number);
    }
}

/// The number of the last page, unless it comes before the first of those that are asked for.
fn last_from(pages: &Pages, first: u32) -> Option<u32>
    ensures some { IfSome result (λ number. (first ≤ number) × IsSome (get nat_cmp pages.now number)) }
    ensures none { IfNone result ((q : ℕ) → first ≤ q → kept pages.now.entries q ≡ []) }
{
    match pages.last_key_value() {
        Some((number, _)) if first <= *number => Some(*number),
        _ => None,
    }
}

fn cut_in(pages: &mut Pages, number: u32, len: usize)
    ensures bytes { kept pages.new.entries number ≡ take len (kept pages.old.entries number) }
    ensures others { (q : ℕ) → q ≢ number → kept pages.new.entries q ≡ kept pages.old.entries q }
{
    if let Some(page) = pages.get_mut(&number) {
        page.cut(len);
    }
}

/// Copies the bytes from an offset on into all of `into`, which lies in the file.
pub(crate) fn read(pages: &Pages, at: usize, into: &mut [u8])
    requires { at + length into.old ≤ 1048576 }
    ensures len { length into.new ≡ length into.old }
    ensures bytes { (k : ℕ) → k < length into.old → slice_index into.new k ≡ byte_in (kept pages.now.entries) (at + k) }
{
    let end = at + into.len();
    for number in at / PAGE..page_count(end) {
        let begin = number * PAGE;
        let from = at.max(begin);
        let to = end.min(begin + PAGE);
        read_in(
            pages,
            number as u32,
            from - begin,
            &mut into[from - at..to - at],
        );
    }
}

fn read_in(pages: &Pages, number: u32, at: usize, into: &mut [u8])
    ensures len { length into.new ≡ length into.old }
    ensures bytes { (k : ℕ) → k < length into.old → slice_index into.new k ≡ byte_at (at + k) (kept pages.now.entries number) }
{
    match pages.get(&number) {
        Some(page) => page.read(at, into),
        None => into.fill(0),
    }
}
