//! What read lines showed, and what a repair brings of it to a brick.
ghost use Rattle.std.specs.Prelude.{Err, ◌≡◌, ◌≢◌, None, Some, IfOk, OnOk, OnErr, true, false, map, option_map, slice_get};
ghost use Rattle.std.specs.List.Sorted.{IsStrictlySortedBy};
ghost use Rattle.std.specs.Map.{keys_of};
ghost use Rattle.std.specs.Option.{option_copied};
ghost use Rattle.afr_object.specs.State.{CanRepair, IsInOrder, contents_of};
ghost use Rattle.afr_object.specs.Repairs.{higher, mended, merged, merged_into, outranks};
ghost use Rattle.afr_object.specs.Tables.{key_cmp, name_cmp};
ghost use Rattle.afr_trace_tally.specs.Contents.{AreKept, IsShort, asked_by, attrs_among, bytes_among, carried_for, carried_of, contents_seen, kept_at, names_among, names_by, names_kept, or_nothing, repair_in, shown_of};

use crate::stop::TallyStop;
use afr_base::{BrickId, Gfid, LONGEST_FILE, NameId, NoMemory, What};
use afr_brick::{Brick, Refused};
use afr_lines::{Line, Request};
use afr_object::{AttrList, Chunk, Entry, List, Load, NameList, Repair, SortedMap, TryCopy};
use std::alloc::Global;

/// What a read showed, or what a repair brings.
#[derive(Drop)]
pub(crate) enum Kept {
    Nothing,
    Bytes(Chunk),
    Attrs(AttrList),
    Names(NameList),
}

// ---- what a brick shows

/// Whom a line asked, and what.
pub(crate) fn asked_by(line: &Line) -> Option<(BrickId, &Request)>
    ensures { option_map (λ x. (x.0, x.1.now)) result ≡ asked_by line.now }
{
    match line {
        Line::Ask { brick, request, .. } => Some((*brick, request)),
        _ => None,
    }
}

/// What a request shows of a brick.
pub(crate) fn shown_of(alloc: Global, brick: &Brick, request: &Request) -> Result<Kept, NoMemory>
    ensures ok { IfOk result (λ kept. contents_seen kept ≡ shown_of request.now brick.now.objects) }
    ensures order { IfOk result (λ kept. IsInOrder (contents_seen kept)) }
    ensures short { IfOk result (λ kept. IsShort (contents_seen kept)) }
{
    match request {
        Request::ReadBytes { gfid, at, len } => bytes_of(alloc, brick, *gfid, *at, *len),
        Request::ReadAttrs { gfid } => attrs_of(alloc, brick, *gfid),
        Request::List { gfid } => names_of(alloc, brick, *gfid),
        _ => Ok(Kept::Nothing),
    }
}

fn bytes_of(alloc: Global, brick: &Brick, g: Gfid, at: u32, len: u32) -> Result<Kept, NoMemory>
    ensures ok { IfOk result (λ kept. contents_seen kept ≡ shown_of (Request.ReadBytes g at len) brick.now.objects) }
    ensures order { IfOk result (λ kept. IsInOrder (contents_seen kept)) }
    ensures short { IfOk result (λ kept. IsShort (contents_seen kept)) }
{
    match brick.read_bytes(g, at, len) {
        Ok(bytes) => Ok(Kept::Bytes(bytes)),
        Err(Refused::NoObject) => Ok(Kept::Bytes(Chunk::new(alloc))),
        Err(Refused::NoMemory) => Err(NoMemory),
    }
}

fn attrs_of(alloc: Global, brick: &Brick, g: Gfid) -> Result<Kept, NoMemory>
    ensures ok { IfOk result (λ kept. contents_seen kept ≡ shown_of (Request.ReadAttrs g) brick.now.objects) }
    ensures order { IfOk result (λ kept. IsInOrder (contents_seen kept)) }
    ensures short { IfOk result (λ kept. IsShort (contents_seen kept)) }
{
    match brick.read_attrs(g) {
        Ok(attrs) => Ok(Kept::Attrs(attrs)),
        Err(Refused::NoObject) => Ok(Kept::Attrs(List::new(alloc))),
        Err(Refused::NoMemory) => Err(NoMemory),
    }
}

fn names_of(alloc: Global, brick: &Brick, g: Gfid) -> Result<Kept, NoMemory>
    ensures ok { IfOk result (λ kept. contents_seen kept ≡ shown_of (Request.List g) brick.now.objects) }
    ensures order { IfOk result (λ kept. IsInOrder (contents_seen kept)) }
    ensures short { IfOk result (λ kept. IsShort (contents_seen kept)) }
{
    match brick.list(g) {
        Ok(names) => Ok(Kept::Names(names)),
        Err(Refused::NoObject) => Ok(Kept::Names(List::new(alloc))),
        Err(Refused::NoMemory) => Err(NoMemory),
    }
}

// ---- what was shown at a position

fn item_at(shown: &[Kept], position: usize) -> Option<&Kept>
    ensures { option_copied result ≡ slice_get shown.now position }
{
    shown.get(position)
}

pub(crate) fn kept_at(shown: &[Kept], position: u32) -> Option<&Kept>
    ensures { or_nothing (option_map contents_seen (option_copied result)) ≡ kept_at position (map contents_seen shown.now) }
{
    item_at(shown, position as usize)
}

fn bytes_in(alloc: Global, kept: &Kept) -> Result<Chunk, NoMemory>
    ensures { IfOk result (λ bytes. bytes ≡ bytes_among (contents_seen kept.now)) }
{
    match kept {
        Kept::Bytes(bytes) => bytes.copy(),
        Kept::Nothing => Ok(Chunk::new(alloc)),
        Kept::Attrs(_) => Ok(Chunk::new(alloc)),
        Kept::Names(_) => Ok(Chunk::new(alloc)),
    }
}

fn bytes_at(alloc: Global, shown: &[Kept], position: u32) -> Result<Chunk, NoMemory>
    ensures { IfOk result (λ bytes. bytes ≡ bytes_among (kept_at position (map contents_seen shown.now))) }
{
    match kept_at(shown, position) {
        Some(kept) => bytes_in(alloc, kept),
        None => Ok(Chunk::new(alloc)),
    }
}

pub(crate) fn names_in(alloc: Global, kept: &Kept) -> Result<NameList, NoMemory>
    ensures { IfOk result (λ names. names ≡ names_among (contents_seen kept.now)) }
{
    match kept {
        Kept::Names(names) => names.copy(),
        Kept::Nothing => Ok(List::new(alloc)),
        Kept::Bytes(_) => Ok(List::new(alloc)),
        Kept::Attrs(_) => Ok(List::new(alloc)),
    }
}

fn attrs_in(alloc: Global, kept: &Kept) -> Result<AttrList, NoMemory>
    requires { IsInOrder (contents_seen kept.now) }
    ensures only { IfOk result (λ attrs. attrs ≡ attrs_among (contents_seen kept.now)) }
    ensures order { IfOk result (λ attrs. IsStrictlySortedBy key_cmp (keys_of attrs)) }
{
    match kept {
        Kept::Attrs(attrs) => attrs.copy(),
        Kept::Nothing => Ok(List::new(alloc)),
        Kept::Bytes(_) => Ok(List::new(alloc)),
        Kept::Names(_) => Ok(List::new(alloc)),
    }
}

fn attrs_at(alloc: Global, shown: &[Kept], position: u32) -> Result<AttrList, NoMemory>
    requires { AreKept (map contents_seen shown.now) }
    ensures only { IfOk result (λ attrs. attrs ≡ attrs_among (kept_at position (map contents_seen shown.now))) }
    ensures order { IfOk result (λ attrs. IsStrictlySortedBy key_cmp (keys_of attrs)) }
{
    match kept_at(shown, position) {
        Some(kept) => attrs_in(alloc, kept),
        None => Ok(List::new(alloc)),
    }
}

// ---- merged names

/// Puts the names of what was shown into others; of two entries of a name the one that outranks
/// the other stands.
fn merge(into: &mut SortedMap<NameId, Entry>, kept: &Kept) -> Result<(), NoMemory>
    ensures ok { OnOk result (into.new ≡ merged_into into.old (names_among (contents_seen kept.now))) }
{
    match kept {
        Kept::Names(names) => merge_names(into, names),
        Kept::Nothing => Ok(()),
        Kept::Bytes(_) => Ok(()),
        Kept::Attrs(_) => Ok(()),
    }
}

fn merge_names(into: &mut SortedMap<NameId, Entry>, names: &NameList) -> Result<(), NoMemory>
    ensures ok { OnOk result (into.new ≡ merged_into into.old names.now) }
{
    let len = names.len();
    for i in 0..len {
        let (name, entry) = *names.item(len - 1 - i);
        let stands = higher(entry, into.get(name));
        into.insert(name, stands)?;
    }
    Ok(())
}

/// An entry, or the one that stands in its place.
fn higher(entry: Entry, other: Option<Entry>) -> Entry
    ensures { result ≡ higher entry other }
{
    match other {
        Some(other) => { if outranks(entry, other) { entry } else { other } }
        None => entry,
    }
}

/// Of two entries the one that stands has the greater gfid; of one gfid that of a directory.
fn outranks(one: Entry, other: Entry) -> bool
    ensures { result ≡ outranks one other }
{
    other.gfid.0 < one.gfid.0 || (one.gfid.0 == other.gfid.0 && matches!(one.what, What::Dir))
}

fn merge_at(
    into: &mut SortedMap<NameId, Entry>,
    shown: &[Kept],
    position: u32,
) -> Result<(), NoMemory>
    ensures ok { OnOk result (into.new ≡ merged_into into.old (names_among (kept_at position (map contents_seen shown.now)))) }
{
    match kept_at(shown, position) {
        Some(kept) => merge(into, kept),
        None => Ok(()),
    }
}

fn merge_if(
    into: &mut SortedMap<NameId, Entry>,
    shown: &[Kept],
    read: Option<u32>,
) -> Result<(), NoMemory>
    ensures ok { OnOk result (into.new ≡ merged_into into.old (names_by (map contents_seen shown.now) read)) }
{
    match read {
        Some(position) => merge_at(into, shown, position),
        None => Ok(()),
    }
}

fn names_at(alloc: Global, shown: &[Kept], reads: &[Option<u32>]) -> Result<NameList, NoMemory>
    ensures ok { IfOk result (λ names. names ≡ merged (names_kept (map contents_seen shown.now) reads.now)) }
    ensures order { IfOk result (λ names. IsStrictlySortedBy name_cmp (keys_of names)) }
{
    let mut names = SortedMap::new(alloc);
    let len = reads.len();
    for i in 0..len {
        merge_if(&mut names, shown, reads[len - 1 - i])?;
    }
    names.list(alloc)
}

// ---- repairs

/// What a repair carries of what was shown.
fn carried_of(alloc: Global, shown: &[Kept], repair: &Repair) -> Result<Kept, NoMemory>
    requires { AreKept (map contents_seen shown.now) }
    ensures ok { IfOk result (λ kept. contents_seen kept ≡ carried_of (map contents_seen shown.now) repair.now) }
    ensures order { IfOk result (λ kept. IsInOrder (contents_seen kept)) }
{
    match repair {
        Repair::CutTo { .. } => Ok(Kept::Nothing),
        Repair::Copy { read, .. } => {
            let bytes = bytes_at(alloc, shown, *read)?;
            Ok(Kept::Bytes(bytes))
        }
        Repair::PutAttrs { read, .. } => {
            let attrs = attrs_at(alloc, shown, *read)?;
            Ok(Kept::Attrs(attrs))
        }
        Repair::PutNames { reads, .. } => {
            let names = names_at(alloc, shown, reads)?;
            Ok(Kept::Names(names))
        }
    }
}

fn repair_in(line: &Line) -> Option<Repair>
    ensures { result ≡ repair_in line.now }
{
    match line {
        Line::Ask {
            request: Request::Mend { repair },
            ..
        } => Some(*repair),
        _ => None,
    }
}

/// What the repair of a line carries.
pub(crate) fn carried_for(alloc: Global, shown: &[Kept], line: &Line) -> Result<Kept, NoMemory>
    requires { AreKept (map contents_seen shown.now) }
    ensures ok { IfOk result (λ kept. contents_seen kept ≡ carried_for (map contents_seen shown.now) (repair_in line.now)) }
    ensures order { IfOk result (λ kept. IsInOrder (contents_seen kept)) }
{
    match repair_in(line) {
        Some(repair) => carried_of(alloc, shown, &repair),
        None => Ok(Kept::Nothing),
    }
}

/// A repair with what it brings, where the brick's file can take it.
pub(crate) fn mend(brick: &mut Brick, repair: &Repair, kept: &Kept) -> Result<(), TallyStop>
    requires order { IsInOrder (contents_seen kept.now) }
    ensures ok { OnOk result (brick.new ≡ record brick.old { objects = mended brick.old.keeps repair.now (contents_seen kept.now) brick.old.objects }) }
    ensures too_long { result ≡ Err TallyStop.TooLong → CanRepair repair.now (contents_seen kept.now) brick.old.objects → ⊥ }
{
    if !can_mend(brick, repair, kept) {
        return Err(TallyStop::TooLong);
    }
    match brick.repair(repair, load(kept)) {
        Ok(()) => Ok(()),
        Err(Refused::NoObject) => Ok(()),
        Err(Refused::NoMemory) => Err(TallyStop::NoMemory),
    }
}

fn load(kept: &Kept) -> Load<'_>
    ensures { contents_of result ≡ contents_seen kept.now }
{
    match kept {
        Kept::Nothing => Load::Nothing,
        Kept::Bytes(bytes) => Load::Bytes(bytes.as_slice()),
        Kept::Attrs(attrs) => Load::Attrs(attrs),
        Kept::Names(names) => Load::Names(names),
    }
}

/// Whether the brick's file, where it has one, can take the piece.
fn can_mend(brick: &Brick, repair: &Repair, kept: &Kept) -> bool
    ensures yes { result ≡ true → CanRepair repair.now (contents_seen kept.now) brick.now.objects }
    ensures no { result ≡ false → CanRepair repair.now (contents_seen kept.now) brick.now.objects → ⊥ }
{
    match repair {
        Repair::CutTo { .. } => true,
        Repair::Copy { gfid, at, span, .. } => match kept {
            Kept::Nothing => true,
            Kept::Bytes(bytes) => {
                brick.look(*gfid).is_none()
                    || (*span <= LONGEST_FILE
                        && *at <= LONGEST_FILE - *span
                        && bytes.len() <= *span as usize)
            }
            Kept::Attrs(_) => true,
            Kept::Names(_) => true,
        },
        Repair::PutAttrs { .. } => true,
        Repair::PutNames { .. } => true,
    }
}
