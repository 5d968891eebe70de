//! Cells, what a change does to them, and what stands there.
ghost use Rattle.std.specs.Prelude.{◌≡◌, ◌&&◌};
ghost use Rattle.afr_object.specs.Bytes.{byte_at, is_within};
ghost use Rattle.afr_model.specs.Cells.{IsAttr, IsByte, IsEntry, leaves, nothing_in, touches};
ghost use Rattle.afr_trace_safe.specs.Same.{same_attr, same_entry, same_value};
ghost use Rattle.afr_trace_safe.specs.Seen.{cell_of, value_seen};

use afr_base::{Gfid, KeyId, NameId, ValueId, What, same_what};
use afr_object::{Change, Chunk, Entry};

/// A byte of a file, an attribute of an object, or a name of a directory.
#[derive(Clone, Copy)]
pub(crate) enum Cell {
    Byte(Gfid, usize),
    Attr(Gfid, KeyId),
    Name(Gfid, NameId),
}

/// What stands in a cell.
#[derive(Clone, Copy)]
pub(crate) enum Value {
    Byte(u8),
    Attr(Option<ValueId>),
    Entry(Option<Entry>),
}

// ---- what a change touches

/// Whether a change touches a cell.
pub(crate) fn touches(change: &Change, cell: Cell) -> bool
    ensures { result ≡ touches change.now (cell_of cell) }
{
    match change {
        Change::Write { gfid, at, bytes } => write_touches(*gfid, *at, bytes, cell),
        Change::Cut { gfid, len } => cut_touches(*gfid, *len, cell),
        Change::SetAttr { gfid, key, .. } => attr_touches(*gfid, *key, cell),
        Change::Make { dir, name, .. } => name_touches(*dir, *name, cell),
        Change::Remove { dir, name, .. } => name_touches(*dir, *name, cell),
    }
}

fn write_touches(gfid: Gfid, at: u32, bytes: &Chunk, cell: Cell) -> bool
    ensures { result ≡ touches (Change.Write gfid at bytes.now) (cell_of cell) }
{
    match cell {
        Cell::Byte(file, i) => gfid == file && is_within(at as usize, bytes.len(), i),
        Cell::Attr(_, _) => false,
        Cell::Name(_, _) => false,
    }
}

/// Whether a place is one of so many places from `at` on.
fn is_within(at: usize, count: usize, place: usize) -> bool
    ensures { result ≡ is_within at count place }
{
    at <= place && place - at < count
}

fn cut_touches(gfid: Gfid, len: u32, cell: Cell) -> bool
    ensures { result ≡ touches (Change.Cut gfid len) (cell_of cell) }
{
    match cell {
        Cell::Byte(file, i) => gfid == file && len as usize <= i,
        Cell::Attr(_, _) => false,
        Cell::Name(_, _) => false,
    }
}

fn attr_touches(gfid: Gfid, key: KeyId, cell: Cell) -> bool
    ensures { (value : ValueId) → result ≡ touches (Change.SetAttr gfid key value) (cell_of cell) }
{
    match cell {
        Cell::Byte(_, _) => false,
        Cell::Attr(object, other) => gfid == object && key == other,
        Cell::Name(_, _) => false,
    }
}

fn name_touches(dir: Gfid, name: NameId, cell: Cell) -> bool
    ensures make { (g : Gfid) (what : What) → result ≡ touches (Change.Make dir name g what) (cell_of cell) }
    ensures remove { (what : What) → result ≡ touches (Change.Remove dir name what) (cell_of cell) }
{
    match cell {
        Cell::Byte(_, _) => false,
        Cell::Attr(_, _) => false,
        Cell::Name(other_dir, other) => dir == other_dir && name == other,
    }
}

// ---- what it leaves

/// What a change leaves in a cell that it touches.
pub(crate) fn leaves(change: &Change, cell: Cell) -> Value
    ensures { value_seen result ≡ leaves change.now (cell_of cell) }
{
    match change {
        Change::Write { at, bytes, .. } => write_leaves(*at, bytes, cell),
        Change::SetAttr { value, .. } => set_attr_leaves(*value, cell),
        Change::Make { gfid, what, .. } => make_leaves(*gfid, *what, cell),
        Change::Cut { .. } => nothing_in(cell),
        Change::Remove { .. } => nothing_in(cell),
    }
}

/// What a cell has where nothing stands.
fn nothing_in(cell: Cell) -> Value
    ensures { value_seen result ≡ nothing_in (cell_of cell) }
{
    match cell {
        Cell::Byte(_, _) => Value::Byte(0),
        Cell::Attr(_, _) => Value::Attr(None),
        Cell::Name(_, _) => Value::Entry(None),
    }
}

fn write_leaves(at: u32, bytes: &Chunk, cell: Cell) -> Value
    ensures { (g : Gfid) → value_seen result ≡ leaves (Change.Write g at bytes.now) (cell_of cell) }
{
    match cell {
        Cell::Byte(_, i) => Value::Byte(byte_at(bytes.as_slice(), i.saturating_sub(at as usize))),
        _ => nothing_in(cell),
    }
}

/// The byte at a place, or 0 past the end.
pub(crate) fn byte_at(bytes: &[u8], place: usize) -> u8
    ensures { result ≡ byte_at place bytes.now }
{
    match bytes.get(place) {
        Some(byte) => *byte,
        None => 0,
    }
}

fn set_attr_leaves(value: ValueId, cell: Cell) -> Value
    ensures { (g : Gfid) (key : KeyId) → value_seen result ≡ leaves (Change.SetAttr g key value) (cell_of cell) }
{
    match cell {
        Cell::Attr(_, _) => Value::Attr(Some(value)),
        _ => nothing_in(cell),
    }
}

fn make_leaves(gfid: Gfid, what: What, cell: Cell) -> Value
    ensures { (dir : Gfid) (name : NameId) → value_seen result ≡ leaves (Change.Make dir name gfid what) (cell_of cell) }
{
    match cell {
        Cell::Name(_, _) => Value::Entry(Some(Entry { gfid, what })),
        _ => nothing_in(cell),
    }
}

// ---- the same value

/// Whether two values are the same.
pub(crate) fn same_value(one: Value, other: Value) -> bool
    ensures { result ≡ same_value (value_seen one) (value_seen other) }
{
    match one {
        Value::Byte(byte) => is_byte(other, byte),
        Value::Attr(value) => is_attr(other, value),
        Value::Entry(entry) => is_entry(other, entry),
    }
}

fn is_byte(value: Value, byte: u8) -> bool
    ensures { result ≡ same_value (IsByte byte) (value_seen value) }
{
    match value {
        Value::Byte(other) => byte == other,
        Value::Attr(_) => false,
        Value::Entry(_) => false,
    }
}

fn is_attr(value: Value, attr: Option<ValueId>) -> bool
    ensures { result ≡ same_value (IsAttr attr) (value_seen value) }
{
    match value {
        Value::Byte(_) => false,
        Value::Attr(other) => same_attr(attr, other),
        Value::Entry(_) => false,
    }
}

fn is_entry(value: Value, entry: Option<Entry>) -> bool
    ensures { result ≡ same_value (IsEntry entry) (value_seen value) }
{
    match value {
        Value::Byte(_) => false,
        Value::Attr(_) => false,
        Value::Entry(other) => same_entry(entry, other),
    }
}

fn same_attr(one: Option<ValueId>, other: Option<ValueId>) -> bool
    ensures { result ≡ same_attr one other }
{
    match (one, other) {
        (None, None) => true,
        (Some(v), Some(w)) => v == w,
        _ => false,
    }
}

fn same_entry(one: Option<Entry>, other: Option<Entry>) -> bool
    ensures { result ≡ same_entry one other }
{
    match (one, other) {
        (None, None) => true,
        (Some(e), Some(f)) => e.gfid == f.gfid && same_what(e.what, f.what),
        _ => false,
    }
}
