//! What a brick has in a cell, and of an object.
ghost use Rattle.std.specs.Prelude.{Err, ◌≡◌, ◌<◌, ◌^◌, IfOk, length};
ghost use Rattle.afr_model.specs.Cells.{Attr as SpecAttr, Byte as SpecByte, Name as SpecName, object_of_cell, value_if};
ghost use Rattle.afr_model.specs.Tables.{attrs_in, content_in, names_in};
ghost use Rattle.afr_object.specs.Tables.{copy_at};
ghost use Rattle.afr_trace_safe.specs.Seen.{cell_of, value_seen};

use crate::cell::{Cell, Value, byte_at};
use afr_base::{Gfid, KeyId, NameId, NoMemory};
use afr_brick::{Brick, Refused};
use afr_object::{AttrList, Chunk, List, NameList};
use std::alloc::Global;

// ---- one cell

/// How many bytes a brick has of a file.
#[tactic(auto, using(crate::proofs::CopyLemmas::len_seen, crate::proofs::CopyLemmas::len_absent))]
fn len_of(brick: &Brick, g: Gfid) -> u32
    ensures { result ≡ length (content_in (copy_at g brick.now.objects)) }
{
    match brick.look(g) {
        Some(view) => view.len,
        None => 0,
    }
}

/// All bytes that a brick has of a file.
pub(crate) fn bytes_of(alloc: Global, brick: &Brick, g: Gfid) -> Result<Chunk, NoMemory>
    ensures { IfOk result (λ bytes. bytes ≡ content_in (copy_at g brick.now.objects)) }
{
    let len = len_of(brick, g);
    match brick.read_bytes(g, 0, len) {
        Ok(bytes) => Ok(bytes),
        Err(Refused::NoObject) => Ok(Chunk::new(alloc)),
        Err(Refused::NoMemory) => Err(NoMemory),
    }
}

/// What stands in a cell on a brick.
pub(crate) fn value_on(brick: &Brick, cell: Cell) -> Result<Value, NoMemory>
    ensures { IfOk result (λ value. value_seen value ≡ value_if (cell_of cell) (copy_at (object_of_cell (cell_of cell)) brick.now.objects)) }
{
    match cell {
        Cell::Byte(g, i) => byte_on(brick, g, i),
        Cell::Attr(g, key) => Ok(attr_on(brick, g, key)),
        Cell::Name(g, name) => Ok(entry_on(brick, g, name)),
    }
}

fn byte_on(brick: &Brick, g: Gfid, place: usize) -> Result<Value, NoMemory>
    ensures { IfOk result (λ value. value_seen value ≡ value_if (SpecByte g place) (copy_at g brick.now.objects)) }
{
    let len = len_of(brick, g);
    if len as usize <= place {
        return Ok(Value::Byte(0));
    }
    read_byte(brick, g, place as u32)
}

fn read_byte(brick: &Brick, g: Gfid, place: u32) -> Result<Value, NoMemory>
    ensures { IfOk result (λ value. value_seen value ≡ value_if (SpecByte g place) (copy_at g brick.now.objects)) }
{
    match brick.read_bytes(g, place, 1) {
        Ok(bytes) => Ok(Value::Byte(byte_at(bytes.as_slice(), 0))),
        Err(Refused::NoObject) => Ok(Value::Byte(0)),
        Err(Refused::NoMemory) => Err(NoMemory),
    }
}

#[tactic(auto, using(crate::proofs::CopyLemmas::attr_read))]
fn attr_on(brick: &Brick, g: Gfid, key: KeyId) -> Value
    ensures { value_seen result ≡ value_if (SpecAttr g key) (copy_at g brick.now.objects) }
{
    match brick.read_attr(g, key) {
        Ok(value) => Value::Attr(value),
        Err(_) => Value::Attr(None),
    }
}

#[tactic(auto, using(crate::proofs::CopyLemmas::entry_read))]
fn entry_on(brick: &Brick, g: Gfid, name: NameId) -> Value
    ensures { value_seen result ≡ value_if (SpecName g name) (copy_at g brick.now.objects) }
{
    match brick.read_name(g, name) {
        Ok(entry) => Value::Entry(entry),
        Err(_) => Value::Entry(None),
    }
}

// ---- all of an object

/// The attributes that a brick has of an object.
pub(crate) fn attrs_of(alloc: Global, brick: &Brick, g: Gfid) -> Result<AttrList, NoMemory>
    ensures { IfOk result (λ attrs. attrs ≡ attrs_in (copy_at g brick.now.objects)) }
{
    match brick.read_attrs(g) {
        Ok(attrs) => Ok(attrs),
        Err(Refused::NoObject) => Ok(List::new(alloc)),
        Err(Refused::NoMemory) => Err(NoMemory),
    }
}

/// The names that a brick has in a directory.
pub(crate) fn names_of(alloc: Global, brick: &Brick, g: Gfid) -> Result<NameList, NoMemory>
    ensures { IfOk result (λ names. names ≡ names_in (copy_at g brick.now.objects)) }
{
    match brick.list(g) {
        Ok(names) => Ok(names),
        Err(Refused::NoObject) => Ok(List::new(alloc)),
        Err(Refused::NoMemory) => Err(NoMemory),
    }
}
