//! Stories of one brick, in which each public call has its part.
ghost use Rattle.std.specs.Prelude.{◌≡◌, ◌∷◌, [], IfOk};
ghost use Rattle.std.specs.List.Sorted.{IsStrictlySortedBy};
ghost use Rattle.std.specs.Map.{keys_of};
ghost use Rattle.afr_object.specs.Tables.{key_cmp, name_cmp};

use afr_base::{BrickId, BrickSet, Gfid, KeyId, Kind, NameId, ValueId, What};
use afr_brick::{Brick, Refused};
use afr_object::{AttrList, Change, Chunk, Entry, Load, NameList, Repair};
use std::alloc::Global;
use std::test::Fail;

const ROOT: Gfid = Gfid(1);

const OPENED: Gfid = Gfid(18_446_744_073_709_551_617);

const FILE: Gfid = Gfid(77);

const NAME: NameId = NameId(3);

const KEY: KeyId = KeyId(5);

const VALUE: ValueId = ValueId(6);

/// A piece of four bytes from the second on.
const COPY: Repair = Repair::Copy {
    gfid: FILE,
    at: 1,
    span: 4,
    read: 0,
};

const CUT: Repair = Repair::CutTo { gfid: FILE, len: 2 };

fn make_file(brick: &mut Brick) -> bool {
    let make = Change::Make {
        dir: ROOT,
        name: NAME,
        gfid: FILE,
        what: What::File,
    };
    brick.apply(&make).is_ok()
}

fn set_value(brick: &mut Brick) -> bool {
    let set_attr = Change::SetAttr {
        gfid: FILE,
        key: KEY,
        value: VALUE,
    };
    brick.apply(&set_attr).is_ok()
}

fn remove_name(brick: &mut Brick) -> bool {
    let remove = Change::Remove {
        dir: ROOT,
        name: NAME,
        what: What::File,
    };
    brick.apply(&remove).is_ok()
}

fn one_byte(alloc: Global) -> Result<Chunk, Refused>
    ensures { IfOk result (λ bytes. bytes ≡ 7 ∷ []) }
{
    let mut bytes = Chunk::new(alloc);
    bytes.push(7u8)?;
    Ok(bytes)
}

/// Whether the file has these bytes.
fn has_bytes(brick: &Brick, file: Gfid, bytes: &[u8]) -> bool {
    match brick.read_bytes(file, 0, 9) {
        Ok(read) => read.as_slice() == bytes,
        Err(_) => false,
    }
}

fn has_name(brick: &Brick) -> bool {
    let entry = Entry {
        gfid: FILE,
        what: What::File,
    };
    brick.read_name(ROOT, NAME) == Ok(Some(entry))
}

fn has_value(brick: &Brick) -> bool {
    brick.read_attr(FILE, KEY) == Ok(Some(VALUE))
}

/// Whether the index lists this file, and nothing else.
fn lists_alone(brick: &Brick, file: Gfid) -> bool {
    match brick.index() {
        Ok(list) => list.len() == 1 && *list.item(0) == (file, What::File),
        Err(_) => false,
    }
}

fn lists_nothing(brick: &Brick) -> bool {
    match brick.index() {
        Ok(list) => list.len() == 0,
        Err(_) => false,
    }
}

/// The look shows an accused brick; what it shows is settled, and then nothing is left.
fn shows_and_settles(brick: &mut Brick) -> bool {
    let Some(view) = brick.look(OPENED) else {
        return false;
    };
    let marks = view.marks.bytes;
    view.what == What::File
        && view.len == 2
        && marks.dirty == 0
        && marks.accuses(BrickId(2))
        && lists_alone(brick, OPENED)
        && brick.settle(OPENED, Kind::Bytes, &marks).is_ok()
        && lists_nothing(brick)
        && is_clean(brick)
}

fn is_clean(brick: &Brick) -> bool {
    match brick.look(OPENED) {
        Some(view) => view.marks.is_zero(),
        None => false,
    }
}

/// A write that brick 2 misses, from its pre-op to the settling of its numbers.
fn is_counted_and_read(alloc: Global) -> Result<bool, Refused> {
    let bytes = one_byte(alloc)?;
    let Ok(mut brick) = Brick::empty(alloc, false) else {
        return Err(Refused::NoMemory);
    };
    let Ok(()) = brick.add_opening_file(NameId(0), OPENED) else {
        return Err(Refused::NoMemory);
    };
    let made = lists_nothing(&brick);
    let Ok(()) = brick.pre(OPENED, Kind::Bytes) else {
        return Ok(false);
    };
    let opened = lists_alone(&brick, OPENED);
    let write = Change::Write {
        gfid: OPENED,
        at: 1,
        bytes,
    };
    let Ok(()) = brick.apply(&write) else {
        return Err(Refused::NoMemory);
    };
    let missed = BrickSet::none().with(BrickId(2));
    let posted = brick.post(OPENED, Kind::Bytes, missed).is_ok();
    let listed = made && opened && posted;
    Ok(listed && has_bytes(&brick, OPENED, b"\0\x07") && shows_and_settles(&mut brick))
}

#[test]
fn a_write_is_counted_and_read(rt: HostRuntime) -> Result<(), Fail> {
    let holds = is_counted_and_read(rt.alloc()).ok().ok_or("memory")?;
    assert!(rt; holds);
    Ok(())
}

/// The brick lists one name and one attribute.
fn lists_one(brick: &Brick) -> Result<bool, Refused> {
    let names = brick.list(ROOT)?;
    let attrs = brick.read_attrs(FILE)?;
    Ok(names.len() == 1 && attrs.len() == 1)
}

fn lists_until_the_name_goes(brick: &mut Brick) -> Result<bool, Refused> {
    let made = make_file(brick) && set_value(brick);
    let shown = has_name(brick) && has_value(brick);
    let listed = lists_one(brick)?;
    let gone = remove_name(brick) && brick.read_name(ROOT, NAME) == Ok(None);
    Ok(made && shown && listed && gone)
}

#[test]
fn a_made_file_is_listed_until_its_name_goes(rt: HostRuntime) -> Result<(), Fail> {
    let mut brick = Brick::empty(rt.alloc(), true).ok().ok_or("memory")?;
    let holds = lists_until_the_name_goes(&mut brick).ok().ok_or("memory")?;
    assert!(rt; holds);
    let absent = brick.read_name(Gfid(9), NAME) == Err(Refused::NoObject);
    assert!(rt; absent);
    Ok(())
}

fn put_names(brick: &mut Brick, names: &NameList) -> bool
    requires { IsStrictlySortedBy name_cmp (keys_of names.now) }
{
    let put = Repair::PutNames {
        gfid: ROOT,
        reads: [Some(0), None, None, None, None],
    };
    brick.repair(&put, Load::Names(names)).is_ok()
}

fn put_attrs(brick: &mut Brick, attrs: &AttrList) -> Result<(), Refused>
    requires { IsStrictlySortedBy key_cmp (keys_of attrs.now) }
{
    let put = Repair::PutAttrs {
        gfid: FILE,
        read: 0,
    };
    brick.repair(&put, Load::Attrs(attrs))
}

/// A sink takes names and attributes of a source over.
fn is_repaired(source: &mut Brick, sink: &mut Brick) -> Result<bool, Refused> {
    let made = make_file(source) && set_value(source);
    let attrs = source.read_attrs(FILE)?;
    let absent = put_attrs(sink, &attrs) == Err(Refused::NoObject);
    let names = source.list(ROOT)?;
    let put = put_names(sink, &names) && put_attrs(sink, &attrs).is_ok();
    Ok(made && absent && put && has_name(sink) && has_value(sink))
}

#[test]
fn a_repaired_brick_has_the_names_and_attributes_of_another(rt: HostRuntime) -> Result<(), Fail> {
    let mut source = Brick::empty(rt.alloc(), false).ok().ok_or("memory")?;
    let mut sink = Brick::empty(rt.alloc(), false).ok().ok_or("memory")?;
    let holds = is_repaired(&mut source, &mut sink).ok().ok_or("memory")?;
    assert!(rt; holds);
    Ok(())
}

fn copies_and_cuts(sink: &mut Brick) -> bool {
    let absent = sink.repair(&CUT, Load::Nothing) == Err(Refused::NoObject);
    let copied = make_file(sink)
        && sink.repair(&COPY, Load::Bytes(b"ab")).is_ok()
        && sink.repair(&COPY, Load::Nothing).is_ok()
        && has_bytes(sink, FILE, b"\0ab");
    let cut = sink.repair(&COPY, Load::Bytes(b"c")).is_ok()
        && sink.repair(&CUT, Load::Nothing).is_ok()
        && has_bytes(sink, FILE, b"\0c");
    absent && copied && cut
}

#[test]
fn a_repaired_brick_has_the_bytes_of_another(rt: HostRuntime) -> Result<(), Fail> {
    let mut sink = Brick::empty(rt.alloc(), false).ok().ok_or("memory")?;
    let holds = copies_and_cuts(&mut sink);
    assert!(rt; holds);
    Ok(())
}
