//! Looks that show changelog numbers: of one kind alone, as those of a heal mostly do, or small ones of both kinds of an object.
ghost use Rattle.std.specs.Prelude.{◌≡◌, ℕ, List, Some, true};
ghost use Rattle.afr_base.specs.Marks.{marks_of, no_marks, with_marks};
ghost use Rattle.afr_lines.specs.Told.{told_by};
ghost use Rattle.afr_lines.specs.declared.answer.Told.TheVariants.{Seen};
ghost use Rattle.afr_lines.specs.declared.line.Line.TheVariants.{Ask};
ghost use Rattle.afr_lines.specs.declared.line.Line.{Line};
ghost use Rattle.afr_lines.specs.declared.request.Request.TheVariants.{Look};
ghost use Rattle.afr_log.specs.Entries.{IsThere, gfid_in, is_both, is_dir_or_both, is_marked, line_of};
ghost use Rattle.afr_log.specs.Log.{asked_line};

use crate::asked::Asker;
use crate::id::{Id, id_of};
use crate::packed::Packed;
use crate::small::small_of;
use afr_base::{ActorId, AllMarks, BrickId, Gfid, Kind, Marks, What};
use afr_lines::{Answer, Request, Told};
use afr_object::View;

/// The entry of a look that shows numbers, where they are of one kind, or small.
pub(crate) fn pack_shown(
    actor: ActorId,
    brick: BrickId,
    request: &Request,
    answer: &Answer,
    took: bool,
) -> Option<Packed>
    ensures line { (entry : Packed) → result ≡ Some entry → (kept : List Line) → line_of kept entry ≡ Ask actor brick request.now (told_by answer.now) took }
    ensures there { (entry : Packed) → result ≡ Some entry → (count : ℕ) → IsThere count entry }
{
    match (request, answer) {
        (Request::Look { gfid }, Answer::Seen(view)) if took => {
            pack_look(actor, brick, *gfid, view)
        }
        _ => None,
    }
}

fn pack_look(actor: ActorId, brick: BrickId, gfid: Gfid, view: &View) -> Option<Packed>
    ensures line { (entry : Packed) → result ≡ Some entry → (kept : List Line) → line_of kept entry ≡ Ask actor brick (Look gfid) (Seen view.now) true }
    ensures there { (entry : Packed) → result ≡ Some entry → (count : ℕ) → IsThere count entry }
{
    let id = id_of(gfid)?;
    match only_kind(&view.marks) {
        Some(kind) => pack_kind(actor, brick, id, view, kind),
        None => match view.what {
            What::File => pack_file(actor, brick, id, view),
            What::Dir => pack_dir(actor, brick, id, view),
        },
    }
}

/// Numbers of one kind.
fn pack_kind(actor: ActorId, brick: BrickId, id: Id, view: &View, kind: Kind) -> Option<Packed>
    requires { view.now.marks ≡ with_marks kind (marks_of kind view.now.marks) no_marks }
    ensures line { (entry : Packed) → result ≡ Some entry → (kept : List Line) → line_of kept entry ≡ Ask actor brick (Look (gfid_in id)) (Seen view.now) true }
    ensures there { (entry : Packed) → result ≡ Some entry → (count : ℕ) → IsThere count entry }
{
    let marks = view.marks.of(kind);
    let len = view.len;
    match (view.what, kind) {
        (What::File, Kind::Bytes) => Some(Packed::FileBytes {
            brick,
            actor,
            len,
            id,
            marks,
        }),
        (What::File, Kind::Attrs) => Some(Packed::FileAttrs {
            brick,
            actor,
            len,
            id,
            marks,
        }),
        (What::Dir, Kind::Names) => Some(Packed::DirNames {
            brick,
            actor,
            len,
            id,
            marks,
        }),
        (What::Dir, Kind::Attrs) => Some(Packed::DirAttrs {
            brick,
            actor,
            len,
            id,
            marks,
        }),
        _ => None,
    }
}

/// A file's numbers of both its kinds, where they are small. It stands apart, since most looks show numbers of one kind.
#[inline(never)]
fn pack_file(actor: ActorId, brick: BrickId, id: Id, view: &View) -> Option<Packed>
    requires { view.now.what ≡ What.File }
    ensures line { (entry : Packed) → result ≡ Some entry → (kept : List Line) → line_of kept entry ≡ Ask actor brick (Look (gfid_in id)) (Seen view.now) true }
    ensures there { (entry : Packed) → result ≡ Some entry → (count : ℕ) → IsThere count entry }
{
    if view.marks.names != Marks::zero() {
        return None;
    }
    let bytes = small_of(&view.marks.bytes)?;
    let attrs = small_of(&view.marks.attrs)?;
    Some(Packed::FileBoth {
        brick,
        actor,
        len: view.len,
        id,
        bytes,
        attrs,
    })
}

/// The same of a directory.
#[inline(never)]
fn pack_dir(actor: ActorId, brick: BrickId, id: Id, view: &View) -> Option<Packed>
    requires { view.now.what ≡ What.Dir }
    ensures line { (entry : Packed) → result ≡ Some entry → (kept : List Line) → line_of kept entry ≡ Ask actor brick (Look (gfid_in id)) (Seen view.now) true }
    ensures there { (entry : Packed) → result ≡ Some entry → (count : ℕ) → IsThere count entry }
{
    if view.marks.bytes != Marks::zero() {
        return None;
    }
    let names = small_of(&view.marks.names)?;
    let attrs = small_of(&view.marks.attrs)?;
    Some(Packed::DirBoth {
        brick,
        actor,
        len: view.len,
        id,
        names,
        attrs,
    })
}

/// A kind beside which no other has a number, if there is one.
fn only_kind(marks: &AllMarks) -> Option<Kind>
    ensures { (kind : Kind) → result ≡ Some kind → marks.now ≡ with_marks kind (marks_of kind marks.now) no_marks }
{
    let zero = Marks::zero();
    if marks.attrs == zero && marks.names == zero {
        Some(Kind::Bytes)
    } else if marks.bytes == zero && marks.names == zero {
        Some(Kind::Attrs)
    } else if marks.bytes == zero && marks.attrs == zero {
        Some(Kind::Names)
    } else {
        None
    }
}

/// The look of such an entry, its answer and who asked, each in its place.
pub(crate) fn put_marked(entry: &Packed, request: &mut Request, told: &mut Told) -> Asker
    requires { is_marked entry.now ≡ true }
    ensures { (kept : List Line) → line_of kept entry.now ≡ asked_line result request.new told.new }
{
    match *entry {
        Packed::FileBytes {
            brick,
            actor,
            len,
            id,
            marks,
        } => {
            *told = marked_view(What::File, len, Kind::Bytes, marks);
            look_of(actor, brick, id, request)
        }
        Packed::FileAttrs {
            brick,
            actor,
            len,
            id,
            marks,
        } => {
            *told = marked_view(What::File, len, Kind::Attrs, marks);
            look_of(actor, brick, id, request)
        }
        _ => put_dir(entry, request, told),
    }
}

/// The same of one that is no file's with numbers of one kind.
fn put_dir(entry: &Packed, request: &mut Request, told: &mut Told) -> Asker
    requires { is_dir_or_both entry.now ≡ true }
    ensures { (kept : List Line) → line_of kept entry.now ≡ asked_line result request.new told.new }
{
    match *entry {
        Packed::DirNames {
            brick,
            actor,
            len,
            id,
            marks,
        } => {
            *told = marked_view(What::Dir, len, Kind::Names, marks);
            look_of(actor, brick, id, request)
        }
        Packed::DirAttrs {
            brick,
            actor,
            len,
            id,
            marks,
        } => {
            *told = marked_view(What::Dir, len, Kind::Attrs, marks);
            look_of(actor, brick, id, request)
        }
        _ => put_both(entry, request, told),
    }
}

/// The same of one that shows numbers of two kinds.
fn put_both(entry: &Packed, request: &mut Request, told: &mut Told) -> Asker
    requires { is_both entry.now ≡ true }
    ensures { (kept : List Line) → line_of kept entry.now ≡ asked_line result request.new told.new }
{
    match *entry {
        Packed::FileBoth {
            brick,
            actor,
            len,
            id,
            bytes,
            attrs,
        } => {
            *told = both_view(What::File, len, bytes.marks(), attrs.marks(), Marks::zero());
            look_of(actor, brick, id, request)
        }
        Packed::DirBoth {
            brick,
            actor,
            len,
            id,
            names,
            attrs,
        } => {
            *told = both_view(What::Dir, len, Marks::zero(), attrs.marks(), names.marks());
            look_of(actor, brick, id, request)
        }
        _ => unreachable!(),
    }
}

/// Who looked, where the brick carried it out, and the look in its place.
fn look_of(actor: ActorId, brick: BrickId, id: Id, request: &mut Request) -> Asker
    ensures by { result ≡ record { actor = actor; brick = brick; took = true } }
    ensures look { request.new ≡ Look (gfid_in id) }
{
    *request = Request::Look { gfid: id.gfid() };
    took(actor, brick)
}

/// Who asked, where the brick carried it out.
fn took(actor: ActorId, brick: BrickId) -> Asker
    ensures { result ≡ record { actor = actor; brick = brick; took = true } }
{
    Asker {
        actor,
        brick,
        took: true,
    }
}

fn marked_view(what: What, len: u32, kind: Kind, marks: Marks) -> Told
    ensures { result ≡ Seen (record { what = what; len = len; marks = with_marks kind marks no_marks }) }
{
    let mut all = AllMarks::zero();
    all.put(kind, marks);
    Told::Seen(View {
        what,
        len,
        marks: all,
    })
}

fn both_view(what: What, len: u32, bytes: Marks, attrs: Marks, names: Marks) -> Told
    ensures { result ≡ Seen (record { what = what; len = len; marks = record { bytes = bytes; attrs = attrs; names = names } }) }
{
    Told::Seen(View {
        what,
        len,
        marks: AllMarks {
            bytes,
            attrs,
            names,
        },
    })
}
