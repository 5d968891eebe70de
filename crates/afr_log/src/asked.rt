//! A packed request, written where its reader wants it.
ghost use Rattle.std.specs.Prelude.{◌≡◌, ◌||◌, List, Some, false, true};
ghost use Rattle.afr_lines.specs.declared.line.Line.{Line};
ghost use Rattle.afr_log.specs.Entries.{ask_by, is_change, is_lock, is_marked, is_mend, is_read, is_settled, is_unasked, is_unlock, line_of};
ghost use Rattle.afr_log.specs.Log.{asked_line};
ghost use Rattle.afr_log.specs.declared.packed.Short.TheVariants.{Done};

use crate::marked::put_marked;
use crate::packed::{By, Packed, Short};
use afr_base::{ActorId, BrickId};
use afr_lines::{Area, Request, Told};
use afr_object::Repair;

/// Who asked which brick, and whether the brick carried it out.
#[derive(Clone, Copy, Debug)]
pub struct Asker {
    pub actor: ActorId,
    pub brick: BrickId,
    pub took: bool,
}

impl Asker {
    /// The same of a request that was done.
    fn done(self) -> By
        ensures { result ≡ record { actor = self.actor; brick = self.brick; took = self.took; told = Done } }
    {
        By {
            actor: self.actor,
            brick: self.brick,
            took: self.took,
            told: Short::Done,
        }
    }
}

impl By {
    pub fn asker(self) -> Asker
        ensures { result ≡ record { actor = self.actor; brick = self.brick; took = self.took } }
    {
        Asker {
            actor: self.actor,
            brick: self.brick,
            took: self.took,
        }
    }
}

/// The request of an entry and what was told, each in its place.
pub(crate) fn unpack(entry: &Packed, request: &mut Request, told: &mut Told) -> Option<Asker>
    ensures { (by : Asker) → result ≡ Some by → (kept : List Line) → line_of kept entry.now ≡ asked_line by request.new told.new }
{
    match entry {
        Packed::Kept(_) | Packed::HealBegun { .. } | Packed::HealEnded { .. } => None,
        Packed::FileBytes { .. }
        | Packed::FileAttrs { .. }
        | Packed::FileBoth { .. }
        | Packed::DirNames { .. }
        | Packed::DirAttrs { .. }
        | Packed::DirBoth { .. } => { Some(put_marked(entry, request, told)) }
        _ => Some(put_short(entry, request, told)),
    }
}

fn put_short(entry: &Packed, request: &mut Request, told: &mut Told) -> Asker
    requires { (is_unasked entry.now || is_marked entry.now) ≡ false }
    ensures { (kept : List Line) → line_of kept entry.now ≡ asked_line result request.new told.new }
{
    let by = put_request(entry, request);
    *told = by.told.told();
    by.asker()
}

/// The request of an entry that holds it with a short answer, in its place, and the rest that is known of its line.
pub(crate) fn put_request(entry: &Packed, request: &mut Request) -> By
    requires { (is_unasked entry.now || is_marked entry.now) ≡ false }
    ensures { (kept : List Line) → line_of kept entry.now ≡ ask_by result request.new }
{
    match entry {
        Packed::LockRange { .. } | Packed::LockName { .. } => put_lock(entry, request),
        Packed::UnlockRange { .. } | Packed::UnlockName { .. } => put_unlock(entry, request),
        Packed::Pre { .. } | Packed::Apply { .. } | Packed::Post { .. } => {
            put_change(entry, request)
        }
        Packed::CutTo { .. } | Packed::Copy { .. } | Packed::PutAttrs { .. } => {
            put_mend(entry, request)
        }
        Packed::Settled { .. } => put_settled(entry, request),
        _ => put_read(entry, request),
    }
}

fn put_lock(entry: &Packed, request: &mut Request) -> By
    requires { is_lock entry.now ≡ true }
    ensures { (kept : List Line) → line_of kept entry.now ≡ ask_by result request.new }
{
    match *entry {
        Packed::LockRange {
            domain,
            by,
            id,
            from,
            to,
        } => {
            let gfid = id.gfid();
            let area = Area::Range { gfid, from, to };
            *request = Request::Lock { domain, area };
            by
        }
        Packed::LockName {
            domain,
            by,
            id,
            name,
        } => {
            let gfid = id.gfid();
            let area = Area::Name { gfid, name };
            *request = Request::Lock { domain, area };
            by
        }
        _ => unreachable!(),
    }
}

fn put_unlock(entry: &Packed, request: &mut Request) -> By
    requires { is_unlock entry.now ≡ true }
    ensures { (kept : List Line) → line_of kept entry.now ≡ ask_by result request.new }
{
    match *entry {
        Packed::UnlockRange {
            domain,
            by,
            id,
            from,
            to,
        } => {
            let gfid = id.gfid();
            let area = Area::Range { gfid, from, to };
            *request = Request::Unlock { domain, area };
            by
        }
        Packed::UnlockName {
            domain,
            by,
            id,
            name,
        } => {
            let gfid = id.gfid();
            let area = Area::Name { gfid, name };
            *request = Request::Unlock { domain, area };
            by
        }
        _ => unreachable!(),
    }
}

fn put_change(entry: &Packed, request: &mut Request) -> By
    requires { is_change entry.now ≡ true }
    ensures { (kept : List Line) → line_of kept entry.now ≡ ask_by result request.new }
{
    match *entry {
        Packed::Pre { kind, by, id } => {
            let gfid = id.gfid();
            *request = Request::Pre { gfid, kind };
            by
        }
        Packed::Apply { by, attempt } => {
            *request = Request::Apply { attempt };
            by
        }
        Packed::Post {
            kind,
            missed,
            by,
            id,
            attempt,
        } => {
            let gfid = id.gfid();
            *request = Request::Post {
                attempt,
                gfid,
                kind,
                missed,
            };
            by
        }
        _ => unreachable!(),
    }
}

fn put_mend(entry: &Packed, request: &mut Request) -> By
    requires { is_mend entry.now ≡ true }
    ensures { (kept : List Line) → line_of kept entry.now ≡ ask_by result request.new }
{
    match *entry {
        Packed::CutTo { by, id, len } => {
            let gfid = id.gfid();
            let repair = Repair::CutTo { gfid, len };
            *request = Request::Mend { repair };
            by
        }
        Packed::Copy {
            by,
            id,
            at,
            span,
            read,
        } => {
            let gfid = id.gfid();
            let repair = Repair::Copy {
                gfid,
                at,
                span,
                read,
            };
            *request = Request::Mend { repair };
            by
        }
        Packed::PutAttrs { by, id, read } => {
            let gfid = id.gfid();
            let repair = Repair::PutAttrs { gfid, read };
            *request = Request::Mend { repair };
            by
        }
        _ => unreachable!(),
    }
}

fn put_settled(entry: &Packed, request: &mut Request) -> By
    requires { is_settled entry.now ≡ true }
    ensures { (kept : List Line) → line_of kept entry.now ≡ ask_by result request.new }
{
    match *entry {
        Packed::Settled { kind, by, id, less } => {
            let gfid = id.gfid();
            *request = Request::Settle { gfid, kind, less };
            by.done()
        }
        _ => unreachable!(),
    }
}

fn put_read(entry: &Packed, request: &mut Request) -> By
    requires { is_read entry.now ≡ true }
    ensures { (kept : List Line) → line_of kept entry.now ≡ ask_by result request.new }
{
    let (asked, by) = match *entry {
        Packed::Look { by, id } => (Request::Look { gfid: id.gfid() }, by),
        Packed::ReadBytes { by, id, at, len } => {
            let gfid = id.gfid();
            (Request::ReadBytes { gfid, at, len }, by)
        }
        Packed::ReadName { by, id, name } => {
            let gfid = id.gfid();
            (Request::ReadName { gfid, name }, by)
        }
        Packed::List { by, id } => (Request::List { gfid: id.gfid() }, by),
        Packed::ReadAttr { by, id, key } => {
            let gfid = id.gfid();
            (Request::ReadAttr { gfid, key }, by)
        }
        Packed::ReadAttrs { by, id } => (Request::ReadAttrs { gfid: id.gfid() }, by),
        Packed::Index { by } => (Request::Index, by),
        _ => unreachable!(),
    };
    *request = asked;
    by
}
