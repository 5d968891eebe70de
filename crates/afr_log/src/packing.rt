//! The entry of a request, written where it stands.
ghost use Rattle.std.specs.Prelude.{◌≡◌, ◌++◌, ◌∷◌, ◌<◌, ℕ, List, [], false, is_some, true, vec_capacity, vec_len};
ghost use Rattle.afr_lines.specs.declared.line.Line.{Line};
ghost use Rattle.afr_lines.specs.declared.request.Request.TheVariants.{Lock, Mend, Settle, Unlock};
ghost use Rattle.afr_log.specs.Entries.{AreThere, IsThere, ask_by, line_of, lines_in};

use crate::id::id_of;
use crate::packed::{By, Packed, Short};
use afr_base::{Gfid, Kind, Marks};
use afr_lines::{Area, Domain, Request};
use afr_object::Repair;

/// Adds an entry in its place.
fn put(packed: &mut Vec<Packed>, entry: Packed) -> Option<()>
    requires { vec_len packed.old < vec_capacity packed.old }
    ensures some { is_some result ≡ true }
    ensures lines { (kept : List Line) → lines_in kept packed.new.items ≡ lines_in kept packed.old.items ++ line_of kept entry ∷ [] }
    ensures there { (count : ℕ) → IsThere count entry → AreThere count packed.old.items → AreThere count packed.new.items }
{
    packed.push_reserved(entry);
    Some(())
}

/// Adds the entry of a request, if it has one: a repair of names holds too many numbers, and a settling has one where it was
/// done. Each is written where it stands.
pub(crate) fn pack(packed: &mut Vec<Packed>, request: &Request, by: By) -> Option<()>
    requires room { vec_len packed.old < vec_capacity packed.old }
    ensures lines { is_some result ≡ true → (kept : List Line) → lines_in kept packed.new.items ≡ lines_in kept packed.old.items ++ ask_by by request.now ∷ [] }
    ensures there { is_some result ≡ true → (count : ℕ) → AreThere count packed.old.items → AreThere count packed.new.items }
    ensures none { is_some result ≡ false → packed.new ≡ packed.old }
{
    match *request {
        Request::Lock { domain, area } => pack_lock(packed, domain, &area, by),
        Request::Unlock { domain, area } => pack_unlock(packed, domain, &area, by),
        Request::Pre { .. } | Request::Apply { .. } | Request::Post { .. } => {
            pack_change(packed, request, by)
        }
        Request::Mend { repair } => pack_repair(packed, &repair, by),
        Request::Settle { gfid, kind, less } => pack_settle(packed, gfid, kind, &less, by),
        _ => pack_read(packed, request, by),
    }
}

fn pack_read(packed: &mut Vec<Packed>, request: &Request, by: By) -> Option<()>
    requires room { vec_len packed.old < vec_capacity packed.old }
    ensures lines { is_some result ≡ true → (kept : List Line) → lines_in kept packed.new.items ≡ lines_in kept packed.old.items ++ ask_by by request.now ∷ [] }
    ensures there { is_some result ≡ true → (count : ℕ) → AreThere count packed.old.items → AreThere count packed.new.items }
    ensures none { is_some result ≡ false → packed.new ≡ packed.old }
{
    match *request {
        Request::Look { gfid } => put(
            packed,
            Packed::Look {
                by,
                id: id_of(gfid)?,
            },
        ),
        Request::ReadBytes { gfid, at, len } => put(
            packed,
            Packed::ReadBytes {
                by,
                id: id_of(gfid)?,
                at,
                len,
            },
        ),
        Request::List { gfid } => put(
            packed,
            Packed::List {
                by,
                id: id_of(gfid)?,
            },
        ),
        Request::Index => put(packed, Packed::Index { by }),
        _ => pack_value_read(packed, request, by),
    }
}

/// The read of a name, of an attribute or of all of them.
fn pack_value_read(packed: &mut Vec<Packed>, request: &Request, by: By) -> Option<()>
    requires room { vec_len packed.old < vec_capacity packed.old }
    ensures lines { is_some result ≡ true → (kept : List Line) → lines_in kept packed.new.items ≡ lines_in kept packed.old.items ++ ask_by by request.now ∷ [] }
    ensures there { is_some result ≡ true → (count : ℕ) → AreThere count packed.old.items → AreThere count packed.new.items }
    ensures none { is_some result ≡ false → packed.new ≡ packed.old }
{
    match *request {
        Request::ReadName { gfid, name } => put(
            packed,
            Packed::ReadName {
                by,
                id: id_of(gfid)?,
                name,
            },
        ),
        Request::ReadAttr { gfid, key } => put(
            packed,
            Packed::ReadAttr {
                by,
                id: id_of(gfid)?,
                key,
            },
        ),
        Request::ReadAttrs { gfid } => put(
            packed,
            Packed::ReadAttrs {
                by,
                id: id_of(gfid)?,
            },
        ),
        _ => None,
    }
}

fn pack_change(packed: &mut Vec<Packed>, request: &Request, by: By) -> Option<()>
    requires room { vec_len packed.old < vec_capacity packed.old }
    ensures lines { is_some result ≡ true → (kept : List Line) → lines_in kept packed.new.items ≡ lines_in kept packed.old.items ++ ask_by by request.now ∷ [] }
    ensures there { is_some result ≡ true → (count : ℕ) → AreThere count packed.old.items → AreThere count packed.new.items }
    ensures none { is_some result ≡ false → packed.new ≡ packed.old }
{
    match *request {
        Request::Pre { gfid, kind } => put(
            packed,
            Packed::Pre {
                kind,
                by,
                id: id_of(gfid)?,
            },
        ),
        Request::Apply { attempt } => put(packed, Packed::Apply { by, attempt }),
        Request::Post {
            attempt,
            gfid,
            kind,
            missed,
        } => put(
            packed,
            Packed::Post {
                kind,
                missed,
                by,
                id: id_of(gfid)?,
                attempt,
            },
        ),
        _ => None,
    }
}

fn pack_lock(packed: &mut Vec<Packed>, domain: Domain, area: &Area, by: By) -> Option<()>
    requires room { vec_len packed.old < vec_capacity packed.old }
    ensures lines { is_some result ≡ true → (kept : List Line) → lines_in kept packed.new.items ≡ lines_in kept packed.old.items ++ ask_by by (Lock domain area.now) ∷ [] }
    ensures there { is_some result ≡ true → (count : ℕ) → AreThere count packed.old.items → AreThere count packed.new.items }
    ensures none { is_some result ≡ false → packed.new ≡ packed.old }
{
    match *area {
        Area::Range { gfid, from, to } => put(
            packed,
            Packed::LockRange {
                domain,
                by,
                id: id_of(gfid)?,
                from,
                to,
            },
        ),
        Area::Name { gfid, name } => {
            let id = id_of(gfid)?;
            put(
                packed,
                Packed::LockName {
                    domain,
                    by,
                    id,
                    name,
                },
            )
        }
    }
}

fn pack_unlock(packed: &mut Vec<Packed>, domain: Domain, area: &Area, by: By) -> Option<()>
    requires room { vec_len packed.old < vec_capacity packed.old }
    ensures lines { is_some result ≡ true → (kept : List Line) → lines_in kept packed.new.items ≡ lines_in kept packed.old.items ++ ask_by by (Unlock domain area.now) ∷ [] }
    ensures there { is_some result ≡ true → (count : ℕ) → AreThere count packed.old.items → AreThere count packed.new.items }
    ensures none { is_some result ≡ false → packed.new ≡ packed.old }
{
    match *area {
        Area::Range { gfid, from, to } => put(
            packed,
            Packed::UnlockRange {
                domain,
                by,
                id: id_of(gfid)?,
                from,
                to,
            },
        ),
        Area::Name { gfid, name } => {
            let id = id_of(gfid)?;
            put(
                packed,
                Packed::UnlockName {
                    domain,
                    by,
                    id,
                    name,
                },
            )
        }
    }
}

fn pack_repair(packed: &mut Vec<Packed>, repair: &Repair, by: By) -> Option<()>
    requires room { vec_len packed.old < vec_capacity packed.old }
    ensures lines { is_some result ≡ true → (kept : List Line) → lines_in kept packed.new.items ≡ lines_in kept packed.old.items ++ ask_by by (Mend repair.now) ∷ [] }
    ensures there { is_some result ≡ true → (count : ℕ) → AreThere count packed.old.items → AreThere count packed.new.items }
    ensures none { is_some result ≡ false → packed.new ≡ packed.old }
{
    match *repair {
        Repair::CutTo { gfid, len } => put(
            packed,
            Packed::CutTo {
                by,
                id: id_of(gfid)?,
                len,
            },
        ),
        Repair::Copy {
            gfid,
            at,
            span,
            read,
        } => put(
            packed,
            Packed::Copy {
                by,
                id: id_of(gfid)?,
                at,
                span,
                read,
            },
        ),
        Repair::PutAttrs { gfid, read } => put(
            packed,
            Packed::PutAttrs {
                by,
                id: id_of(gfid)?,
                read,
            },
        ),
        Repair::PutNames { .. } => None,
    }
}

fn pack_settle(packed: &mut Vec<Packed>, gfid: Gfid, kind: Kind, less: &Marks, by: By) -> Option<()>
    requires room { vec_len packed.old < vec_capacity packed.old }
    ensures lines { is_some result ≡ true → (kept : List Line) → lines_in kept packed.new.items ≡ lines_in kept packed.old.items ++ ask_by by (Settle gfid kind less.now) ∷ [] }
    ensures there { is_some result ≡ true → (count : ℕ) → AreThere count packed.old.items → AreThere count packed.new.items }
    ensures none { is_some result ≡ false → packed.new ≡ packed.old }
{
    match by.told {
        Short::Done => put(
            packed,
            Packed::Settled {
                kind,
                by: by.asker(),
                id: id_of(gfid)?,
                less: *less,
            },
        ),
        _ => None,
    }
}
