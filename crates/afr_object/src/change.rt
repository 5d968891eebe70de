//! What a client changes, what a heal repairs, and what each carries.
ghost use Rattle.std.specs.Prelude.{◌≡◌, IfOk};
ghost use Rattle.afr_object.specs.Tables.{object_of};

use crate::chunk::Chunk;
use crate::entry::{AttrList, NameList};
use crate::try_copy::TryCopy;
use afr_base::{Gfid, KeyId, NameId, NoMemory, ValueId, What};

/// The change of an attempt.
#[derive(Debug, Drop)]
pub enum Change {
    Write {
        gfid: Gfid,
        at: u32,
        bytes: Chunk,
    },
    /// Drops the bytes from `len` on. A cut never lengthens a file.
    Cut {
        gfid: Gfid,
        len: u32,
    },
    SetAttr {
        gfid: Gfid,
        key: KeyId,
        value: ValueId,
    },
    /// A new name for the object, which is made where a brick lacks it.
    Make {
        dir: Gfid,
        name: NameId,
        gfid: Gfid,
        what: What,
    },
    Remove {
        dir: Gfid,
        name: NameId,
        what: What,
    },
}

/// The repair of a heal. It names the log positions of the reads whose contents it carries, so the
/// log keeps no healed bytes.
#[derive(Clone, Copy, Debug)]
pub enum Repair {
    CutTo {
        gfid: Gfid,
        len: u32,
    },
    /// Writes what was read at `at`; the rest of the piece of `span` bytes becomes zero.
    Copy {
        gfid: Gfid,
        at: u32,
        span: u32,
        read: u32,
    },
    PutAttrs {
        gfid: Gfid,
        read: u32,
    },
    PutNames {
        gfid: Gfid,
        reads: [Option<u32>; 5],
    },
}

/// The contents that go with a request.
#[derive(Clone, Copy)]
pub enum Load<'a> {
    Nothing,
    Change(&'a Change),
    Bytes(&'a [u8]),
    Attrs(&'a AttrList),
    Names(&'a NameList),
}

impl TryCopy for Change {
    fn copy(&self) -> Result<Change, NoMemory> {
        match self {
            Change::Write { gfid, at, bytes } => copy_write(*gfid, *at, bytes),
            Change::Cut { gfid, len } => Ok(Change::Cut {
                gfid: *gfid,
                len: *len,
            }),
            Change::SetAttr { gfid, key, value } => Ok(Change::SetAttr {
                gfid: *gfid,
                key: *key,
                value: *value,
            }),
            Change::Make {
                dir,
                name,
                gfid,
                what,
            } => Ok(Change::Make {
                dir: *dir,
                name: *name,
                gfid: *gfid,
                what: *what,
            }),
            Change::Remove { dir, name, what } => Ok(Change::Remove {
                dir: *dir,
                name: *name,
                what: *what,
            }),
        }
    }
}

fn copy_write(gfid: Gfid, at: u32, bytes: &Chunk) -> Result<Change, NoMemory>
    ensures ok { IfOk result (λ change. change ≡ Change.Write gfid at bytes.now) }
{
    let bytes = bytes.copy()?;
    Ok(Change::Write { gfid, at, bytes })
}

/// The object that a change is of: for a new or a removed entry, its directory.
pub fn object_of(change: &Change) -> Gfid
    ensures { result ≡ object_of change.now }
{
    match change {
        Change::Write { gfid, .. } => *gfid,
        Change::Cut { gfid, .. } => *gfid,
        Change::SetAttr { gfid, .. } => *gfid,
        Change::Make { dir, .. } => *dir,
        Change::Remove { dir, .. } => *dir,
    }
}
