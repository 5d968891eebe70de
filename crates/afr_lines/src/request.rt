//! What an actor asks a brick, and which numbers count a change.
ghost use Rattle.std.specs.Prelude.{◌≡◌};
ghost use Rattle.afr_lines.specs.Areas.{kind_for};

use crate::lock::Domain;
use afr_base::{BrickSet, Gfid, KeyId, Kind, Marks, NameId};
use afr_object::{Change, Repair};

/// What a lock covers. A range is `[from, to)` of a file's bytes, with `to` at most 2^63; the range
/// `[2^63, 2^63 + 1)` stands for the attributes. A name of None is the whole directory.
#[derive(Clone, Copy, Debug)]
pub enum Area {
    Range { gfid: Gfid, from: u64, to: u64 },
    Name { gfid: Gfid, name: Option<NameId> },
}

/// One request of one actor to one brick, carried out whole or not at all.
#[derive(Clone, Copy, Debug)]
pub enum Request {
    Lock {
        domain: Domain,
        area: Area,
    },
    Unlock {
        domain: Domain,
        area: Area,
    },
    Look {
        gfid: Gfid,
    },
    ReadBytes {
        gfid: Gfid,
        at: u32,
        len: u32,
    },
    ReadName {
        gfid: Gfid,
        name: NameId,
    },
    List {
        gfid: Gfid,
    },
    ReadAttr {
        gfid: Gfid,
        key: KeyId,
    },
    ReadAttrs {
        gfid: Gfid,
    },
    /// The objects of the brick that may need heal.
    Index,
    Pre {
        gfid: Gfid,
        kind: Kind,
    },
    /// Carries out the change of the attempt, which is the position of its Begin line.
    Apply {
        attempt: u32,
    },
    /// Closes the attempt here, and accuses the bricks that missed it.
    Post {
        attempt: u32,
        gfid: Gfid,
        kind: Kind,
        missed: BrickSet,
    },
    Mend {
        repair: Repair,
    },
    /// Takes back what a heal has settled.
    Settle {
        gfid: Gfid,
        kind: Kind,
        less: Marks,
    },
}

/// The numbers that count a change.
pub fn kind_for(change: &Change) -> Kind
    ensures { result ≡ kind_for change.now }
{
    match change {
        Change::Write { .. } => Kind::Bytes,
        Change::Cut { .. } => Kind::Bytes,
        Change::SetAttr { .. } => Kind::Attrs,
        Change::Make { .. } => Kind::Names,
        Change::Remove { .. } => Kind::Names,
    }
}
