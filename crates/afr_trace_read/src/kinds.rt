//! A line of a log as its text says it, with nothing of what the text leaves out.

use afr_base::{ActorId, BrickId, Gfid, KeyId, Kind, Marks, NameId, ValueId, What};
use afr_lines::{Domain, Event};

/// What of an object a lock covers: the attributes, a range of its bytes that may have no end, or all its names.
#[derive(Clone, Copy)]
pub enum Span {
    Meta,
    Range { from: u64, to: Option<u64> },
    AllNames,
    OfName(NameId),
}

/// A request. A Post says of each brick whether it missed the operation, and has neither object nor
/// kind; a lock of the attributes has no end; the reads of merged names that are there stand first; a
/// Settle has no number for a brick that the volume lacks.
#[derive(Clone, Copy)]
pub enum SpelledRequest {
    Lock {
        domain: Domain,
        gfid: Gfid,
        span: Span,
    },
    Unlock {
        domain: Domain,
        gfid: Gfid,
        span: Span,
    },
    Look {
        gfid: Gfid,
    },
    ReadBytes {
        gfid: Gfid,
        at: u32,
        len: u32,
    },
    ReadName {
        dir: Gfid,
        name: NameId,
    },
    List {
        gfid: Gfid,
    },
    ReadAttr {
        gfid: Gfid,
        key: KeyId,
    },
    ReadAttrs {
        gfid: Gfid,
    },
    Index,
    Pre {
        gfid: Gfid,
        kind: Kind,
    },
    Apply {
        attempt: u32,
    },
    Post {
        attempt: u32,
        missed: [bool; 5],
    },
    CutTo {
        gfid: Gfid,
        len: u32,
    },
    Copy {
        gfid: Gfid,
        at: u32,
        span: u32,
        read: u32,
    },
    PutAttrs {
        gfid: Gfid,
        read: u32,
    },
    PutNames {
        gfid: Gfid,
        reads: [Option<u32>; 5],
    },
    Settle {
        gfid: Gfid,
        kind: Kind,
        less: Marks,
    },
}

/// An answer, with no view. `Lost` is an answer that was carried out and not heard.
#[derive(Clone, Copy)]
pub enum Answered {
    Granted,
    Held(ActorId),
    Seen,
    Done,
    Given,
    NoObject,
    Lost,
    Gone,
    Failed,
}

/// A change. A write has its length, and not its bytes.
#[derive(Clone, Copy)]
pub enum SpelledChange {
    Write {
        gfid: Gfid,
        at: u32,
        len: u64,
    },
    Cut {
        gfid: Gfid,
        len: u32,
    },
    SetAttr {
        gfid: Gfid,
        key: KeyId,
        value: ValueId,
    },
    Make {
        what: What,
        dir: Gfid,
        name: NameId,
        gfid: Gfid,
    },
    Remove {
        what: What,
        dir: Gfid,
        name: NameId,
    },
}

/// The end of a heal. A split has no views.
#[derive(Clone, Copy)]
pub enum Healed {
    Nothing,
    Settled,
    Split,
    Busy(ActorId),
    Short,
    Moved(BrickId),
    Failed,
}

/// The end of a command. What a command gave stands behind the word `ok`, and isn't in here.
#[derive(Clone, Copy)]
pub enum SpelledReply {
    Ok,
    NoEntry,
    Exists,
    NotDir,
    IsDir,
    NotEmpty,
    NoQuorum,
    FewCopies,
    SplitBrain,
    Failed,
    TooLarge,
    Half,
}

/// What an actor does.
#[derive(Clone, Copy)]
pub enum Doing {
    Ask {
        brick: BrickId,
        asked: SpelledRequest,
        answered: Answered,
    },
    HealBegin {
        kind: Kind,
        gfid: Gfid,
    },
    Begin {
        change: SpelledChange,
    },
    HealEnd {
        kind: Kind,
        gfid: Gfid,
        healed: Healed,
    },
    End {
        reply: SpelledReply,
    },
}

/// A line.
#[derive(Clone, Copy)]
pub enum TraceLine {
    Event { event: Event },
    Of { actor: ActorId, doing: Doing },
}
