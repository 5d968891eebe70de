//! The entries of the log: nearly all requests with their answers, and the beginnings and ends of heals, in 40 bytes, and the
//! places of the lines that are kept as they are.
ghost use Rattle.std.specs.Prelude.{◌≡◌, IfSome};
ghost use Rattle.afr_lines.specs.Told.{told_by};
ghost use Rattle.afr_lines.specs.declared.answer.Told.TheVariants.{Seen};
ghost use Rattle.afr_base.specs.Marks.{no_marks};
ghost use Rattle.afr_log.specs.Entries.{ask_by, told_in};

use crate::asked::Asker;
use crate::heals::ShortEnd;
use crate::id::Id;
use crate::small::SmallMarks;
use afr_base::{ActorId, AllMarks, BrickId, BrickSet, KeyId, Kind, Marks, NameId, What};
use afr_lines::{Answer, Domain, Line, Request, Told};
use afr_object::View;
use std::mem::size_of;

/// What the log keeps of an answer, in 8 bytes. A look is clean where all its changelog numbers are 0.
#[derive(Clone, Copy, Debug)]
pub(crate) enum Short {
    Granted,
    Held(ActorId),
    CleanFile(u32),
    CleanDir(u32),
    Done,
    Given,
    NoObject,
    NotConnected,
    Failed,
}

/// Who asked which brick, what it was told, and whether the brick carried the request out.
#[derive(Clone, Copy, Debug)]
pub(crate) struct By {
    pub actor: ActorId,
    pub brick: BrickId,
    pub took: bool,
    pub told: Short,
}

/// One entry of the log, small fields first: they lie beside the tag.
#[derive(Clone, Copy, Debug)]
pub(crate) enum Packed {
    LockRange {
        domain: Domain,
        by: By,
        id: Id,
        from: u64,
        to: u64,
    },
    LockName {
        domain: Domain,
        by: By,
        id: Id,
        name: Option<NameId>,
    },
    UnlockRange {
        domain: Domain,
        by: By,
        id: Id,
        from: u64,
        to: u64,
    },
    UnlockName {
        domain: Domain,
        by: By,
        id: Id,
        name: Option<NameId>,
    },
    Look {
        by: By,
        id: Id,
    },
    /// A look at a file that shows changelog numbers of its bytes alone. The brick carried it out.
    FileBytes {
        brick: BrickId,
        actor: ActorId,
        len: u32,
        id: Id,
        marks: Marks,
    },
    FileAttrs {
        brick: BrickId,
        actor: ActorId,
        len: u32,
        id: Id,
        marks: Marks,
    },
    /// Numbers of both, all small.
    FileBoth {
        brick: BrickId,
        actor: ActorId,
        len: u32,
        id: Id,
        bytes: SmallMarks,
        attrs: SmallMarks,
    },
    DirNames {
        brick: BrickId,
        actor: ActorId,
        len: u32,
        id: Id,
        marks: Marks,
    },
    DirAttrs {
        brick: BrickId,
        actor: ActorId,
        len: u32,
        id: Id,
        marks: Marks,
    },
    DirBoth {
        brick: BrickId,
        actor: ActorId,
        len: u32,
        id: Id,
        names: SmallMarks,
        attrs: SmallMarks,
    },
    ReadBytes {
        by: By,
        id: Id,
        at: u32,
        len: u32,
    },
    ReadName {
        by: By,
        id: Id,
        name: NameId,
    },
    List {
        by: By,
        id: Id,
    },
    ReadAttr {
        by: By,
        id: Id,
        key: KeyId,
    },
    ReadAttrs {
        by: By,
        id: Id,
    },
    Index {
        by: By,
    },
    Pre {
        kind: Kind,
        by: By,
        id: Id,
    },
    Apply {
        by: By,
        attempt: u32,
    },
    Post {
        kind: Kind,
        missed: BrickSet,
        by: By,
        id: Id,
        attempt: u32,
    },
    CutTo {
        by: By,
        id: Id,
        len: u32,
    },
    Copy {
        by: By,
        id: Id,
        at: u32,
        span: u32,
        read: u32,
    },
    PutAttrs {
        by: By,
        id: Id,
        read: u32,
    },
    /// A settling that was done.
    Settled {
        kind: Kind,
        by: Asker,
        id: Id,
        less: Marks,
    },
    /// A part of a heal begins.
    HealBegun {
        kind: Kind,
        actor: ActorId,
        id: Id,
    },
    /// A heal has ended otherwise than in a split.
    HealEnded {
        kind: Kind,
        actor: ActorId,
        end: ShortEnd,
        id: Id,
    },
    /// The line at this place of those that are kept.
    Kept(usize),
}

// An entry takes no more than 40 bytes.
const _: () = prove!(size_of::<Packed>() <= 40);

/// What is kept of an answer, where it is short.
pub(crate) fn short_of(answer: &Answer) -> Option<Short>
    ensures { IfSome result (λ short. told_in short ≡ told_by answer.now) }
{
    match answer {
        Answer::Granted => Some(Short::Granted),
        Answer::Held(owner) => Some(Short::Held(*owner)),
        Answer::Seen(view) => clean(view),
        Answer::Done => Some(Short::Done),
        Answer::Bytes(_) => Some(Short::Given),
        Answer::Entry(_) => Some(Short::Given),
        Answer::Names(_) => Some(Short::Given),
        Answer::Value(_) => Some(Short::Given),
        Answer::Attrs(_) => Some(Short::Given),
        Answer::Index(_) => Some(Short::Given),
        Answer::NoObject => Some(Short::NoObject),
        Answer::NotConnected => Some(Short::NotConnected),
        Answer::Failed => Some(Short::Failed),
    }
}

/// A look whose changelog numbers are all 0.
fn clean(view: &View) -> Option<Short>
    ensures { IfSome result (λ short. told_in short ≡ Seen view.now) }
{
    if !view.marks.is_zero() {
        return None;
    }
    match view.what {
        What::File => Some(Short::CleanFile(view.len)),
        What::Dir => Some(Short::CleanDir(view.len)),
    }
}

impl Short {
    /// The answer that this stands for.
    pub fn told(self) -> Told
        ensures { result ≡ told_in self }
    {
        match self {
            Short::Granted => Told::Granted,
            Short::Held(owner) => Told::Held(owner),
            Short::CleanFile(len) => clean_look(What::File, len),
            Short::CleanDir(len) => clean_look(What::Dir, len),
            Short::Done => Told::Done,
            Short::Given => Told::Given,
            Short::NoObject => Told::NoObject,
            Short::NotConnected => Told::NotConnected,
            Short::Failed => Told::Failed,
        }
    }
}

fn clean_look(what: What, len: u32) -> Told
    ensures { result ≡ Seen (record { what = what; len = len; marks = no_marks }) }
{
    Told::Seen(View {
        what,
        len,
        marks: AllMarks::zero(),
    })
}

impl By {
    /// The line of a request.
    pub fn ask(self, request: Request) -> Line
        ensures { result ≡ ask_by self request }
    {
        Line::Ask {
            actor: self.actor,
            brick: self.brick,
            request,
            told: self.told.told(),
            took: self.took,
        }
    }
}
