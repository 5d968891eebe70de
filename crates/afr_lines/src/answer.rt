//! What a brick answers, and what of it the log keeps.
ghost use Rattle.std.specs.Prelude.{◌≡◌};
ghost use Rattle.afr_lines.specs.Told.{told_by};

use afr_base::{ActorId, ValueId};
use afr_object::{AttrList, Chunk, Entry, IndexList, NameList, View};

/// An answer, with its contents.
#[derive(Debug, Drop)]
pub enum Answer {
    Granted,
    /// Another actor holds a conflicting lock.
    Held(ActorId),
    Seen(View),
    Done,
    Bytes(Chunk),
    Entry(Option<Entry>),
    Names(NameList),
    Value(Option<ValueId>),
    Attrs(AttrList),
    Index(IndexList),
    NoObject,
    /// There is no live session, or the answer was lost.
    NotConnected,
    Failed,
}

/// An answer without the contents that were read.
#[derive(Clone, Copy, Debug)]
pub enum Told {
    Granted,
    Held(ActorId),
    Seen(View),
    Done,
    Given,
    NoObject,
    NotConnected,
    Failed,
}

/// What the log keeps of an answer: `Given` for all that was read, else the same.
pub fn told_of(answer: &Answer) -> Told
    ensures { result ≡ told_by answer.now }
{
    match answer {
        Answer::Granted => Told::Granted,
        Answer::Held(owner) => Told::Held(*owner),
        Answer::Seen(view) => Told::Seen(*view),
        Answer::Done => Told::Done,
        Answer::Bytes(_) => Told::Given,
        Answer::Entry(_) => Told::Given,
        Answer::Names(_) => Told::Given,
        Answer::Value(_) => Told::Given,
        Answer::Attrs(_) => Told::Given,
        Answer::Index(_) => Told::Given,
        Answer::NoObject => Told::NoObject,
        Answer::NotConnected => Told::NotConnected,
        Answer::Failed => Told::Failed,
    }
}
