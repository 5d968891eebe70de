//! What a command and a heal end with.
ghost use Rattle.std.specs.Prelude.{◌≡◌, IfOk};

use afr_base::{ActorId, BrickId, NoMemory, ValueId};
use afr_object::{Chunk, Entry, NameList, TryCopy, Views};

/// What a command that was carried out gives.
#[derive(Debug, Drop)]
pub enum Good {
    Done,
    Bytes(Chunk),
    Names(NameList),
    Value(Option<ValueId>),
    Stat { entry: Entry, len: u32 },
}

/// The end of a command. `Ok(Done)` of a change says that it is acknowledged.
#[derive(Debug, Drop)]
pub enum Reply {
    Ok(Good),
    NoEntry,
    Exists,
    NotDir,
    IsDir,
    NotEmpty,
    NoQuorum,
    FewCopies,
    SplitBrain(Views),
    Failed,
    TooLarge,
    /// A rename has made the new name, and the old one stands still or is another's.
    Half,
}

/// The end of a heal of one kind of one object.
#[derive(Debug, Drop)]
pub enum HealReply {
    Nothing,
    Settled,
    Split(Views),
    Busy(ActorId),
    Short,
    Moved(BrickId),
    Failed,
}

impl TryCopy for Good {
    fn copy(&self) -> Result<Good, NoMemory> {
        match self {
            Good::Done => Ok(Good::Done),
            Good::Bytes(bytes) => copy_bytes(bytes),
            Good::Names(names) => copy_names(names),
            Good::Value(value) => Ok(Good::Value(*value)),
            Good::Stat { entry, len } => Ok(Good::Stat {
                entry: *entry,
                len: *len,
            }),
        }
    }
}

impl TryCopy for Reply {
    fn copy(&self) -> Result<Reply, NoMemory> {
        match self {
            Reply::Ok(good) => copy_ok(good),
            Reply::NoEntry => Ok(Reply::NoEntry),
            Reply::Exists => Ok(Reply::Exists),
            Reply::NotDir => Ok(Reply::NotDir),
            Reply::IsDir => Ok(Reply::IsDir),
            Reply::NotEmpty => Ok(Reply::NotEmpty),
            Reply::NoQuorum => Ok(Reply::NoQuorum),
            Reply::FewCopies => Ok(Reply::FewCopies),
            Reply::SplitBrain(views) => copy_split(views),
            Reply::Failed => Ok(Reply::Failed),
            Reply::TooLarge => Ok(Reply::TooLarge),
            Reply::Half => Ok(Reply::Half),
        }
    }
}

fn copy_bytes(bytes: &Chunk) -> Result<Good, NoMemory>
    ensures ok { IfOk result (λ good. good ≡ Good.Bytes bytes.now) }
{
    let bytes = bytes.copy()?;
    Ok(Good::Bytes(bytes))
}

fn copy_names(names: &NameList) -> Result<Good, NoMemory>
    ensures ok { IfOk result (λ good. good ≡ Good.Names names.now) }
{
    let names = names.copy()?;
    Ok(Good::Names(names))
}

fn copy_split(views: &Views) -> Result<Reply, NoMemory>
    ensures ok { IfOk result (λ reply. reply ≡ Reply.SplitBrain views.now) }
{
    let views = views.copy()?;
    Ok(Reply::SplitBrain(views))
}

fn copy_ok(good: &Good) -> Result<Reply, NoMemory>
    ensures ok { IfOk result (λ reply. reply ≡ Reply.Ok good.now) }
{
    let good = good.copy()?;
    Ok(Reply::Ok(good))
}
