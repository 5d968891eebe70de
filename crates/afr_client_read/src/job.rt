//! What is read, of which objects, and by which numbers.
ghost use Rattle.std.specs.Prelude.{◌≡◌};
ghost use Rattle.afr_client_read.specs.Job.{kind_of, reply_to, request_of};

use afr_base::{Gfid, KeyId, Kind, What};
use afr_lines::{Answer, Good, Reply, Request};

/// What is read. A read of no bytes ends after the looks, and so does a stat: the looks show what it tells.
#[derive(Clone, Copy, Debug)]
pub enum LookupJob {
    Read { at: u32, len: u32 },
    GetAttr { key: KeyId },
    Ls,
    Stat,
}

/// What a copy is asked for.
#[derive(Clone, Copy, Debug)]
pub enum Wanted {
    Bytes { at: u32, len: u32 },
    Value { key: KeyId },
    Names,
}

/// The numbers that say which copies are good.
pub(crate) fn kind_of(job: LookupJob, what: What) -> Kind
    ensures { result ≡ kind_of job what }
{
    match job {
        LookupJob::Read { .. } => Kind::Bytes,
        LookupJob::GetAttr { .. } => Kind::Attrs,
        LookupJob::Ls => Kind::Names,
        LookupJob::Stat => kind_shown(what),
    }
}

fn kind_shown(what: What) -> Kind
    ensures { result ≡ kind_of LookupJob.Stat what }
{
    match what {
        What::File => Kind::Bytes,
        What::Dir => Kind::Names,
    }
}

/// What the copy is asked.
pub(crate) fn request_of(gfid: Gfid, content: Wanted) -> Request
    ensures { result ≡ request_of gfid content }
{
    match content {
        Wanted::Bytes { at, len } => Request::ReadBytes { gfid, at, len },
        Wanted::Value { key } => Request::ReadAttr { gfid, key },
        Wanted::Names => Request::List { gfid },
    }
}

/// The reply to what the copy gave; a read that was refused isn't tried again.
pub(crate) fn reply_to(answer: Answer) -> Reply
    ensures { result ≡ reply_to answer }
{
    match answer {
        Answer::Bytes(bytes) => Reply::Ok(Good::Bytes(bytes)),
        Answer::Names(names) => Reply::Ok(Good::Names(names)),
        Answer::Value(value) => Reply::Ok(Good::Value(value)),
        _ => Reply::Failed,
    }
}
