//! What the reading of the name says against a command.
ghost use Rattle.std.specs.Prelude.{◌≡◌, None, Some};
ghost use Rattle.afr_client_entry.specs.Job.{child_by, reply_to, ruled_by, ruled_out};

use crate::job::EntryJob;
use afr_base::{Gfid, What};
use afr_lines::{Answer, Reply};
use afr_object::Entry;

/// Why the name isn't changed.
#[derive(Clone, Copy, Debug)]
pub enum Refusal {
    /// The read was refused.
    Failed,
    /// There is no such name to remove.
    NoEntry,
    /// The name is there already.
    Exists,
    /// A directory isn't unlinked.
    IsDir,
    /// A file isn't removed as a directory.
    NotDir,
}

/// What the answer for the name says against the command.
pub(crate) fn ruled_out(job: EntryJob, answer: &Answer) -> Option<Refusal>
    ensures { result ≡ ruled_out job answer.now }
{
    match answer {
        Answer::Entry(found) => ruled_by(job, *found),
        _ => Some(Refusal::Failed),
    }
}

fn ruled_by(job: EntryJob, found: Option<Entry>) -> Option<Refusal>
    ensures { result ≡ ruled_by job found }
{
    match found {
        Some(entry) => by_entry(job, entry),
        None => by_nothing(job),
    }
}

fn by_entry(job: EntryJob, entry: Entry) -> Option<Refusal>
    ensures { result ≡ ruled_by job (Some entry) }
{
    match job {
        EntryJob::Create { .. } => Some(Refusal::Exists),
        EntryJob::Mkdir { .. } => Some(Refusal::Exists),
        EntryJob::Unlink { .. } => match entry.what {
            What::Dir => Some(Refusal::IsDir),
            What::File => None,
        },
        EntryJob::Rmdir { .. } => match entry.what {
            What::Dir => None,
            What::File => Some(Refusal::NotDir),
        },
    }
}

fn by_nothing(job: EntryJob) -> Option<Refusal>
    ensures { result ≡ ruled_by job None }
{
    match job {
        EntryJob::Create { .. } => None,
        EntryJob::Mkdir { .. } => None,
        EntryJob::Unlink { .. } => Some(Refusal::NoEntry),
        EntryJob::Rmdir { .. } => Some(Refusal::NoEntry),
    }
}

/// The directory that a removal goes on to.
pub(crate) fn child_by(job: EntryJob, answer: &Answer) -> Option<Gfid>
    ensures { result ≡ child_by job answer.now }
{
    match answer {
        Answer::Entry(Some(entry)) => child_in(job, *entry),
        _ => None,
    }
}

fn child_in(job: EntryJob, entry: Entry) -> Option<Gfid>
    ensures { result ≡ child_by job (Answer.Entry (Some entry)) }
{
    match job {
        EntryJob::Rmdir { .. } => match entry.what {
            What::Dir => Some(entry.gfid),
            What::File => None,
        },
        EntryJob::Create { .. } => None,
        EntryJob::Mkdir { .. } => None,
        EntryJob::Unlink { .. } => None,
    }
}

/// The reply of a command that its refusal ends.
pub(crate) fn reply_to(why: Refusal) -> Reply
    ensures { result ≡ reply_to why }
{
    match why {
        Refusal::Failed => Reply::Failed,
        Refusal::NoEntry => Reply::NoEntry,
        Refusal::Exists => Reply::Exists,
        Refusal::IsDir => Reply::IsDir,
        Refusal::NotDir => Reply::NotDir,
    }
}
