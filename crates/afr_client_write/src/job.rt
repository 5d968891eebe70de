//! What is changed, and what rules it out.
ghost use Rattle.std.specs.Prelude.{◌≡◌, ◌<◌, false};
ghost use Rattle.afr_client_write.specs.Job.{IsJob, change_of, is_empty, is_of_bytes, is_too_large};

use afr_base::{Gfid, KeyId, LONGEST_FILE, ValueId};
use afr_object::{Change, Chunk};

/// What a client changes of an object. A write of no bytes ends once its path was walked.
#[derive(Debug, Drop)]
pub enum WriteJob {
    Write { at: u32, bytes: Chunk },
    Cut { len: u32 },
    SetAttr { key: KeyId, value: ValueId },
}

/// Whether a write ends past the largest size of a file.
pub(crate) fn is_too_large(job: &WriteJob) -> bool
    ensures value { result ≡ is_too_large job.now }
    ensures fits { result ≡ false → IsJob job.now }
{
    match job {
        WriteJob::Write { at, bytes } => ends_late(*at, bytes),
        WriteJob::Cut { len } => u64::from(*len) > u64::from(u32::MAX),
        WriteJob::SetAttr { .. } => false,
    }
}

fn ends_late(at: u32, bytes: &Chunk) -> bool
    ensures value { result ≡ is_too_large (WriteJob.Write at bytes.now) }
    ensures fits { result ≡ false → IsJob (WriteJob.Write at bytes.now) }
{
    u64::from(at).saturating_add(bytes.len() as u64) > u64::from(LONGEST_FILE)
}

/// Whether there is nothing to write.
pub(crate) fn is_empty(job: &WriteJob) -> bool
    ensures { result ≡ is_empty job.now }
{
    match job {
        WriteJob::Write { bytes, .. } => bytes.len() == 0,
        WriteJob::Cut { .. } => false,
        WriteJob::SetAttr { .. } => false,
    }
}

/// Whether a directory, which has no bytes, can't take the change.
pub(crate) fn is_of_bytes(job: &WriteJob) -> bool
    ensures { result ≡ is_of_bytes job.now }
{
    match job {
        WriteJob::Write { .. } => true,
        WriteJob::Cut { .. } => true,
        WriteJob::SetAttr { .. } => false,
    }
}

/// The change of an object; the bytes are moved into it.
pub(crate) fn change_of(gfid: Gfid, job: WriteJob) -> Change
    ensures { result ≡ change_of gfid job }
{
    match job {
        WriteJob::Write { at, bytes } => Change::Write { gfid, at, bytes },
        WriteJob::Cut { len } => Change::Cut { gfid, len },
        WriteJob::SetAttr { key, value } => Change::SetAttr { gfid, key, value },
    }
}
