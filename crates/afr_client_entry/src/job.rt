//! What is done with a name of a directory.
ghost use Rattle.std.specs.Prelude.{◌≡◌};
ghost use Rattle.afr_client_entry.specs.Job.{change_of, name_of};

use afr_base::{Gfid, NameId, What};
use afr_object::Change;

/// What a client does with the last name of a path; the names before it lead to the directory.
#[derive(Clone, Copy, Debug)]
pub enum EntryJob {
    Create { name: NameId },
    Mkdir { name: NameId },
    Unlink { name: NameId },
    Rmdir { name: NameId },
}

pub(crate) fn name_of(job: EntryJob) -> NameId
    ensures { result ≡ name_of job }
{
    match job {
        EntryJob::Create { name } => name,
        EntryJob::Mkdir { name } => name,
        EntryJob::Unlink { name } => name,
        EntryJob::Rmdir { name } => name,
    }
}

/// The change of a directory. The Begin line puts in the number of a new object.
pub(crate) fn change_of(dir: Gfid, job: EntryJob) -> Change
    ensures { result ≡ change_of dir job }
{
    match job {
        EntryJob::Create { name } => makes(dir, name, What::File),
        EntryJob::Mkdir { name } => makes(dir, name, What::Dir),
        EntryJob::Unlink { name } => Change::Remove {
            dir,
            name,
            what: What::File,
        },
        EntryJob::Rmdir { name } => Change::Remove {
            dir,
            name,
            what: What::Dir,
        },
    }
}

fn makes(dir: Gfid, name: NameId, what: What) -> Change
    ensures { result ≡ Change.Make dir name (record { 0 = 0 }) what }
{
    Change::Make {
        dir,
        name,
        gfid: Gfid(0),
        what,
    }
}
