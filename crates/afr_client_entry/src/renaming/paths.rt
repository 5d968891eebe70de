//! The two paths of a rename, and what they have led to.
ghost use Rattle.std.specs.Prelude.{◌≡◌, ◌<◌, ◌≤◌, IfOk, length};
ghost use Rattle.afr_client_entry.specs.Renames.Paths.{IsPaths, making_of, paths_from, reads_new, reads_old, removal_of};

use afr_base::{Gfid, NameId, NoMemory, Shape, What};
use afr_client_walk::Walk;
use afr_lines::Request;
use afr_object::Change;
use std::alloc::Global;

/// The paths of a rename. The second walk begins where the first one has ended, and goes on with its register.
#[derive(Drop)]
pub struct Paths {
    /// To the file, along the whole first path.
    pub first: Walk,
    /// To the directory of the new name.
    pub second: Walk,
    /// Where the first walk stood before its last answer: once it has arrived, the directory of the old name.
    pub dir: Gfid,
    pub old_name: NameId,
    pub new_name: NameId,
}

/// Nobody was asked yet.
pub(crate) fn paths_from(
    alloc: Global,
    shape: Shape,
    from: &[NameId],
    to: &[NameId],
) -> Result<Paths, NoMemory>
    requires few { shape.n ≤ 5 }
    requires some { 0 < shape.n }
    requires old { 0 < length from.now }
    requires new { 0 < length to.now }
    ensures value { IfOk result (λ paths. paths ≡ paths_from shape from.now to.now) }
    ensures kept { IfOk result (λ paths. IsPaths paths) }
{
    let first = Walk::new(alloc, shape, from)?;
    let second = Walk::new(alloc, shape, &to[..to.len() - 1])?;
    Ok(Paths {
        first,
        second,
        dir: Gfid(1),
        old_name: from[from.len() - 1],
        new_name: to[to.len() - 1],
    })
}

/// The change of the first transaction, in this directory: the new name leads to the file.
pub(crate) fn making_of(paths: &Paths, dir: Gfid) -> Change
    ensures { result ≡ making_of paths.now dir }
{
    Change::Make {
        dir,
        name: paths.new_name,
        gfid: paths.first.object.gfid,
        what: What::File,
    }
}

/// The change of the second transaction.
pub(crate) fn removal_of(paths: &Paths) -> Change
    ensures { result ≡ removal_of paths.now }
{
    Change::Remove {
        dir: paths.dir,
        name: paths.old_name,
        what: What::File,
    }
}

pub(crate) fn reads_new(paths: &Paths) -> Request
    ensures { result ≡ reads_new paths.now }
{
    Request::ReadName {
        gfid: paths.second.object.gfid,
        name: paths.new_name,
    }
}

pub(crate) fn reads_old(paths: &Paths) -> Request
    ensures { result ≡ reads_old paths.now }
{
    Request::ReadName {
        gfid: paths.dir,
        name: paths.old_name,
    }
}
