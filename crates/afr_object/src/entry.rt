//! What a look and a listing answer.

use crate::list::List;
use afr_base::{AllMarks, Gfid, KeyId, NameId, ValueId, What};

/// What a name of a directory stands for.
#[derive(Clone, Copy, Debug, PartialEq, Eq)]
pub struct Entry {
    pub gfid: Gfid,
    pub what: What,
}

/// What a brick shows of its copy of an object. The length of a directory, and of a file on the
/// arbiter, is 0.
#[derive(Clone, Copy, Debug, PartialEq, Eq)]
pub struct View {
    pub what: What,
    pub len: u32,
    pub marks: AllMarks,
}

/// The names of a directory, in the order of their numbers.
pub type NameList = List<(NameId, Entry)>;

/// The attributes of an object, in the order of their keys' numbers.
pub type AttrList = List<(KeyId, ValueId)>;

/// Objects that may need heal, in the order of their gfids.
pub type IndexList = List<(Gfid, What)>;
