//! What the reads of a heal gave, which goes with its repairs.
ghost use Rattle.std.specs.Prelude.{◌≡◌, ◌<◌, OnOk, OnErr};
ghost use Rattle.afr_heal_machine.specs.Contents.{kept, load_in, none_in, readied};

use afr_base::{BrickId, Kind, NoMemory};
use afr_heal_merge::merged_names;
use afr_lines::Answer;
use afr_object::{AttrList, Chunk, Load, NameList};
use std::alloc::Global;
use std::mem;

/// The lists of names that were read, by brick, and their merge once it is made.
#[derive(Drop)]
pub struct NamesRead {
    pub lists: [Option<NameList>; 5],
    pub merged: Option<NameList>,
}

/// What was read: the bytes of the present piece, the source's attributes, or the names of each good copy.
#[derive(Drop)]
pub enum ReadSoFar {
    Nothing,
    Bytes(Chunk),
    Attrs(AttrList),
    Names(NamesRead),
}

/// Nothing was read yet.
pub(crate) fn nothing(kind: Kind) -> ReadSoFar
    ensures { result ≡ none_in kind }
{
    match kind {
        Kind::Names => ReadSoFar::Names(NamesRead {
            lists: [None, None, None, None, None],
            merged: None,
        }),
        _ => ReadSoFar::Nothing,
    }
}

/// What a read gave is taken out of the answer, and not copied. Any other answer stays where it is.
pub(crate) fn keep(contents: &mut ReadSoFar, b: BrickId, answer: &mut Answer)
    requires { b.0 < 5 }
    ensures { contents.new ≡ kept b.0 answer.old contents.old }
{
    match answer {
        Answer::Bytes(_) => take_out(contents, b, answer),
        Answer::Attrs(_) => take_out(contents, b, answer),
        Answer::Names(_) => take_out(contents, b, answer),
        _ => {}
    }
}

/// It stands apart, so that only reads pay for a frame that holds an answer.
#[inline(never)]
fn take_out(contents: &mut ReadSoFar, b: BrickId, answer: &mut Answer)
    requires { b.0 < 5 }
    ensures { contents.new ≡ kept b.0 answer.old contents.old }
{
    match mem::replace(answer, Answer::Done) {
        Answer::Bytes(bytes) => *contents = ReadSoFar::Bytes(bytes),
        Answer::Attrs(attrs) => *contents = ReadSoFar::Attrs(attrs),
        Answer::Names(names) => {
            if let ReadSoFar::Names(read) = contents {
                read.lists[b.0 as usize] = Some(names);
                read.merged = None;
            }
        }
        _ => {}
    }
}

/// Makes the merge of what was read so far, in O(k log k) for k names.
pub(crate) fn ready(contents: &mut ReadSoFar, alloc: Global) -> Result<(), NoMemory>
    ensures ok { OnOk result (contents.new ≡ readied contents.old) }
    ensures err { OnErr result (contents.new ≡ contents.old) }
{
    if let ReadSoFar::Names(read) = contents {
        if read.merged.is_none() {
            let merged = merged_names(alloc, &read.lists)?;
            read.merged = Some(merged);
        }
    }
    Ok(())
}

/// What goes with a repair.
pub(crate) fn load(contents: &ReadSoFar) -> Load<'_>
    ensures { load_in contents.now result }
{
    match contents {
        ReadSoFar::Nothing => Load::Nothing,
        ReadSoFar::Bytes(bytes) => Load::Bytes(bytes.as_slice()),
        ReadSoFar::Attrs(attrs) => Load::Attrs(attrs),
        ReadSoFar::Names(read) => match &read.merged {
            Some(names) => Load::Names(names),
            None => Load::Nothing,
        },
    }
}
