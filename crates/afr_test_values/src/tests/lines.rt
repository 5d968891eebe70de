//! Answers in the log, and copies of replies.
use afr_base::{ActorId, AllMarks, NoMemory, What};
use afr_lines::{Answer, Good, KeptReply, Reply, Told, told_of};
use afr_object::{Chunk, TryCopy, View};
use std::alloc::Global;
use std::test::Fail;

#[test]
fn the_log_keeps_no_bytes_of_an_answer(rt: HostRuntime) {
    let given = told_of(&Answer::Bytes(Chunk::new(rt.alloc())));
    assert!(rt; matches!(given, Told::Given));
    let held = told_of(&Answer::Held(ActorId(2)));
    assert!(rt; matches!(held, Told::Held(ActorId(2))));
    let lost = told_of(&Answer::NotConnected);
    assert!(rt; matches!(lost, Told::NotConnected));
}

/// A reply of one byte.
fn one_byte(alloc: Global) -> Result<Reply, NoMemory> {
    let mut bytes = Chunk::new(alloc);
    bytes.push(7u8)?;
    Ok(Reply::Ok(Good::Bytes(bytes)))
}

fn has_one_byte(reply: &Reply) -> bool {
    match reply {
        Reply::Ok(Good::Bytes(bytes)) => bytes.as_slice() == b"\x07".as_slice(),
        _ => false,
    }
}

fn is_copied(alloc: Global) -> Result<bool, NoMemory> {
    let reply = one_byte(alloc)?;
    let copy = reply.copy()?;
    Ok(has_one_byte(&copy))
}

#[test]
fn a_reply_is_copied(rt: HostRuntime) -> Result<(), Fail> {
    let copied = is_copied(rt.alloc()).ok().ok_or("memory")?;
    assert!(rt; copied);
    let plain = matches!(Reply::NoQuorum.copy(), Ok(Reply::NoQuorum));
    assert!(rt; plain);
    Ok(())
}

fn seen() -> Option<View> {
    Some(View {
        what: What::File,
        len: 5,
        marks: AllMarks::zero(),
    })
}

/// The views that the End line of a kept split-brain has, copied once more.
fn split_views(alloc: Global) -> Result<Option<[Option<View>; 5]>, NoMemory> {
    let kept = KeptReply::split(&[seen(), None, None, None, None]);
    let reply = kept.to_reply(alloc)?.copy()?;
    match &reply {
        Reply::SplitBrain(views) => Ok(Some(*views.as_array())),
        _ => Ok(None),
    }
}

#[test]
fn a_kept_reply_is_that_of_the_end_line(rt: HostRuntime) -> Result<(), Fail> {
    let views = split_views(rt.alloc()).ok().ok_or("memory")?;
    assert!(rt; views == Some([seen(), None, None, None, None]));
    let kept = KeptReply::new(Reply::NoQuorum);
    assert!(rt; matches!(kept.to_reply(rt.alloc()), Ok(Reply::NoQuorum)));
    Ok(())
}
