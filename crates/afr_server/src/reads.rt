//! What a brick answers a request that changes nothing, written in its place.
ghost use Rattle.std.specs.Prelude.{◌≡◌, OnOk, None, [], true};
ghost use Rattle.afr_model.specs.Honest.{answer_by};

use crate::said::say_absent;
use afr_base::{Gfid, KeyId, NameId, NoMemory};
use afr_brick::{Brick, Refused};
use afr_lines::{Answer, Request};

pub(crate) fn look(brick: &Brick, gfid: Gfid, answer: &mut Answer)
    ensures { answer.new ≡ answer_by None (Request.Look gfid) brick.now.objects [] }
{
    if shows(brick, gfid, answer) {
        return;
    }
    look_anew(brick, gfid, answer);
}

/// Writes what the brick shows over what the last look showed, if there are both. No says nothing.
fn shows(brick: &Brick, gfid: Gfid, answer: &mut Answer) -> bool
    ensures { result ≡ true → answer.new ≡ answer_by None (Request.Look gfid) brick.now.objects [] }
{
    match answer {
        Answer::Seen(view) => brick.show(gfid, view),
        _ => false,
    }
}

/// A look after another kind of answer, or at what isn't there.
#[inline(never)]
fn look_anew(brick: &Brick, gfid: Gfid, answer: &mut Answer)
    ensures { answer.new ≡ answer_by None (Request.Look gfid) brick.now.objects [] }
{
    match brick.look(gfid) {
        Some(view) => *answer = Answer::Seen(view),
        None => say_absent(answer),
    }
}

pub(crate) fn read_bytes(
    brick: &Brick,
    gfid: Gfid,
    at: u32,
    len: u32,
    answer: &mut Answer,
) -> Result<(), NoMemory>
    ensures ok { OnOk result (answer.new ≡ answer_by None (Request.ReadBytes gfid at len) brick.now.objects []) }
{
    match brick.read_bytes(gfid, at, len) {
        Ok(bytes) => {
            *answer = Answer::Bytes(bytes);
            Ok(())
        }
        Err(refused) => absent(refused, answer),
    }
}

pub(crate) fn read_name(brick: &Brick, gfid: Gfid, name: NameId, answer: &mut Answer)
    ensures { answer.new ≡ answer_by None (Request.ReadName gfid name) brick.now.objects [] }
{
    match brick.read_name(gfid, name) {
        Ok(entry) => *answer = Answer::Entry(entry),
        Err(_) => say_absent(answer),
    }
}

pub(crate) fn list(brick: &Brick, gfid: Gfid, answer: &mut Answer) -> Result<(), NoMemory>
    ensures ok { OnOk result (answer.new ≡ answer_by None (Request.List gfid) brick.now.objects []) }
{
    match brick.list(gfid) {
        Ok(names) => {
            *answer = Answer::Names(names);
            Ok(())
        }
        Err(refused) => absent(refused, answer),
    }
}

pub(crate) fn read_attr(brick: &Brick, gfid: Gfid, key: KeyId, answer: &mut Answer)
    ensures { answer.new ≡ answer_by None (Request.ReadAttr gfid key) brick.now.objects [] }
{
    match brick.read_attr(gfid, key) {
        Ok(value) => *answer = Answer::Value(value),
        Err(_) => say_absent(answer),
    }
}

pub(crate) fn read_attrs(brick: &Brick, gfid: Gfid, answer: &mut Answer) -> Result<(), NoMemory>
    ensures ok { OnOk result (answer.new ≡ answer_by None (Request.ReadAttrs gfid) brick.now.objects []) }
{
    match brick.read_attrs(gfid) {
        Ok(attrs) => {
            *answer = Answer::Attrs(attrs);
            Ok(())
        }
        Err(refused) => absent(refused, answer),
    }
}

pub(crate) fn index(brick: &Brick, answer: &mut Answer) -> Result<(), NoMemory>
    ensures ok { OnOk result (answer.new ≡ answer_by None Request.Index brick.now.objects []) }
{
    let list = brick.index()?;
    *answer = Answer::Index(list);
    Ok(())
}

/// The answer for a copy that isn't there, or no memory.
pub(crate) fn absent(refused: Refused, answer: &mut Answer) -> Result<(), NoMemory>
    ensures ok { OnOk result ((answer.new ≡ Answer.NoObject) × (refused ≡ Refused.NoObject)) }
{
    match refused {
        Refused::NoObject => {
            say_absent(answer);
            Ok(())
        }
        Refused::NoMemory => Err(NoMemory),
    }
}
