//! Answers that hold nothing or a holder, written in their place. Most requests are given an answer of the same kind as
//! the one before them. Where the kind is another, the answer is replaced by a function that stands apart: only then is there a
//! frame that holds answers.
ghost use Rattle.std.specs.Prelude.{◌≡◌};

use afr_base::ActorId;
use afr_lines::Answer;

pub(crate) fn say_done(answer: &mut Answer)
    ensures { answer.new ≡ Answer.Done }
{
    match answer {
        Answer::Done => {}
        _ => put_done(answer),
    }
}

#[inline(never)]
fn put_done(answer: &mut Answer)
    ensures { answer.new ≡ Answer.Done }
{
    *answer = Answer::Done;
}

pub(crate) fn say_granted(answer: &mut Answer)
    ensures { answer.new ≡ Answer.Granted }
{
    match answer {
        Answer::Granted => {}
        _ => put_granted(answer),
    }
}

#[inline(never)]
fn put_granted(answer: &mut Answer)
    ensures { answer.new ≡ Answer.Granted }
{
    *answer = Answer::Granted;
}

pub(crate) fn say_held(answer: &mut Answer, holder: ActorId)
    ensures { answer.new ≡ Answer.Held holder }
{
    match answer {
        Answer::Held(owner) => *owner = holder,
        _ => put_held(answer, holder),
    }
}

#[inline(never)]
fn put_held(answer: &mut Answer, holder: ActorId)
    ensures { answer.new ≡ Answer.Held holder }
{
    *answer = Answer::Held(holder);
}

pub(crate) fn say_absent(answer: &mut Answer)
    ensures { answer.new ≡ Answer.NoObject }
{
    match answer {
        Answer::NoObject => {}
        _ => put_absent(answer),
    }
}

#[inline(never)]
fn put_absent(answer: &mut Answer)
    ensures { answer.new ≡ Answer.NoObject }
{
    *answer = Answer::NoObject;
}
