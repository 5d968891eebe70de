//! A step: what an image keeps of a line.
ghost use Rattle.std.specs.Prelude.{◌≡◌, ◌<◌, ◌≤◌, ◌^◌};
ghost use Rattle.afr_image.specs.Steps.{asked_step, heal_number, is_asked_step, is_event_step, is_own_code, is_own_step, is_step, is_within, own_step, reply_number, step_of, told_code};
ghost use Rattle.afr_log.specs.Log.{told_line};

use afr_base::{ActorId, BrickId, MOST_BRICKS};
use afr_lines::{HealReply, Line, Reply, Told};
use afr_log::ToldLine;

/// The brick of a step that asks none.
const NO_BRICK: u8 = 255;

/// The number of the last healer.
const LAST_ACTOR: u8 = 19;

const BEGIN: u8 = 9;

const HEAL_BEGIN: u8 = 10;

const EVENT: u8 = 11;

/// The code of the first reply and of the last.
const END: u8 = 16;

const LAST_END: u8 = 27;

/// The code of the first reply to a heal and of the last.
const HEAL_END: u8 = 32;

const LAST_HEAL_END: u8 = 38;

/// The code of the last answer to a request.
const LAST_TOLD: u8 = 8;

/// Who made a line, at which brick, and with what outcome: no contents.
#[derive(Clone, Copy, Debug, PartialEq, Eq)]
pub struct Step {
    /// The actor's number; 0 for an event.
    pub who: u8,
    /// The brick that was asked; 255 where none was.
    pub brick: u8,
    pub code: u8,
}

/// The step of a line. It takes no memory.
pub fn step_of(line: &Line) -> Step
    requires { (step_of line.now).who < 2 ^ 8 }
    ensures { result ≡ step_of line.now }
{
    match line {
        Line::Ask {
            actor,
            brick,
            told,
            took,
            ..
        } => asked_step(*actor, *brick, told, *took),
        Line::Begin { actor, .. } => own_step(*actor, BEGIN),
        Line::HealBegin { actor, .. } => own_step(*actor, HEAL_BEGIN),
        Line::End { actor, reply } => own_step(*actor, END + reply_number(reply)),
        Line::HealEnd { actor, reply, .. } => own_step(*actor, HEAL_END + heal_number(reply)),
        Line::Event { .. } => Step {
            who: 0,
            brick: NO_BRICK,
            code: EVENT,
        },
    }
}

/// The step of a line that is told as no request.
pub(crate) fn told_step(told: ToldLine<'_>) -> Step
    requires { (step_of (told_line told)).who < 2 ^ 8 }
    ensures { result ≡ step_of (told_line told.entry) }
{
    match told {
        ToldLine::Kept(line) => step_of(line),
        ToldLine::HealBegun { actor, .. } => own_step(actor, HEAL_BEGIN),
        ToldLine::HealEnded { actor, end, .. } => {
            own_step(actor, HEAL_END + heal_number(&end.reply()))
        }
    }
}

/// The step of a request.
pub(crate) fn asked_step(actor: ActorId, brick: BrickId, told: &Told, took: bool) -> Step
    requires { actor.0 < 2 ^ 8 }
    ensures { result ≡ asked_step actor brick told.now took }
{
    Step {
        who: actor.0 as u8,
        brick: brick.0,
        code: told_code(told, took),
    }
}

/// The step of a line that asks no brick.
fn own_step(actor: ActorId, code: u8) -> Step
    requires { actor.0 < 2 ^ 8 }
    ensures { result ≡ own_step actor code }
{
    Step {
        who: actor.0 as u8,
        brick: NO_BRICK,
        code,
    }
}

fn told_code(told: &Told, took: bool) -> u8
    ensures { result ≡ told_code told.now took }
{
    match told {
        Told::Granted => 0,
        Told::Held(_) => 1,
        Told::Seen(_) => 2,
        Told::Done => 3,
        Told::Given => 4,
        Told::NoObject => 5,
        Told::NotConnected => { if took { 7 } else { 6 } }
        Told::Failed => 8,
    }
}

fn reply_number(reply: &Reply) -> u8
    ensures number { result ≡ reply_number reply.now }
    ensures few { result ≤ 11 }
{
    match reply {
        Reply::Ok(_) => 0,
        Reply::NoEntry => 1,
        Reply::Exists => 2,
        Reply::NotDir => 3,
        Reply::IsDir => 4,
        Reply::NotEmpty => 5,
        Reply::NoQuorum => 6,
        Reply::FewCopies => 7,
        Reply::SplitBrain(_) => 8,
        Reply::Failed => 9,
        Reply::TooLarge => 10,
        Reply::Half => 11,
    }
}

fn heal_number(reply: &HealReply) -> u8
    ensures number { result ≡ heal_number reply.now }
    ensures few { result ≤ 6 }
{
    match reply {
        HealReply::Nothing => 0,
        HealReply::Settled => 1,
        HealReply::Split(_) => 2,
        HealReply::Busy(_) => 3,
        HealReply::Short => 4,
        HealReply::Moved(_) => 5,
        HealReply::Failed => 6,
    }
}

/// Whether some line of a log can have the step.
pub(crate) fn is_step(step: Step) -> bool
    ensures { result ≡ is_step step }
{
    is_event_step(step) || is_asked_step(step) || is_own_step(step)
}

fn is_event_step(step: Step) -> bool
    ensures { result ≡ is_event_step step }
{
    step.who == 0 && step.brick == NO_BRICK && step.code == EVENT
}

fn is_asked_step(step: Step) -> bool
    ensures { result ≡ is_asked_step step }
{
    is_within(1, LAST_ACTOR, step.who) && step.brick < MOST_BRICKS && step.code <= LAST_TOLD
}

fn is_own_step(step: Step) -> bool
    ensures { result ≡ is_own_step step }
{
    is_within(1, LAST_ACTOR, step.who) && step.brick == NO_BRICK && is_own_code(step.code)
}

fn is_own_code(code: u8) -> bool
    ensures { result ≡ is_own_code code }
{
    code == BEGIN
        || code == HEAL_BEGIN
        || is_within(END, LAST_END, code)
        || is_within(HEAL_END, LAST_HEAL_END, code)
}

fn is_within(low: u8, high: u8, n: u8) -> bool
    ensures { result ≡ is_within low high n }
{
    low <= n && n <= high
}
