//! What a line may not exceed by itself.
ghost use Rattle.std.specs.Prelude.{◌≡◌};
ghost use Rattle.afr_plan.specs.Rules as rule;
ghost use Rattle.afr_plan_line.specs.Seen.{seen, seen_action, seen_who, seen_event};

use afr_plan::limits;
use afr_plan_line::{Spoken, SpokenAction, SpokenEvent, SpokenWho, data_len, is_path_beyond};

fn is_long(word: &[u8]) -> bool
    ensures { result ≡ rule.is_long word.now }
{
    word.len() > limits::WORD
}

fn is_work_beyond(action: &SpokenAction) -> bool
    ensures { result ≡ rule.is_work_beyond (seen_action action.now) }
{
    match action {
        SpokenAction::Write { at, data } => *at > limits::FILE
            || data_len(data) > limits::PIECE as usize,
        SpokenAction::Cut { len } => *len > limits::FILE,
        SpokenAction::Read { at, len } => *at > limits::FILE || *len > limits::PIECE,
        SpokenAction::SetAttr { key, value } => is_long(key) || is_long(value),
        SpokenAction::GetAttr { key } => is_long(key),
        SpokenAction::Rename { to } => is_path_beyond(to),
        SpokenAction::Create => false,
        SpokenAction::Mkdir => false,
        SpokenAction::Unlink => false,
        SpokenAction::Rmdir => false,
        SpokenAction::Ls => false,
        SpokenAction::Stat => false,
    }
}

fn is_brick_beyond(brick: u8) -> bool
    ensures { result ≡ rule.is_brick_beyond brick }
{
    brick >= limits::MOST_BRICKS
}

fn is_who_beyond(who: &SpokenWho) -> bool
    ensures { result ≡ rule.is_who_beyond (seen_who who.now) }
{
    match who {
        SpokenWho::OfClient(number) => *number > limits::CLIENTS,
        SpokenWho::OfHealer(number) => *number > limits::HEALERS,
    }
}

fn is_event_beyond(event: &SpokenEvent) -> bool
    ensures { result ≡ rule.is_event_beyond (seen_event event.now) }
{
    match event {
        SpokenEvent::Stop(brick) => is_brick_beyond(*brick),
        SpokenEvent::Start(brick) => is_brick_beyond(*brick),
        SpokenEvent::Cut(who, brick) => is_who_beyond(who) || is_brick_beyond(*brick),
        SpokenEvent::Join(who, brick) => is_who_beyond(who) || is_brick_beyond(*brick),
        SpokenEvent::Kill(who) => is_who_beyond(who),
    }
}

fn is_count_beyond(count: u32) -> bool
    ensures { result ≡ rule.is_count_beyond count }
{
    count < 1 || count > limits::TURNS
}

/// Whether something in a line is beyond its limit.
pub(crate) fn is_beyond(spoken: &Spoken) -> bool
    ensures { result ≡ rule.is_beyond (seen spoken.now) }
{
    match spoken {
        Spoken::Files(files) => *files > limits::FILES,
        Spoken::Turns(turns) => is_count_beyond(*turns),
        Spoken::Client(number) => *number > u32::from(limits::CLIENTS),
        Spoken::Command { path, action } => is_path_beyond(path) || is_work_beyond(action),
        Spoken::Healer(number) => *number > u32::from(limits::HEALERS),
        Spoken::Round(brick) => is_brick_beyond(*brick),
        Spoken::Faulty {
            brick,
            at,
            fault: _,
        } => is_brick_beyond(*brick) || is_count_beyond(*at),
        Spoken::At { at, event } => *at > limits::TURNS || is_event_beyond(event),
        Spoken::Go { who, count } => is_who_beyond(who) || is_count_beyond(*count),
        Spoken::Afr(_) => false,
        Spoken::Volume(_, _) => false,
        Spoken::End => false,
    }
}
