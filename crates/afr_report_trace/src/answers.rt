//! The texts of answers and events.
ghost use Rattle.std.specs.Prelude.{◌≡◌, ◌++◌, OnOk, codes, decimal, string_bytes};
ghost use Rattle.afr_model.specs.ReportReplies.{actor_text};
ghost use Rattle.afr_report_trace.specs.Answers.{event_text, told_text};

use afr_base::{ActorId, BrickId, NoMemory};
use afr_lines::{Event, Told};
use afr_report_words::{push_actor, push_number, push_word};

/// Adds an answer; `took` says whether the brick carried the request out.
pub fn push_told(out: &mut String, told: &Told, took: bool) -> Result<(), NoMemory>
    ensures ok { OnOk result (string_bytes out.new ≡ string_bytes out.old ++ told_text told.now took) }
{
    match told {
        Told::Granted => push_word(out, "granted"),
        Told::Held(owner) => push_with_actor(out, "held ", *owner),
        Told::Seen(_) => push_word(out, "seen"),
        Told::Done => push_word(out, "done"),
        Told::Given => push_word(out, "ok"),
        Told::NoObject => push_word(out, "absent"),
        Told::NotConnected => push_word(out, if took { "lost" } else { "gone" }),
        Told::Failed => push_word(out, "failed"),
    }
}

/// Adds an event, as a plan has it.
pub fn push_event(out: &mut String, event: Event) -> Result<(), NoMemory>
    ensures ok { OnOk result (string_bytes out.new ≡ string_bytes out.old ++ event_text event) }
{
    match event {
        Event::Stop(brick) => push_with_brick(out, "stop ", brick),
        Event::Start(brick) => push_with_brick(out, "start ", brick),
        Event::Cut(actor, brick) => push_link(out, "cut ", actor, brick),
        Event::Join(actor, brick) => push_link(out, "join ", actor, brick),
        Event::Kill(actor) => push_with_actor(out, "kill ", actor),
    }
}

fn push_with_brick(out: &mut String, word: &str, brick: BrickId) -> Result<(), NoMemory>
    ensures ok { OnOk result (string_bytes out.new ≡ string_bytes out.old ++ (word.now ++ decimal brick.0)) }
{
    out.push_str(word)?;
    push_number(out, u64::from(brick.0))
}

fn push_with_actor(out: &mut String, word: &str, actor: ActorId) -> Result<(), NoMemory>
    ensures ok { OnOk result (string_bytes out.new ≡ string_bytes out.old ++ (word.now ++ actor_text actor)) }
{
    out.push_str(word)?;
    push_actor(out, actor)
}

fn push_link(out: &mut String, word: &str, actor: ActorId, brick: BrickId) -> Result<(), NoMemory>
    ensures ok { OnOk result (string_bytes out.new ≡ string_bytes out.old ++ (word.now ++ actor_text actor ++ codes " " ++ decimal brick.0)) }
{
    push_with_actor(out, word, actor)?;
    push_with_brick(out, " ", brick)
}
