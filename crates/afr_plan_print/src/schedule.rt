//! The lines of the rounds, the faults, the events and the orders.
ghost use Rattle.std.specs.Prelude.{◌≡◌, ◌++◌, OnOk, string_bytes, codes, decimal, map};
ghost use Rattle.afr_plan_print.specs.PrintedLine.{event_text, fault_text, line_text, lines_text, who_text};
ghost use Rattle.afr_plan_print.specs.PrintedParts.{healer_text, healers_text};
ghost use Rattle.afr_plan_print.specs.PrintedPlan.{happening_of, said_event, said_fault, said_order, said_round, said_who};

use afr_base::{ActorId, BrickId, NoMemory};
use afr_lines::{Event, Fault};
use afr_plan::{Go, PlannedEvent, PlannedFault, RoundList, limits};

/// Adds the healers and their rounds. Healer 1 has the first list.
pub(crate) fn push_healers(out: &mut String, healers: &[RoundList]) -> Result<(), NoMemory>
    ensures ok { OnOk result (string_bytes out.new ≡ string_bytes out.old ++ healers_text 1 healers.now) }
{
    let mut healer: usize = 1;
    for rounds in healers {
        push_healer(out, healer, rounds.as_slice())?;
        healer += 1;
    }
    Ok(())
}

fn push_healer(out: &mut String, healer: usize, rounds: &[BrickId]) -> Result<(), NoMemory>
    ensures ok { OnOk result (string_bytes out.new ≡ string_bytes out.old ++ healer_text healer rounds.now) }
{
    write!(out, "healer {healer}\n")?;
    push_rounds(out, rounds)
}

fn push_rounds(out: &mut String, rounds: &[BrickId]) -> Result<(), NoMemory>
    ensures ok { OnOk result (string_bytes out.new ≡ string_bytes out.old ++ lines_text (map said_round rounds.now)) }
{
    for brick in rounds {
        push_round(out, *brick)?;
    }
    Ok(())
}

fn push_round(out: &mut String, brick: BrickId) -> Result<(), NoMemory>
    ensures ok { OnOk result (string_bytes out.new ≡ string_bytes out.old ++ (line_text (said_round brick) ++ codes "\n")) }
{
    let brick = brick.0;
    write!(out, "round {brick}\n")?;
    Ok(())
}

pub(crate) fn push_faults(out: &mut String, faults: &[PlannedFault]) -> Result<(), NoMemory>
    ensures ok { OnOk result (string_bytes out.new ≡ string_bytes out.old ++ lines_text (map said_fault faults.now)) }
{
    for fault in faults {
        push_fault(out, *fault)?;
    }
    Ok(())
}

fn push_fault(out: &mut String, planned: PlannedFault) -> Result<(), NoMemory>
    ensures ok { OnOk result (string_bytes out.new ≡ string_bytes out.old ++ (line_text (said_fault planned) ++ codes "\n")) }
{
    let PlannedFault { brick, at, fault } = planned;
    let brick = brick.0;
    let fault = fault_word(fault);
    write!(out, "fault {brick} {at} {fault}\n")?;
    Ok(())
}

fn fault_word(fault: Fault) -> &'static str
    ensures { result.now ≡ fault_text fault }
{
    match fault {
        Fault::Fail => "fail",
        Fault::Lost => "lost",
    }
}

pub(crate) fn push_events(out: &mut String, events: &[PlannedEvent]) -> Result<(), NoMemory>
    ensures ok { OnOk result (string_bytes out.new ≡ string_bytes out.old ++ lines_text (map said_event events.now)) }
{
    for event in events {
        push_event(out, *event)?;
    }
    Ok(())
}

fn push_event(out: &mut String, planned: PlannedEvent) -> Result<(), NoMemory>
    ensures ok { OnOk result (string_bytes out.new ≡ string_bytes out.old ++ (line_text (said_event planned) ++ codes "\n")) }
{
    let PlannedEvent { at, event } = planned;
    write!(out, "at {at} ")?;
    push_happening(out, event)?;
    out.push_str("\n")?;
    Ok(())
}

fn push_happening(out: &mut String, event: Event) -> Result<(), NoMemory>
    ensures ok { OnOk result (string_bytes out.new ≡ string_bytes out.old ++ event_text (happening_of event)) }
{
    match event {
        Event::Stop(brick) => push_brick(out, "stop ", brick),
        Event::Start(brick) => push_brick(out, "start ", brick),
        Event::Cut(actor, brick) => push_session(out, "cut ", actor, brick),
        Event::Join(actor, brick) => push_session(out, "join ", actor, brick),
        Event::Kill(actor) => push_actor(out, "kill ", actor),
    }
}

fn push_brick(out: &mut String, word: &str, brick: BrickId) -> Result<(), NoMemory>
    ensures ok { OnOk result (string_bytes out.new ≡ string_bytes out.old ++ (word.now ++ decimal brick.0)) }
{
    let brick = brick.0;
    write!(out, "{word}{brick}")?;
    Ok(())
}

fn push_session(
    out: &mut String,
    word: &str,
    actor: ActorId,
    brick: BrickId,
) -> Result<(), NoMemory>
    ensures ok { OnOk result (string_bytes out.new ≡ string_bytes out.old ++ (word.now ++ (who_text (said_who actor) ++ (codes " " ++ decimal brick.0)))) }
{
    push_actor(out, word, actor)?;
    push_brick(out, " ", brick)
}

/// Adds a word and an actor: the clients come first, and then the healers.
fn push_actor(out: &mut String, word: &str, actor: ActorId) -> Result<(), NoMemory>
    ensures ok { OnOk result (string_bytes out.new ≡ string_bytes out.old ++ (word.now ++ who_text (said_who actor))) }
{
    let number = actor.0;
    let clients = u16::from(limits::CLIENTS);
    if number <= clients {
        write!(out, "{word}c{number}")?;
        return Ok(());
    }
    let healer = number - clients;
    write!(out, "{word}h{healer}")?;
    Ok(())
}

pub(crate) fn push_orders(out: &mut String, orders: &[Go]) -> Result<(), NoMemory>
    ensures ok { OnOk result (string_bytes out.new ≡ string_bytes out.old ++ lines_text (map said_order orders.now)) }
{
    for go in orders {
        push_order(out, *go)?;
    }
    Ok(())
}

fn push_order(out: &mut String, go: Go) -> Result<(), NoMemory>
    ensures ok { OnOk result (string_bytes out.new ≡ string_bytes out.old ++ (line_text (said_order go) ++ codes "\n")) }
{
    let Go { actor, count } = go;
    push_actor(out, "go ", actor)?;
    write!(out, " {count}\n")?;
    Ok(())
}
