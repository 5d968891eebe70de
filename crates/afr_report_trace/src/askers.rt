//! Actors and bricks, each after a space.
ghost use Rattle.std.specs.Prelude.{◌≡◌, ◌++◌, IfSome, OnOk, codes, decimal, string_bytes};
ghost use Rattle.afr_model.specs.ReportReplies.{actor_text};

use afr_base::{ActorId, BrickId, NoMemory};
use afr_report_words::{push_actor, push_number};

/// Adds an actor, after a space. Those of a volume have a word of their own, which is added at once.
pub(crate) fn push_asker(out: &mut String, actor: ActorId) -> Result<(), NoMemory>
    ensures ok { OnOk result (string_bytes out.new ≡ string_bytes out.old ++ (codes " " ++ actor_text actor)) }
{
    match actor_word(actor) {
        Some(word) => out.push_str(word)?,
        None => {
            out.push(' ')?;
            push_actor(out, actor)?;
        }
    }
    Ok(())
}

fn actor_word(actor: ActorId) -> Option<&'static str>
    ensures { IfSome result (λ word. word.now ≡ codes " " ++ actor_text actor) }
{
    match actor.0 {
        1 => Some(" c1"),
        2 => Some(" c2"),
        3 => Some(" c3"),
        4 => Some(" c4"),
        5 => Some(" c5"),
        6 => Some(" c6"),
        7 => Some(" c7"),
        8 => Some(" c8"),
        9 => Some(" c9"),
        10 => Some(" c10"),
        11 => Some(" c11"),
        12 => Some(" c12"),
        13 => Some(" c13"),
        14 => Some(" c14"),
        15 => Some(" c15"),
        16 => Some(" c16"),
        17 => Some(" h1"),
        18 => Some(" h2"),
        19 => Some(" h3"),
        _ => None,
    }
}

/// Adds the brick that was asked, between two spaces. A brick of a volume has a word of its own, which is added at once.
pub(crate) fn push_brick(out: &mut String, brick: BrickId) -> Result<(), NoMemory>
    ensures ok { OnOk result (string_bytes out.new ≡ string_bytes out.old ++ (codes " b" ++ decimal brick.0 ++ codes " ")) }
{
    match brick_word(brick) {
        Some(word) => out.push_str(word)?,
        None => {
            out.push_str(" b")?;
            push_number(out, u64::from(brick.0))?;
            out.push(' ')?;
        }
    }
    Ok(())
}

fn brick_word(brick: BrickId) -> Option<&'static str>
    ensures { IfSome result (λ word. word.now ≡ codes " b" ++ decimal brick.0 ++ codes " ") }
{
    match brick.0 {
        0 => Some(" b0 "),
        1 => Some(" b1 "),
        2 => Some(" b2 "),
        3 => Some(" b3 "),
        4 => Some(" b4 "),
        _ => None,
    }
}
