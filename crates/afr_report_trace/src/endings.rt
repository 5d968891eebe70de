//! The ends of the lines of requests: what was told, behind a space, and the end of the line.
ghost use Rattle.std.specs.Prelude.{◌≡◌, ◌++◌, OnOk, codes, string_bytes};
ghost use Rattle.afr_report_trace.specs.Answers.{told_text};
ghost use Rattle.afr_report_trace.specs.Endings.{ending_text};

use crate::askers::push_asker;
use afr_base::{ActorId, NoMemory};
use afr_lines::Told;

/// How the line of a request ends.
#[derive(Clone, Copy, PartialEq, Eq)]
pub(crate) enum LineEnding {
    Granted,
    Held(ActorId),
    Seen,
    Done,
    Given,
    NoObject,
    Lost,
    Gone,
    Failed,
}

/// The end that an answer makes; `took` says whether the brick carried the request out.
pub(crate) fn ending_of(told: &Told, took: bool) -> LineEnding
    ensures { ending_text result ≡ codes " " ++ told_text told.now took ++ codes "\n" }
{
    match told {
        Told::Granted => LineEnding::Granted,
        Told::Held(owner) => LineEnding::Held(*owner),
        Told::Seen(_) => LineEnding::Seen,
        Told::Done => LineEnding::Done,
        Told::Given => LineEnding::Given,
        Told::NoObject => LineEnding::NoObject,
        Told::NotConnected => ending_unheard(took),
        Told::Failed => LineEnding::Failed,
    }
}

/// The end where nothing was heard of the brick.
fn ending_unheard(took: bool) -> LineEnding
    ensures { ending_text result ≡ codes " " ++ told_text Told.NotConnected took ++ codes "\n" }
{
    if took {
        LineEnding::Lost
    } else {
        LineEnding::Gone
    }
}

/// Adds an end.
pub(crate) fn push_ending(out: &mut String, ending: LineEnding) -> Result<(), NoMemory>
    ensures ok { OnOk result (string_bytes out.new ≡ string_bytes out.old ++ ending_text ending) }
{
    match ending {
        LineEnding::Granted => out.push_str(" granted\n")?,
        LineEnding::Held(owner) => {
            out.push_str(" held")?;
            push_asker(out, owner)?;
            out.push('\n')?;
        }
        LineEnding::Seen => out.push_str(" seen\n")?,
        LineEnding::Done => out.push_str(" done\n")?,
        LineEnding::Given => out.push_str(" ok\n")?,
        LineEnding::NoObject => out.push_str(" absent\n")?,
        LineEnding::Lost => out.push_str(" lost\n")?,
        LineEnding::Gone => out.push_str(" gone\n")?,
        LineEnding::Failed => out.push_str(" failed\n")?,
    }
    Ok(())
}
