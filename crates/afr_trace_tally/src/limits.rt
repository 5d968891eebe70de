//! How long the files may be that a plan writes and cuts.
ghost use Rattle.std.specs.Prelude.{◌≡◌};
ghost use Rattle.afr_trace_tally.specs.Limits.{has_long, is_long, is_past_limit};

use afr_plan::{Command, Plan};

/// The longest file that a trace may be checked with.
pub const LONGEST_CHECKED: u32 = 1_024;

/// Whether a command writes past the longest file, or cuts to a length above it.
fn is_long(command: &Command) -> bool
    ensures { result ≡ is_long command.now }
{
    match command {
        Command::Write { at, bytes, .. } => {
            bytes.len() > LONGEST_CHECKED as usize || *at > LONGEST_CHECKED - bytes.len() as u32
        }
        Command::Cut { len, .. } => *len > LONGEST_CHECKED,
        _ => false,
    }
}

fn has_long(commands: &[Command]) -> bool
    ensures { result ≡ has_long commands.now }
{
    for command in commands {
        if is_long(command) {
            return true;
        }
    }
    false
}

/// Whether some client of the plan writes or cuts past the longest file that is checked.
pub fn is_past_limit(plan: &Plan) -> bool
    ensures { result ≡ is_past_limit plan.now }
{
    for commands in plan.clients.as_slice() {
        if has_long(commands.as_slice()) {
            return true;
        }
    }
    false
}
