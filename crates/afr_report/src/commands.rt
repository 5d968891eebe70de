//! The lines of the commands that have ended.
ghost use Rattle.std.specs.Prelude.{◌≡◌, ◌++◌, ◌<◌, OnOk, Some, string_bytes};
ghost use Rattle.std.specs.Option.{option_copied};
ghost use Rattle.afr_model.specs.Report.{command_line, word_of};

use afr_base::NoMemory;
use afr_lines::Reply;
use afr_plan::{Command, Words};
use afr_report_words::push_reply;

/// Adds the line of the command that comes after `before` others of its client.
pub fn push_command(
    out: &mut String,
    words: &Words,
    before: usize,
    command: Option<&Command>,
    reply: &Reply,
) -> Result<(), NoMemory>
    requires room { before < usize.MAX }
    ensures ok { OnOk result (string_bytes out.new ≡ string_bytes out.old ++ command_line words.now before (option_copied command.entry) (Some reply.now)) }
{
    let Some(command) = command else {
        return Ok(());
    };
    let number = before + 1;
    let word = word(command);
    write!(out, "{number} {word} ")?;
    push_reply(out, words, reply)?;
    out.push_str("\n")?;
    Ok(())
}

fn word(command: &Command) -> &'static str
    ensures { result.now ≡ word_of command.now }
{
    match command {
        Command::Write { .. } => "write",
        Command::Cut { .. } => "cut",
        Command::Read { .. } => "read",
        Command::Create { .. } => "create",
        Command::Mkdir { .. } => "mkdir",
        Command::Unlink { .. } => "unlink",
        Command::Rmdir { .. } => "rmdir",
        Command::Ls { .. } => "ls",
        Command::Stat { .. } => "stat",
        Command::SetAttr { .. } => "setattr",
        Command::GetAttr { .. } => "getattr",
        Command::Rename { .. } => "rename",
    }
}
