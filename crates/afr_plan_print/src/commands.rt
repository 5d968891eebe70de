//! The lines of the commands.
ghost use Rattle.std.specs.Prelude.{◌≡◌, ◌++◌, OnOk, string_bytes, codes};
ghost use Rattle.afr_plan_print.specs.PrintedLine.{command_text, line_text, path_text};
ghost use Rattle.afr_plan_print.specs.PrintedPlan.{names_of, said_command, word_at};
ghost use Rattle.afr_plan.specs.Action as action;

use crate::data_forms::push_data;
use crate::words::{push_path, word_at};
use afr_base::{KeyId, NoMemory, ValueId};
use afr_plan::{Command, NamePath, Words};
use std::alloc::Global;

/// Adds the line of a command.
pub(crate) fn push_command(
    alloc: Global,
    out: &mut String,
    words: &Words,
    command: &Command,
) -> Result<(), NoMemory>
    ensures ok { OnOk result (string_bytes out.new ≡ string_bytes out.old ++ (line_text (said_command words.now command.now) ++ codes "\n")) }
{
    match command {
        Command::Write { path, at, bytes } => {
            push_write(alloc, out, words, path, *at, bytes.as_slice())
        }
        Command::Cut { path, len } => push_cut(out, words, path, *len),
        Command::Read { path, at, len } => push_read(out, words, path, *at, *len),
        Command::Create { path } => push_whole(out, "create ", words, path),
        Command::Mkdir { path } => push_whole(out, "mkdir ", words, path),
        Command::Unlink { path } => push_whole(out, "unlink ", words, path),
        Command::Rmdir { path } => push_whole(out, "rmdir ", words, path),
        Command::Ls { path } => push_whole(out, "ls ", words, path),
        Command::Stat { path } => push_whole(out, "stat ", words, path),
        Command::SetAttr { path, key, value } => push_set_attr(out, words, path, *key, *value),
        Command::GetAttr { path, key } => push_get_attr(out, words, path, *key),
        Command::Rename { from, to } => push_rename(out, words, from, to),
    }
}

/// Adds the line of a command that has a word and a path alone.
fn push_whole(out: &mut String, word: &str, words: &Words, path: &NamePath) -> Result<(), NoMemory>
    ensures ok { OnOk result (string_bytes out.new ≡ string_bytes out.old ++ ((word.now ++ path_text (names_of words.now path.now)) ++ codes "\n")) }
{
    push_path(out, word, words, path)?;
    out.push_str("\n")?;
    Ok(())
}

fn push_write(
    alloc: Global,
    out: &mut String,
    words: &Words,
    path: &NamePath,
    at: u32,
    bytes: &[u8],
) -> Result<(), NoMemory>
    ensures ok { OnOk result (string_bytes out.new ≡ string_bytes out.old ++ (command_text (names_of words.now path.now) (action.Write at bytes.now) ++ codes "\n")) }
{
    push_path(out, "write ", words, path)?;
    write!(out, " {at} ")?;
    push_data(alloc, out, bytes)?;
    out.push_str("\n")?;
    Ok(())
}

fn push_cut(out: &mut String, words: &Words, path: &NamePath, len: u32) -> Result<(), NoMemory>
    ensures ok { OnOk result (string_bytes out.new ≡ string_bytes out.old ++ (command_text (names_of words.now path.now) (action.Cut len) ++ codes "\n")) }
{
    push_path(out, "cut ", words, path)?;
    write!(out, " {len}\n")?;
    Ok(())
}

fn push_read(
    out: &mut String,
    words: &Words,
    path: &NamePath,
    at: u32,
    len: u32,
) -> Result<(), NoMemory>
    ensures ok { OnOk result (string_bytes out.new ≡ string_bytes out.old ++ (command_text (names_of words.now path.now) (action.Read at len) ++ codes "\n")) }
{
    push_path(out, "read ", words, path)?;
    write!(out, " {at} {len}\n")?;
    Ok(())
}

fn push_set_attr(
    out: &mut String,
    words: &Words,
    path: &NamePath,
    key: KeyId,
    value: ValueId,
) -> Result<(), NoMemory>
    ensures ok { OnOk result (string_bytes out.new ≡ string_bytes out.old ++ (command_text (names_of words.now path.now) (action.SetAttr (word_at words.now.keys key.0) (word_at words.now.values value.0)) ++ codes "\n")) }
{
    push_path(out, "setattr ", words, path)?;
    let key = word_at(&words.keys, key.0);
    let value = word_at(&words.values, value.0);
    write!(out, " {key} {value}\n")?;
    Ok(())
}

fn push_get_attr(
    out: &mut String,
    words: &Words,
    path: &NamePath,
    key: KeyId,
) -> Result<(), NoMemory>
    ensures ok { OnOk result (string_bytes out.new ≡ string_bytes out.old ++ (command_text (names_of words.now path.now) (action.GetAttr (word_at words.now.keys key.0)) ++ codes "\n")) }
{
    push_path(out, "getattr ", words, path)?;
    let key = word_at(&words.keys, key.0);
    write!(out, " {key}\n")?;
    Ok(())
}

fn push_rename(
    out: &mut String,
    words: &Words,
    from: &NamePath,
    to: &NamePath,
) -> Result<(), NoMemory>
    ensures ok { OnOk result (string_bytes out.new ≡ string_bytes out.old ++ (command_text (names_of words.now from.now) (action.Rename (names_of words.now to.now)) ++ codes "\n")) }
{
    push_path(out, "rename ", words, from)?;
    push_path(out, " ", words, to)?;
    out.push_str("\n")?;
    Ok(())
}
