//! How far each client has come, and its commands that have ended.
ghost use Rattle.std.specs.Prelude.{◌≡◌, ◌++◌, ◌<◌, ◌≤◌, OnOk, length, reverse, slice_get, string_bytes};
ghost use Rattle.std.specs.Option.{option_copied};
ghost use Rattle.afr_model.specs.Report.{client_head, client_text, clients_text, ended_lines};
ghost use Rattle.afr_report.specs.Own.{lines_at, places};

use crate::commands::push_command;
use crate::own::{line_at, own_places};
use crate::progress::{Progress, progress_of, standing, told_reply};
use afr_base::{ActorId, NoMemory};
use afr_log::Log;
use afr_object::List;
use afr_plan::{Command, Script, Words};

/// Adds the texts of all clients. Client 1 has the first script.
pub fn push_clients(
    out: &mut String,
    words: &Words,
    scripts: &[Script],
    lists: &[List<u32>],
    log: &Log,
) -> Result<(), NoMemory>
    requires few { length scripts.now ≤ 16 }
    requires lists { lists.now ≡ places (reverse log.now.items) }
    ensures ok { OnOk result (string_bytes out.new ≡ string_bytes out.old ++ clients_text words.now 1 scripts.now (reverse log.now.items)) }
{
    let mut client = 1;
    for script in scripts {
        push_client(out, words, ActorId(client), script.as_slice(), lists, log)?;
        client += 1;
    }
    Ok(())
}

fn push_client(
    out: &mut String,
    words: &Words,
    client: ActorId,
    commands: &[Command],
    lists: &[List<u32>],
    log: &Log,
) -> Result<(), NoMemory>
    requires small { client.0 < 20 }
    requires lists { lists.now ≡ places (reverse log.now.items) }
    ensures ok { OnOk result (string_bytes out.new ≡ string_bytes out.old ++ client_text words.now client.0 commands.now (reverse log.now.items)) }
{
    let own = own_places(lists, client);
    push_client_at(out, words, client, commands, own, log)
}

/// Adds the text of a client by the lines at these positions of the log.
fn push_client_at(
    out: &mut String,
    words: &Words,
    client: ActorId,
    commands: &[Command],
    own: &[u32],
    log: &Log,
) -> Result<(), NoMemory>
    ensures ok { OnOk result (string_bytes out.new ≡ string_bytes out.old ++ client_text words.now client.0 commands.now (lines_at log.now.items (reverse own.now))) }
{
    let progress = progress_of(client, own, log);
    push_client_head(out, client, progress, commands.len())?;
    push_ended(out, words, client, commands, own, log)
}

fn push_client_head(
    out: &mut String,
    client: ActorId,
    progress: Progress,
    commands: usize,
) -> Result<(), NoMemory>
    ensures ok { OnOk result (string_bytes out.new ≡ string_bytes out.old ++ client_head client.0 progress.dead progress.done commands) }
{
    let client = client.0;
    let Progress { done, dead } = progress;
    let standing = standing(dead, done, commands);
    write!(out, "c{client} {done} of {commands}{standing}\n")?;
    Ok(())
}

#[tactic(auto, using(crate::proofs::CommandLemmas::no_reply))]
fn push_ended(
    out: &mut String,
    words: &Words,
    client: ActorId,
    commands: &[Command],
    own: &[u32],
    log: &Log,
) -> Result<(), NoMemory>
    ensures ok { OnOk result (string_bytes out.new ≡ string_bytes out.old ++ ended_lines words.now client.0 commands.now (lines_at log.now.items (reverse own.now))) }
{
    let mut before = 0;
    for at in own {
        if let Some(told) = line_at(log, *at) {
            if let Some(reply) = told_reply(client, told) {
                push_command(out, words, before, command_after(before, commands), reply)?;
                before += 1;
            }
        }
    }
    Ok(())
}

/// The command that comes after so many others.
fn command_after(before: usize, commands: &[Command]) -> Option<&Command>
    ensures { option_copied result ≡ slice_get commands.now before }
{
    commands.get(before)
}
