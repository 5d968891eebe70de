//! The words as `clap` reads them: a command with one level of subcommands. Those with a number are read before.
ghost use Rattle.std.specs.Prelude.{◌≡◌, ◌∷◌, [], IfOk, IfSome, IsSomeAnd, None, Ok, Some};
ghost use Rattle.clap.specs.Matches.{subcommand_name_of};
ghost use Rattle.clap.specs.Simple.{app_of};
ghost use Rattle.afr_words.specs.Forms.{AreForm, AreRefused, AreWordsOf, AskFor};
ghost use Rattle.afr_words.specs.Reading.{bare_program, whole_program};

use crate::form::{Form, form_named};
use crate::numbered::{load_asked, replay_asked};
use crate::refused::are_refused;
use afr_base::NoMemory;
use clap::error::ErrorKind;
use clap::{ArgMatches, Command};
use std::alloc::Global;

/// The form that the words ask for. Words that are refused at sight take no memory.
pub fn form_of(alloc: Global, words: &[String]) -> Result<Option<Form>, NoMemory>
    ensures some { (form : Form) → result ≡ Ok (Some form) → AskFor words.now form }
    ensures none { result ≡ Ok None → AreForm words.now → ⊥ }
    ensures refused { AreRefused words.now → result ≡ Ok None }
{
    if are_refused(words) {
        return Ok(None);
    }
    if let Some(number) = load_asked(words) {
        return Ok(Some(Form::Gen(number)));
    }
    if let Some(turns) = replay_asked(words) {
        return Ok(Some(Form::Replay(turns)));
    }
    match program(alloc)?.try_get_matches_from(words) {
        Ok(matches) => Ok(form_met(&matches)),
        Err(error) if error.kind() == ErrorKind::OutOfMemory => Err(NoMemory),
        Err(_) => Ok(None),
    }
}

/// The form whose subcommand the words named.
fn form_met(matches: &ArgMatches<'_>) -> Option<Form>
    ensures some { IfSome result (λ form. IsSomeAnd (subcommand_name_of matches.now) (λ name. AreWordsOf form (name ∷ []))) }
    ensures none { result ≡ None → IfSome (subcommand_name_of matches.now) (λ name. (form : Form) → AreWordsOf form (name ∷ []) → ⊥) }
{
    match matches.subcommand_name() {
        Some(name) => form_named(name),
        None => None,
    }
}

/// The program with the words of its forms.
fn program<'a>(alloc: Global) -> Result<Command<'a>, NoMemory>
    ensures { IfOk result (λ program. app_of program ≡ whole_program) }
{
    let program = bare_program(alloc)
        .subcommand(Command::new(alloc, "run"))?
        .subcommand(Command::new(alloc, "trace"))?
        .subcommand(Command::new(alloc, "info"))?;
    Ok(program)
}

/// The program without its forms.
fn bare_program<'a>(alloc: Global) -> Command<'a>
    ensures { app_of result ≡ bare_program }
{
    Command::new(alloc, "afr")
        .no_binary_name(true)
        .disable_help_flag(true)
        .disable_help_subcommand(true)
        .subcommand_required(true)
}
