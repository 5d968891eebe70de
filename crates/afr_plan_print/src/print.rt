//! The text of a plan.
ghost use Rattle.std.specs.Prelude.{◌≡◌, ◌++◌, ◌≤◌, ℕ, List, IfOk, OnOk, length, string_bytes, codes, decimal, map};
ghost use Rattle.afr_plan.specs.declared.plan.Plan.{Plan as ThePlan};
ghost use Rattle.afr_plan_print.specs.PrintedLine.{line_text, lines_text, kind_text};
ghost use Rattle.afr_plan_print.specs.PrintedParts.{client_text, clients_text};
ghost use Rattle.afr_plan_print.specs.PrintedPlan.{head_lines, plan_text, said_command, version_of};
ghost use Rattle.afr_plan.specs.Said as said;
ghost use Rattle.afr_plan.specs.Spells.{Spells};

use crate::commands::push_command;
use crate::schedule::{push_events, push_faults, push_healers, push_orders};
use afr_base::{NoMemory, Shape};
use afr_plan::{Command, Plan, Script, Words, limits};
use std::alloc::Global;

/// The text of a plan: in version 1 where it has three bricks, else in version 2. Time and memory are linear in its length.
pub fn print_plan(alloc: Global, plan: &Plan) -> Result<String, NoMemory>
    ensures ok { IfOk result (λ text. string_bytes text ≡ plan_text plan.now) }
{
    let mut out = String::new(alloc);
    push_head(&mut out, plan)?;
    push_clients(alloc, &mut out, &plan.words, plan.clients.as_slice())?;
    push_healers(&mut out, plan.healers.as_slice())?;
    push_faults(&mut out, plan.faults.as_slice())?;
    push_events(&mut out, plan.events.as_slice())?;
    push_orders(&mut out, plan.go.as_slice())?;
    out.push_str("end\n")?;
    Ok(out)
}

/// What is printed of a plan that was read is read as the same plan, and isn't longer.
pub fn a_printed_plan_is_read_again()
    ensures same { (bytes : List ℕ) (plan : ThePlan) → Spells bytes plan → Spells (plan_text plan) plan }
    ensures short { (bytes : List ℕ) (plan : ThePlan) → Spells bytes plan → length (plan_text plan) ≤ length bytes }
{}

/// Adds the first four lines.
#[tactic(auto, using(crate::proofs::PrintedPartsLemmas::four_lines))]
fn push_head(out: &mut String, plan: &Plan) -> Result<(), NoMemory>
    ensures ok { OnOk result (string_bytes out.new ≡ string_bytes out.old ++ lines_text (head_lines plan.now)) }
{
    push_shape(out, plan.shape)?;
    push_limits(out, plan.files, plan.turns)
}

/// Adds the first two lines: three bricks are printed in version 1, any other number in version 2.
fn push_shape(out: &mut String, shape: Shape) -> Result<(), NoMemory>
    ensures ok { OnOk result (string_bytes out.new ≡ string_bytes out.old ++ ((line_text (said.Afr (version_of shape)) ++ codes "\n") ++ (line_text (said.Volume (version_of shape) shape) ++ codes "\n"))) }
{
    let kind = kind_word(shape.arbiter);
    if shape.n == limits::FEWEST_BRICKS {
        push_first(out, kind)
    } else {
        push_second(out, kind, shape.n)
    }
}

fn push_first(out: &mut String, kind: &str) -> Result<(), NoMemory>
    ensures ok { OnOk result (string_bytes out.new ≡ string_bytes out.old ++ (codes "afr 1\n" ++ ((codes "volume " ++ kind.now) ++ codes "\n"))) }
{
    write!(out, "afr 1\nvolume {kind}\n")?;
    Ok(())
}

fn push_second(out: &mut String, kind: &str, n: u8) -> Result<(), NoMemory>
    ensures ok { OnOk result (string_bytes out.new ≡ string_bytes out.old ++ (codes "afr 2\n" ++ ((codes "volume " ++ (kind.now ++ (codes " " ++ decimal n))) ++ codes "\n"))) }
{
    write!(out, "afr 2\nvolume {kind} {n}\n")?;
    Ok(())
}

fn push_limits(out: &mut String, files: u32, turns: u32) -> Result<(), NoMemory>
    ensures ok { OnOk result (string_bytes out.new ≡ string_bytes out.old ++ ((line_text (said.Files files) ++ codes "\n") ++ (line_text (said.Turns turns) ++ codes "\n"))) }
{
    write!(out, "files {files}\nturns {turns}\n")?;
    Ok(())
}

fn kind_word(arbiter: bool) -> &'static str
    ensures { result.now ≡ kind_text arbiter }
{
    if arbiter { "arbiter" } else { "replica" }
}

/// Adds the clients and their commands. Client 1 has the first script.
fn push_clients(
    alloc: Global,
    out: &mut String,
    words: &Words,
    scripts: &[Script],
) -> Result<(), NoMemory>
    ensures ok { OnOk result (string_bytes out.new ≡ string_bytes out.old ++ clients_text words.now 1 scripts.now) }
{
    let mut client: usize = 1;
    for script in scripts {
        push_client(alloc, out, words, client, script.as_slice())?;
        client += 1;
    }
    Ok(())
}

fn push_client(
    alloc: Global,
    out: &mut String,
    words: &Words,
    client: usize,
    script: &[Command],
) -> Result<(), NoMemory>
    ensures ok { OnOk result (string_bytes out.new ≡ string_bytes out.old ++ client_text words.now client script.now) }
{
    write!(out, "client {client}\n")?;
    push_script(alloc, out, words, script)
}

fn push_script(
    alloc: Global,
    out: &mut String,
    words: &Words,
    script: &[Command],
) -> Result<(), NoMemory>
    ensures ok { OnOk result (string_bytes out.new ≡ string_bytes out.old ++ lines_text (map (said_command words.now) script.now)) }
{
    for command in script {
        push_command(alloc, out, words, command)?;
    }
    Ok(())
}
