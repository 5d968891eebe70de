//! The machine of a command that begins.
ghost use Rattle.std.specs.Prelude.{◌≡◌, ◌<◌, ◌≤◌, IfOk, true};
ghost use Rattle.afr_client_entry.specs.Entry.{entry_from};
ghost use Rattle.afr_client_read.specs.Lookup.{lookup_from};
ghost use Rattle.afr_client_write.specs.Write.{write_from};
ghost use Rattle.afr_client_entry.specs.Renames.Rename.{rename_from};
ghost use Rattle.afr_client_entry.specs.Renames.Paths.{front, last};
ghost use Rattle.afr_client.specs.Begin.{has_machine, work_from};
ghost use Rattle.afr_plan.specs.OnNames.{has_name, is_on_name};
ghost use Rattle.afr_client.specs.Work.{IsWork};

use crate::on_heap::OnHeap;
use crate::spares::Spares;
use crate::work::WorkMachine;
use afr_base::{NameId, NoMemory, Shape};
use afr_client_entry::{EntryJob, EntryMachine, RenameMachine};
use afr_client_read::{LookupJob, LookupMachine};
use afr_client_write::{WriteJob, WriteMachine};
use afr_object::{Chunk, TryCopy};
use afr_plan::{Command, NamePath};
use std::alloc::Global;

/// The machine of a command, before its first line, in the place of one that has ended, where one is spare. All have one but a
/// command on the last name of a path that has no name, which a rename is on both its paths.
pub(crate) fn work_for(
    alloc: Global,
    shape: Shape,
    command: &Command,
    spares: &mut Spares,
) -> Result<WorkMachine, NoMemory>
    requires few { shape.n ≤ 5 }
    requires some { 0 < shape.n }
    requires has { has_machine command.now ≡ true }
    ensures ok { IfOk result (λ work. work ≡ work_from shape command.now) }
    ensures sound { IfOk result (λ work. IsWork work) }
{
    match command {
        Command::Write { path, at, bytes } => {
            writes_bytes(alloc, shape, path, *at, bytes, spares)
        }
        Command::Cut { path, len } => {
            writes(alloc, shape, path, WriteJob::Cut { len: *len }, spares)
        }
        Command::SetAttr { path, key, value } => {
            let job = WriteJob::SetAttr {
                key: *key,
                value: *value,
            };
            writes(alloc, shape, path, job, spares)
        }
        Command::Read { path, at, len } => {
            let job = LookupJob::Read { at: *at, len: *len };
            reads(alloc, shape, path, job, spares)
        }
        Command::GetAttr { path, key } => {
            let job = LookupJob::GetAttr { key: *key };
            reads(alloc, shape, path, job, spares)
        }
        Command::Ls { path } => reads(alloc, shape, path, LookupJob::Ls, spares),
        Command::Stat { path } => reads(alloc, shape, path, LookupJob::Stat, spares),
        Command::Rename { from, to } => renames(alloc, shape, from, to),
        _ => on_name(alloc, shape, command),
    }
}

/// The machine of a command on the last name of its path, which stands in a place of its own.
fn on_name(alloc: Global, shape: Shape, command: &Command) -> Result<WorkMachine, NoMemory>
    requires few { shape.n ≤ 5 }
    requires some { 0 < shape.n }
    requires has { has_machine command.now ≡ true }
    requires name { is_on_name command.now ≡ true }
    ensures ok { IfOk result (λ work. work ≡ work_from shape command.now) }
    ensures sound { IfOk result (λ work. IsWork work) }
{
    match command {
        Command::Create { path } => {
            let name = last(path);
            enters(alloc, shape, path, EntryJob::Create { name })
        }
        Command::Mkdir { path } => {
            let name = last(path);
            enters(alloc, shape, path, EntryJob::Mkdir { name })
        }
        Command::Unlink { path } => {
            let name = last(path);
            enters(alloc, shape, path, EntryJob::Unlink { name })
        }
        Command::Rmdir { path } => {
            let name = last(path);
            enters(alloc, shape, path, EntryJob::Rmdir { name })
        }
        _ => unreachable!(),
    }
}

fn writes_bytes(
    alloc: Global,
    shape: Shape,
    path: &NamePath,
    at: u32,
    bytes: &Chunk,
    spares: &mut Spares,
) -> Result<WorkMachine, NoMemory>
    requires few { shape.n ≤ 5 }
    requires some { 0 < shape.n }
    ensures ok { IfOk result (λ work. work ≡ WorkMachine.Write (write_from shape path.now (WriteJob.Write at bytes.now))) }
    ensures sound { IfOk result (λ work. IsWork work) }
{
    let bytes = bytes.copy()?;
    writes(alloc, shape, path, WriteJob::Write { at, bytes }, spares)
}

fn writes(
    alloc: Global,
    shape: Shape,
    path: &NamePath,
    job: WriteJob,
    spares: &mut Spares,
) -> Result<WorkMachine, NoMemory>
    requires few { shape.n ≤ 5 }
    requires some { 0 < shape.n }
    ensures ok { IfOk result (λ work. work ≡ WorkMachine.Write (write_from shape path.now job)) }
    ensures sound { IfOk result (λ work. IsWork work) }
{
    match spares.write.take() {
        Some(machine) => writes_again(machine, shape, path, job),
        None => writes_anew(alloc, shape, path, job),
    }
}

fn writes_again(
    mut machine: OnHeap<WriteMachine>,
    shape: Shape,
    path: &NamePath,
    job: WriteJob,
) -> Result<WorkMachine, NoMemory>
    requires few { shape.n ≤ 5 }
    requires some { 0 < shape.n }
    ensures ok { IfOk result (λ work. work ≡ WorkMachine.Write (write_from shape path.now job)) }
    ensures sound { IfOk result (λ work. IsWork work) }
{
    machine.value.begin_again(shape, path.as_slice(), job)?;
    machine.value.stays_sound();
    Ok(WorkMachine::Write(machine))
}

/// It stands apart, so that only a first work pays for a frame that holds a whole machine.
#[inline(never)]
fn writes_anew(
    alloc: Global,
    shape: Shape,
    path: &NamePath,
    job: WriteJob,
) -> Result<WorkMachine, NoMemory>
    requires few { shape.n ≤ 5 }
    requires some { 0 < shape.n }
    ensures ok { IfOk result (λ work. work ≡ WorkMachine.Write (write_from shape path.now job)) }
    ensures sound { IfOk result (λ work. IsWork work) }
{
    // The results are matched: `?` would move the machine, which is large, once more each time.
    match WriteMachine::new(alloc, shape, path.as_slice(), job) {
        Ok(machine) => {
            machine.stays_sound();
            match OnHeap::new(alloc, machine) {
                Ok(machine) => Ok(WorkMachine::Write(machine)),
                Err(_) => Err(NoMemory),
            }
        }
        Err(_) => Err(NoMemory),
    }
}

fn reads(
    alloc: Global,
    shape: Shape,
    path: &NamePath,
    job: LookupJob,
    spares: &mut Spares,
) -> Result<WorkMachine, NoMemory>
    requires few { shape.n ≤ 5 }
    requires some { 0 < shape.n }
    ensures ok { IfOk result (λ work. work ≡ WorkMachine.Lookup (lookup_from shape path.now job)) }
    ensures sound { IfOk result (λ work. IsWork work) }
{
    match spares.lookup.take() {
        Some(machine) => reads_again(machine, shape, path, job),
        None => reads_anew(alloc, shape, path, job),
    }
}

fn reads_again(
    mut machine: OnHeap<LookupMachine>,
    shape: Shape,
    path: &NamePath,
    job: LookupJob,
) -> Result<WorkMachine, NoMemory>
    requires few { shape.n ≤ 5 }
    requires some { 0 < shape.n }
    ensures ok { IfOk result (λ work. work ≡ WorkMachine.Lookup (lookup_from shape path.now job)) }
    ensures sound { IfOk result (λ work. IsWork work) }
{
    machine.value.begin_again(shape, path.as_slice(), job)?;
    machine.value.stays_sound();
    Ok(WorkMachine::Lookup(machine))
}

#[inline(never)]
fn reads_anew(
    alloc: Global,
    shape: Shape,
    path: &NamePath,
    job: LookupJob,
) -> Result<WorkMachine, NoMemory>
    requires few { shape.n ≤ 5 }
    requires some { 0 < shape.n }
    ensures ok { IfOk result (λ work. work ≡ WorkMachine.Lookup (lookup_from shape path.now job)) }
    ensures sound { IfOk result (λ work. IsWork work) }
{
    match LookupMachine::new(alloc, shape, path.as_slice(), job) {
        Ok(machine) => {
            machine.stays_sound();
            match OnHeap::new(alloc, machine) {
                Ok(machine) => Ok(WorkMachine::Lookup(machine)),
                Err(_) => Err(NoMemory),
            }
        }
        Err(_) => Err(NoMemory),
    }
}

/// The path is that of the name; the names before it lead to the directory.
#[inline(never)]
fn enters(
    alloc: Global,
    shape: Shape,
    path: &NamePath,
    job: EntryJob,
) -> Result<WorkMachine, NoMemory>
    requires few { shape.n ≤ 5 }
    requires some { 0 < shape.n }
    requires has { has_name path.now ≡ true }
    ensures ok { IfOk result (λ work. work ≡ WorkMachine.Entry (entry_from shape (front path.now) job)) }
    ensures sound { IfOk result (λ work. IsWork work) }
{
    match EntryMachine::new(alloc, shape, front(path), job) {
        Ok(machine) => {
            machine.stays_sound();
            match OnHeap::new(alloc, machine) {
                Ok(machine) => Ok(WorkMachine::Entry(machine)),
                Err(_) => Err(NoMemory),
            }
        }
        Err(_) => Err(NoMemory),
    }
}

/// Each path has a name.
#[inline(never)]
fn renames(
    alloc: Global,
    shape: Shape,
    from: &NamePath,
    to: &NamePath,
) -> Result<WorkMachine, NoMemory>
    requires few { shape.n ≤ 5 }
    requires some { 0 < shape.n }
    requires old { has_name from.now ≡ true }
    requires new { has_name to.now ≡ true }
    ensures ok { IfOk result (λ work. work ≡ WorkMachine.Rename (rename_from shape from.now to.now)) }
    ensures sound { IfOk result (λ work. IsWork work) }
{
    match RenameMachine::new(alloc, shape, from.as_slice(), to.as_slice()) {
        Ok(machine) => {
            machine.stays_sound();
            match OnHeap::new(alloc, machine) {
                Ok(machine) => Ok(WorkMachine::Rename(machine)),
                Err(_) => Err(NoMemory),
            }
        }
        Err(_) => Err(NoMemory),
    }
}

fn front(path: &NamePath) -> &[NameId]
    requires { has_name path.now ≡ true }
    ensures { result.now ≡ front path.now }
{
    let names = path.as_slice();
    &names[..names.len() - 1]
}

fn last(path: &NamePath) -> NameId
    requires { has_name path.now ≡ true }
    ensures { result ≡ last path.now }
{
    let names = path.as_slice();
    names[names.len() - 1]
}
