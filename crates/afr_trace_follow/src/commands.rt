//! What the words of a command name: its path, and its change.
ghost use Rattle.std.specs.Prelude.{◌≡◌, ◌↔◌, ◌+◌, ◌-◌, ◌<◌, ◌&&◌, ◌^◌, true, Some, length, slice_get};
ghost use Rattle.std.specs.Option.{option_map};
ghost use Rattle.afr_model.specs.Commands.{change_named, is_on_name, last_of, path_of, steps_of};
ghost use Rattle.afr_object.specs.declared.change.Change.{Change};
ghost use Rattle.afr_trace_follow.specs.Keeping.{IsNamedAt, IsNextOf};
ghost use Rattle.afr_trace_follow.specs.Seen.{path_seen};

use crate::facts::{both, same_gfid, same_number};
use crate::path::Path;
use afr_base::{Gfid, KeyId, NameId, ValueId, What, same_what};
use afr_object::{Change, Chunk};
use afr_plan::{Command, NamePath};

pub(crate) fn path_of(command: &Command) -> &NamePath
    ensures { result.now ≡ path_of command.now }
{
    match command {
        Command::Write { path, .. } => path,
        Command::Cut { path, .. } => path,
        Command::Read { path, .. } => path,
        Command::Create { path } => path,
        Command::Mkdir { path } => path,
        Command::Unlink { path } => path,
        Command::Rmdir { path } => path,
        Command::Ls { path } => path,
        Command::Stat { path } => path,
        Command::SetAttr { path, .. } => path,
        Command::GetAttr { path, .. } => path,
        Command::Rename { from, .. } => from,
    }
}

/// Whether the command is on the last name of its path, in the directory before it.
pub(crate) fn is_on_name(command: &Command) -> bool
    ensures { result ≡ is_on_name command.now }
{
    match command {
        Command::Create { .. } => true,
        Command::Mkdir { .. } => true,
        Command::Unlink { .. } => true,
        Command::Rmdir { .. } => true,
        _ => false,
    }
}

/// How many names lead to the object of the command.
pub(crate) fn steps_of(command: &Command) -> usize
    ensures { result ≡ steps_of command.now }
{
    let names = path_of(command).len();
    if is_on_name(command) {
        names.saturating_sub(1)
    } else {
        names
    }
}

pub(crate) fn last_of(path: &[NameId]) -> Option<NameId>
    ensures { result ≡ last_of path.now }
{
    match path.get(path.len().saturating_sub(1)) {
        Some(name) => Some(*name),
        None => None,
    }
}

// ---- a change

fn same_place(one: u32, other: u32) -> bool
    ensures { (result ≡ true) ↔ (one ≡ other) }
{
    one == other
}

fn same_key(one: KeyId, other: KeyId) -> bool
    ensures { (result ≡ true) ↔ (one ≡ other) }
{
    one == other
}

fn same_value(one: ValueId, other: ValueId) -> bool
    ensures { (result ≡ true) ↔ (one ≡ other) }
{
    one == other
}

fn same_name(one: NameId, other: NameId) -> bool
    ensures { (result ≡ true) ↔ (one ≡ other) }
{
    one == other
}

fn same_bytes(one: &Chunk, other: &Chunk) -> bool
    ensures { (result ≡ true) ↔ (one.now ≡ other.now) }
{
    one.as_slice() == other.as_slice()
}

fn is_write(change: &Change, g: Gfid, at: u32, bytes: &Chunk) -> bool
    ensures { (result ≡ true) ↔ (Change.Write g at bytes.now ≡ change.now) }
{
    match change {
        Change::Write {
            gfid,
            at: from,
            bytes: carried,
        } => {
            let within = both(same_gfid(*gfid, g), same_place(*from, at));
            both(within, same_bytes(carried, bytes))
        }
        _ => false,
    }
}

fn is_cut(change: &Change, g: Gfid, len: u32) -> bool
    ensures { (result ≡ true) ↔ (Change.Cut g len ≡ change.now) }
{
    match change {
        Change::Cut { gfid, len: left } => both(same_gfid(*gfid, g), same_place(*left, len)),
        _ => false,
    }
}

fn is_set_attr(change: &Change, g: Gfid, key: KeyId, value: ValueId) -> bool
    ensures { (result ≡ true) ↔ (Change.SetAttr g key value ≡ change.now) }
{
    match change {
        Change::SetAttr {
            gfid,
            key: named,
            value: given,
        } => {
            let within = both(same_gfid(*gfid, g), same_key(*named, key));
            both(within, same_value(*given, value))
        }
        _ => false,
    }
}

fn is_make(change: &Change, dir: Gfid, name: NameId, made: Gfid, what: What) -> bool
    ensures { (result ≡ true) ↔ (Change.Make dir name made what ≡ change.now) }
{
    match change {
        Change::Make {
            dir: within,
            name: named,
            gfid,
            what: kind,
        } => {
            let there = both(same_gfid(*within, dir), same_name(*named, name));
            let it = both(same_gfid(*gfid, made), same_what(*kind, what));
            both(there, it)
        }
        _ => false,
    }
}

fn is_remove(change: &Change, dir: Gfid, name: NameId, what: What) -> bool
    ensures { (result ≡ true) ↔ (Change.Remove dir name what ≡ change.now) }
{
    match change {
        Change::Remove {
            dir: within,
            name: named,
            what: kind,
        } => {
            let there = both(same_gfid(*within, dir), same_name(*named, name));
            both(there, same_what(*kind, what))
        }
        _ => false,
    }
}

/// Whether the change makes the last name of a path for this object.
pub(crate) fn makes_last(
    change: &Change,
    dir: Gfid,
    path: &[NameId],
    made: Gfid,
    what: What,
) -> bool
    ensures { (result ≡ true) ↔ (option_map (λ name. Change.Make dir name made what) (last_of path.now) ≡ Some change.now) }
{
    match last_of(path) {
        Some(name) => is_make(change, dir, name, made, what),
        None => false,
    }
}

/// Whether the change removes the last name of a path.
pub(crate) fn removes_last(change: &Change, dir: Gfid, path: &[NameId], what: What) -> bool
    ensures { (result ≡ true) ↔ (option_map (λ name. Change.Remove dir name what) (last_of path.now) ≡ Some change.now) }
{
    match last_of(path) {
        Some(name) => is_remove(change, dir, name, what),
        None => false,
    }
}

/// The object that an attempt at this position makes.
fn made_at(position: usize) -> Gfid
    requires { position < 2 ^ 62 }
    ensures { result ≡ record { 0 = position + 2 } }
{
    Gfid(position as u128 + 2)
}

/// Whether the change is what the command's words name, begun at this position on the object that its path has led to.
fn is_named(g: Gfid, position: usize, command: &Command, change: &Change) -> bool
    requires { position < 2 ^ 62 }
    ensures { (result ≡ true) ↔ (change_named g position command.now ≡ Some change.now) }
{
    match command {
        Command::Write { at, bytes, .. } => is_write(change, g, *at, bytes),
        Command::Cut { len, .. } => is_cut(change, g, *len),
        Command::SetAttr { key, value, .. } => is_set_attr(change, g, *key, *value),
        Command::Create { path } => makes_last(
            change,
            g,
            path.as_slice(),
            made_at(position),
            What::File,
        ),
        Command::Mkdir { path } => makes_last(
            change,
            g,
            path.as_slice(),
            made_at(position),
            What::Dir,
        ),
        Command::Unlink { path } => removes_last(change, g, path.as_slice(), What::File),
        Command::Rmdir { path } => removes_last(change, g, path.as_slice(), What::Dir),
        Command::Read { .. } => false,
        Command::Ls { .. } => false,
        Command::Stat { .. } => false,
        Command::GetAttr { .. } => false,
        Command::Rename { .. } => false,
    }
}

/// Whether it is, where the path to the object stands so.
pub(crate) fn is_named_at(place: Path, command: &Command, position: usize, change: &Change) -> bool
    requires { position < 2 ^ 62 }
    ensures { (result ≡ true) ↔ IsNamedAt (path_seen place) command.now position change.now }
{
    match place {
        Path::At(read, object) => {
            let led = same_number(read, steps_of(command));
            both(led, is_named(object.gfid, position, command, change))
        }
        Path::NoName => false,
        Path::Untold => false,
    }
}

// ---- a name

fn is_name_at(names: &[NameId], read: usize, name: NameId) -> bool
    ensures { (result ≡ true) ↔ (slice_get names.now read ≡ Some name) }
{
    match names.get(read) {
        Some(next) => *next == name,
        None => false,
    }
}

/// Whether a name is the next one of these, asked in the directory where the path stands.
pub(crate) fn is_next_of(path: Path, names: &[NameId], g: Gfid, name: NameId) -> bool
    ensures { (result ≡ true) ↔ IsNextOf (path_seen path) names.now g name }
{
    match path {
        Path::At(read, object) => {
            let there = same_gfid(object.gfid, g);
            both(there, is_name_at(names, read, name))
        }
        Path::NoName => false,
        Path::Untold => false,
    }
}
