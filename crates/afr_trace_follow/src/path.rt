//! Where lines stand on a path.
ghost use Rattle.std.specs.Prelude.{◌≡◌, ◌+◌, ◌<◌, ◌≤◌, ◌^◌, ℕ, Bool};
ghost use Rattle.afr_model.specs.Showing.{At as SpecAt, one_name, root_entry};
ghost use Rattle.afr_model.specs.Standing.{kept_at};
ghost use Rattle.afr_trace_follow.specs.Seen.{names_read, path_seen};
ghost use Rattle.afr_trace_follow.specs.Stands.{path_shown};

use afr_base::{ActorId, BrickId, Gfid, NameId, What};
use afr_lines::{Line, Request, Told};
use afr_object::Entry;

/// At an object, after so many names; or the last name isn't there, or wasn't told.
#[derive(Clone, Copy)]
pub(crate) enum Path {
    At(usize, Entry),
    NoName,
    Untold,
}

pub(crate) fn at_root() -> Path
    ensures { path_seen result ≡ SpecAt 0 root_entry }
{
    let object = Entry {
        gfid: Gfid(1),
        what: What::Dir,
    };
    Path::At(0, object)
}

/// One more name was read.
fn one_name(entry: Option<Entry>, path: Path) -> Path
    requires { names_read (path_seen path) < 2 ^ 62 }
    ensures value { path_seen result ≡ one_name entry (path_seen path) }
    ensures few { (n : ℕ) → names_read (path_seen path) ≤ n → names_read (path_seen result) ≤ n + 1 }
{
    match path {
        Path::At(read, _) => next_name(entry, read),
        Path::NoName => path,
        Path::Untold => path,
    }
}

fn next_name(entry: Option<Entry>, read: usize) -> Path
    requires { read < 2 ^ 62 }
    ensures value { (object : Entry) → path_seen result ≡ one_name entry (SpecAt read object) }
    ensures few { (n : ℕ) → read ≤ n → names_read (path_seen result) ≤ n + 1 }
{
    match entry {
        Some(entry) => Path::At(read + 1, entry),
        None => Path::NoName,
    }
}

/// What a line makes of a path, by the entry that it showed.
pub(crate) fn path_shown(line: &Line, entry: Option<Entry>, path: Path) -> Path
    requires { names_read (path_seen path) < 2 ^ 62 }
    ensures value { path_seen result ≡ path_shown line.now entry (path_seen path) }
    ensures few { (n : ℕ) → names_read (path_seen path) ≤ n → names_read (path_seen result) ≤ n + 1 }
{
    match line {
        Line::Ask { request, told, .. } => path_asked(request, *told, entry, path),
        _ => path,
    }
}

fn path_asked(request: &Request, told: Told, entry: Option<Entry>, path: Path) -> Path
    requires { names_read (path_seen path) < 2 ^ 62 }
    ensures value { (a : ActorId) (b : BrickId) (took : Bool) → path_seen result ≡ path_shown (Line.Ask a b request.now told took) entry (path_seen path) }
    ensures few { (n : ℕ) → names_read (path_seen path) ≤ n → names_read (path_seen result) ≤ n + 1 }
{
    match request {
        Request::ReadName { .. } => name_told(told, entry, path),
        _ => path,
    }
}

fn name_told(told: Told, entry: Option<Entry>, path: Path) -> Path
    requires { names_read (path_seen path) < 2 ^ 62 }
    ensures value { (a : ActorId) (b : BrickId) (g : Gfid) (name : NameId) (took : Bool) → path_seen result ≡ path_shown (Line.Ask a b (Request.ReadName g name) told took) entry (path_seen path) }
    ensures few { (n : ℕ) → names_read (path_seen path) ≤ n → names_read (path_seen result) ≤ n + 1 }
{
    match told {
        Told::Given => one_name(entry, path),
        _ => Path::Untold,
    }
}

/// The path stays where it has led after so many names.
pub(crate) fn kept_at(names: usize, was: Path, next: Path) -> Path
    ensures value { path_seen result ≡ kept_at names (path_seen was) (path_seen next) }
    ensures few { (n : ℕ) → names_read (path_seen was) ≤ n → names_read (path_seen next) ≤ n + 1 → names_read (path_seen result) ≤ n + 1 }
{
    match was {
        Path::At(read, _) => { if read == names { was } else { next } }
        Path::NoName => next,
        Path::Untold => next,
    }
}
