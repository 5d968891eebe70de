//! A path's names, one after the other.
ghost use Rattle.std.specs.Prelude.{◌≡◌, ◌==◌, ◌∷◌, [], IfSome, IfNone, position};
ghost use Rattle.std.specs.Option.{option_copied, option_map};
ghost use Rattle.std.specs.List.{list_all};
ghost use Rattle.afr_plan.specs.Bytes as bytes;
ghost use Rattle.afr_plan.specs.Paths.{names_in, pieces, pieces_of};
ghost use Rattle.afr_plan.specs.Paths as paths;
ghost use Rattle.afr_plan.specs.Reading.{path_at, named_path_at};
ghost use Rattle.afr_plan.specs.Rules as rule;

use crate::bytes::{is_same, path_len};
use afr_plan::limits;
use std::marker::Model;

/// The names of a path that are still to come. Contracts see them as a list.
#[derive(Drop)]
pub struct PathNames<'a> {
    rest: Option<&'a [u8]>,
}

impl<'a> Model for PathNames<'a> {
    ghost use Rattle.std.specs.Prelude.{List, ℕ};
    ghost use Rattle.std.specs.Option.{option_copied};
    ghost use Rattle.afr_plan.specs.Paths.{pieces_of};

    ghost Value = { List (List ℕ) };

    ghost view = { λ n. pieces_of (option_copied n.rest) };
}

/// The names of a path.
pub fn names_of(path: &[u8]) -> PathNames
    ensures { result ≡ names_in path.now }
{
    match path {
        [] => PathNames { rest: None },
        [_] => PathNames { rest: None },
        [_, rest @ ..] => PathNames { rest: Some(rest) },
    }
}

impl<'a> PathNames<'a> {
    /// The next name, if there is one.
    pub fn next(&mut self) -> Option<&'a [u8]>
        ensures some { IfSome result (λ name. self.old ≡ name.now ∷ self.new) }
        ensures none { IfNone result (self.old ≡ []) }
    {
        let bytes = self.rest?;
        let (name, rest) = first_piece(bytes);
        self.rest = rest;
        Some(name)
    }
}

/// Where the first slash stands.
fn slash(bytes: &[u8]) -> Option<usize>
    ensures { result ≡ position (λ b. b == 47) bytes.now }
{
    bytes.iter().position(|b| *b == b'/')
}

/// What stands before the first slash, and what follows it.
fn first_piece(bytes: &[u8]) -> (&[u8], Option<&[u8]>)
    ensures { pieces bytes.now ≡ result.0.now ∷ pieces_of (option_copied result.1) }
{
    match slash(bytes) {
        Some(at) => (&bytes[..at], Some(&bytes[at + 1..])),
        None => (bytes, None),
    }
}

/// Whether bytes that may stand in a name are one.
pub fn is_name(name: &[u8]) -> bool
    ensures { result ≡ bytes.is_name name.now }
{
    match name {
        [] => false,
        [first, ..] => *first != b'-' && !is_same(name, b".") && !is_same(name, b".."),
    }
}

fn are_names(path: &[u8]) -> bool
    ensures { result ≡ list_all bytes.is_name (names_in path.now) }
{
    let mut names = names_of(path);
    while let Some(name) = names.next() {
        if !is_name(name) {
            return false;
        }
    }
    true
}

fn is_path(path: &[u8]) -> bool
    ensures { result ≡ paths.is_path path.now }
{
    match path {
        [] => false,
        [first, ..] => *first == b'/' && are_names(path),
    }
}

/// A path, and what follows it.
#[tactic(auto, unfolding(afr_plan::specs::Reading::path_at))]
pub(crate) fn path(bytes: &[u8]) -> Option<(&[u8], &[u8])>
    ensures { option_map (λ x. (names_in x.0.now, x.1.now)) result ≡ path_at bytes.now }
{
    let count = path_len(bytes);
    let path = &bytes[..count];
    if is_path(path) {
        Some((path, &bytes[count..]))
    } else {
        None
    }
}

/// A path other than `/`, and what follows it.
#[tactic(auto, unfolding(afr_plan::specs::Reading::named_path_at))]
pub(crate) fn named_path(bytes: &[u8]) -> Option<(&[u8], &[u8])>
    ensures { option_map (λ x. (names_in x.0.now, x.1.now)) result ≡ named_path_at bytes.now }
{
    let count = path_len(bytes);
    let path = &bytes[..count];
    if is_path(path) && has_names(path) {
        Some((path, &bytes[count..]))
    } else {
        None
    }
}

fn has_names(path: &[u8]) -> bool
    ensures { result ≡ paths.has_names (names_in path.now) }
{
    let mut names = names_of(path);
    names.next().is_some()
}

/// Whether there are too many names, or one is too long.
pub fn is_path_beyond(path: &[u8]) -> bool
    ensures { result ≡ rule.is_path_beyond (names_in path.now) }
{
    let mut names = names_of(path);
    let mut count = 0;
    while let Some(name) = names.next() {
        if count == limits::PATH || name.len() > limits::WORD {
            return true;
        }
        count += 1;
    }
    false
}
