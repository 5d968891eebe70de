//! The copies that a rule chooses from, gathered brick by brick.
ghost use Rattle.std.specs.Prelude.{◌≡◌, ◌<◌, [], ◌∷◌, ◌++◌, if◌then◌else◌, length, map};
ghost use Rattle.afr_rule.specs.Copies.{copy_in, len_at};

use crate::candidate::Candidate;
use afr_base::{BrickId, BrickSet};
use afr_choice::Looked;
use std::marker::Model;

/// Up to five candidates, without memory of their own.
#[derive(Drop)]
pub struct Candidates {
    found: [Candidate; 5],
    count: usize,
}

impl Model for Candidates {
    ghost use Rattle.std.specs.Prelude.{List, ◌≤◌, take};
    ghost use Rattle.afr_rule.specs.declared.candidate.Candidate.{Candidate};

    ghost Value = { List Candidate };

    ghost view = { λ c. take c.count c.found };

    ghost invariant = { λ c. c.count ≤ 5 };
}

impl Candidates {
    fn none() -> Candidates
        ensures { result ≡ [] }
    {
        Candidates {
            found: [Candidate {
                brick: BrickId(0),
                len: 0,
            }; 5],
            count: 0,
        }
    }

    /// One more, if the flag is set.
    fn push_if(&mut self, flag: bool, candidate: Candidate)
        requires { length self.old < 5 }
        ensures { self.new ≡ (if flag then self.old ++ candidate ∷ [] else self.old) }
    {
        if flag {
            self.found[self.count] = candidate;
            self.count += 1;
        }
    }

    /// The copies on the bricks of a set, the lowest first.
    pub fn of(set: BrickSet, looked: &Looked) -> Candidates
        ensures { result ≡ map (copy_in looked.now) set }
    {
        set.is_of_five();
        let mut copies = Candidates::none();
        for x in 0..5u8 {
            copies.push_if(set.has(BrickId(x)), copy_in(looked, BrickId(x)));
        }
        copies
    }

    pub fn as_slice(&self) -> &[Candidate]
        ensures { result.now ≡ self.now }
    {
        &self.found[..self.count]
    }
}

/// The length that a brick showed.
pub fn len_at(looked: &Looked, brick: BrickId) -> u32
    requires { brick.0 < 5 }
    ensures { result ≡ len_at brick.0 looked.now }
{
    match &looked.views[brick.0 as usize] {
        Some(view) => view.len,
        None => 0,
    }
}

fn copy_in(looked: &Looked, brick: BrickId) -> Candidate
    requires { brick.0 < 5 }
    ensures { result ≡ copy_in looked.now brick.0 }
{
    Candidate {
        brick,
        len: len_at(looked, brick),
    }
}
