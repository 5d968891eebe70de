//! A round over the heal index of one brick.
ghost use Rattle.std.specs.Prelude.{◌≡◌, ◌-◌, ◌^◌, ◌<◌, IfSome};
ghost use Rattle.afr_heal_round.specs.List.Round.{begun, kind_at, listed_at, next_due, with_list, without_next};
ghost use Rattle.afr_model.specs.Rounds.{kind_within};

use afr_base::{BrickId, Gfid, Kind, What};
use afr_object::IndexList;
use std::marker::Model;

/// The heals of a round: of each object in the list its attributes, then the bytes of a file or the
/// names of a directory. Each call takes constant time, and none takes memory.
#[derive(Drop)]
pub struct Round {
    brick: BrickId,
    list: Option<IndexList>,
    /// The object that is healed next, by its place in the list.
    at: usize,
    /// Its attributes were given.
    within: bool,
}

impl Model for Round {
    ghost use Rattle.afr_heal_round.specs.List.Round.{RoundProgress, given};

    ghost Value = { RoundProgress };

    ghost view = { λ r. record { brick = r.brick; list = r.list; given = given r.at r.within } };
}

impl Round {
    /// A round over the index of this brick, which has shown no list yet.
    pub fn new(brick: BrickId) -> Round
        ensures { result ≡ begun brick }
    {
        Round {
            brick,
            list: None,
            at: 0,
            within: false,
        }
    }

    /// The brick whose index the round goes over.
    pub fn brick(&self) -> BrickId
        ensures { result ≡ self.now.brick }
    {
        self.brick
    }

    /// The brick's index has this list. The heals are those of the list, from the first on.
    pub fn give_list(&mut self, list: IndexList)
        ensures { self.new ≡ with_list list self.old }
    {
        self.list = Some(list);
        self.at = 0;
        self.within = false;
    }

    /// The object and kind that are healed next; none where all were given, or no list was.
    #[tactic(auto, using(crate::proofs::List::Heals::heal_here))]
    pub fn next_heal(&mut self) -> Option<(Gfid, Kind)>
        ensures due { result ≡ next_due self.old }
        ensures taken { self.new ≡ without_next self.old }
    {
        let (object, what) = object_at(&self.list, self.at)?;
        let kind = kind_at(self.within, what);
        if self.within {
            self.at += 1;
            self.within = false;
        } else {
            self.within = true;
        }
        Some((object, kind))
    }
}

/// The object at a place of the list.
fn object_at(list: &Option<IndexList>, at: usize) -> Option<(Gfid, What)>
    ensures here { result ≡ listed_at at list.now }
    ensures room { IfSome result (λ _. at < 2 ^ 64 - 1) }
{
    let Some(list) = list else {
        return None;
    };
    list.as_slice().get(at).copied()
}

/// The attributes, or what is healed after them.
fn kind_at(within: bool, what: What) -> Kind
    ensures { result ≡ kind_at within what }
{
    if within {
        kind_within(what)
    } else {
        Kind::Attrs
    }
}

/// The bytes of a file, or the names of a directory.
fn kind_within(what: What) -> Kind
    ensures { result ≡ kind_within what }
{
    match what {
        What::File => Kind::Bytes,
        What::Dir => Kind::Names,
    }
}
