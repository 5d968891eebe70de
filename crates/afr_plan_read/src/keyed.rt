//! Hashing of a plan's words: without a key where they are few, and else under one that a plan can't choose.
ghost use Rattle.std.specs.Prelude.{◌≡◌, [], ◌∷◌, List, ℕ, nat_eq};
ghost use Rattle.std.specs.Cmp.{on_equiv, on_per, partial_equiv_from_equiv};
ghost use Rattle.std.specs.Cmp.Lexicographic.{nat_list_eq_equiv, pointwise};
ghost use Rattle.std.specs.Hash.DefaultHasher as sip;
ghost use Rattle.std.proofs.Common.{ap};
ghost use Rattle.std.proofs.lemmas.Slice.Eq.{bytes_eq-Decides};
ghost use Rattle.sha2.specs.Sha256.{sha256};

use sha2::{Digest, Sha256};
use std::hash::{BuildHasher, DefaultHasher, Hash, Hasher};
use std::marker::Model;

/// How many words a table hashes without a key, beside the names of the opening files, which nobody
/// picks. Where a new one comes to so many, all are hashed anew under the key of the text. However the
/// words are chosen, a look-up compares a word with at most 32 others, and a word is looked up at each
/// of its sights: where all collide, a plan takes some two and a half times as long to read as another
/// of its length. With 256 words it would take ten times as long. Most plans have fewer than 32, and no
/// digest is taken of their text.
pub(crate) const KEYED_FROM: usize = 32;

/// Makes the hashers of one plan's tables.
#[derive(Clone, Copy, Drop)]
pub(crate) struct Keyed {
    initial: DefaultHasher,
}

impl Keyed {
    /// The same hashers for every plan: whoever knows them can pick words that collide.
    pub(crate) fn unkeyed() -> Keyed
        ensures { result.initial ≡ sip.initial }
    {
        Keyed {
            initial: DefaultHasher::new(),
        }
    }

    /// The hashers of the plan that has this text. They begin where the digest of the whole text has
    /// left them: whoever picks words that collide has changed the text, and with it the hashes. Time
    /// is linear in its length.
    pub(crate) fn by_text(text: &[u8]) -> Keyed
        ensures { result.initial ≡ sip.write sip.initial (sha256 text.now) }
    {
        let digest = Sha256::digest(text);
        let mut initial = DefaultHasher::new();
        initial.write(digest.as_slice());
        Keyed { initial }
    }
}

/// The key of a plan's text, for all its tables: the digest is taken once, where the first of them has many words.
#[derive(Drop)]
pub(crate) struct TextKey<'t> {
    text: &'t [u8],
    made: Option<Keyed>,
}

impl<'t> Model for TextKey<'t> {
    ghost use Rattle.std.specs.Prelude.{List, ℕ, ◌≡◌, IfSome};
    ghost use Rattle.std.specs.Hash.DefaultHasher as sip;
    ghost use Rattle.sha2.specs.Sha256.{sha256};

    ghost Value = { List ℕ };

    ghost view = { λ k. k.text.now };

    ghost invariant = { λ k. IfSome k.made (λ keyed. keyed.initial ≡ sip.write sip.initial (sha256 k.text.now)) };
}

impl<'t> TextKey<'t> {
    pub(crate) fn new(text: &'t [u8]) -> TextKey<'t>
        ensures { result ≡ text.now }
    {
        TextKey { text, made: None }
    }

    /// The hashers of this text.
    pub(crate) fn get(&mut self) -> Keyed
        ensures value { result.initial ≡ sip.write sip.initial (sha256 self.old) }
        ensures same { self.new ≡ self.old }
    {
        match self.made {
            Some(keyed) => keyed,
            None => {
                let keyed = Keyed::by_text(self.text);
                self.made = Some(keyed);
                keyed
            }
        }
    }
}

/// A word as a table keeps it. It is hashed by one write, and so in words of 8 bytes and not byte by byte.
#[derive(Drop)]
pub(crate) struct Word {
    pub bytes: Vec<u8>,
}

impl PartialEq for Word {
    ghost eq = { λ x y. pointwise nat_eq x.bytes.items y.bytes.items };

    ghost laws = { on_per (λ x. x.bytes.items) (partial_equiv_from_equiv nat_list_eq_equiv) };

    fn eq(&self, other: &Word) -> bool {
        self.bytes.as_slice() == other.bytes.as_slice()
    }
}

impl Eq for Word {
    ghost laws = { on_equiv (λ x. x.bytes.items) nat_list_eq_equiv };
}

impl Hash for Word {
    ghost hash_input = { λ w. w.bytes.items ∷ [] };

    ghost respects_eq = { λ x y e. ap (λ (s : List ℕ). s ∷ []) ((bytes_eq-Decides x.bytes.items y.bytes.items).0 e) };

    fn hash<H: Hasher>(&self, state: &mut H) {
        state.write(self.bytes.as_slice());
    }
}

impl BuildHasher for Keyed {
    type Hasher = DefaultHasher;

    ghost build_hasher = { λ keyed. keyed.initial };

    fn build_hasher(&self) -> DefaultHasher {
        self.initial
    }
}
