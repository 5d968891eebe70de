//! Texts in a row of bytes, each under its number: a text that many lines share is kept once.
ghost use Rattle.std.specs.Prelude.{◌≡◌, ◌++◌, ◌∷◌, ◌+◌, ◌-◌, ◌≤◌, ◌<◌, ℕ, [], IfOk, IfSome, OnOk, drop, length, slice_index, slice_index_or, take};
ghost use Rattle.afr_report_trace.specs.Texts.{Grows, IsText};

use afr_base::NoMemory;
use std::alloc::Global;
use std::marker::Model;

/// As many as there are places in which a text is looked for.
pub(crate) const SLOTS: usize = 4096;

/// The texts, in the order of their numbers.
#[derive(Drop)]
pub(crate) struct Texts {
    bytes: Vec<u8>,
    /// Where each text begins, and at last where the last one ends.
    cuts: Vec<usize>,
}

impl Model for Texts {
    ghost use Rattle.std.specs.Prelude.{List, ℕ, length};

    ghost Value = { List (List ℕ) };

    ghost use Rattle.afr_report_trace.specs.Texts.{AreCuts, texts_in};

    ghost view = { λ t. texts_in t.bytes.items t.cuts.items };

    ghost invariant = { λ t. AreCuts t.cuts.items (length t.bytes.items) };
}

impl Texts {
    pub(crate) fn new(alloc: Global) -> Result<Texts, NoMemory>
        ensures { IfOk result (λ texts. texts ≡ []) }
    {
        let mut cuts = Vec::with_capacity(alloc, 1)?;
        cuts.push(0)?;
        let bytes = Vec::new(alloc);
        Ok(Texts { bytes, cuts })
    }

    pub(crate) fn len(&self) -> usize
        ensures { result ≡ length self.now }
    {
        self.cuts.len() - 1
    }

    /// The text with a number.
    pub(crate) fn get(&self, number: usize) -> &[u8]
        requires { number < length self.now }
        ensures { result.now ≡ slice_index_or self.now number [] }
    {
        piece(self.bytes.as_slice(), self.cuts.as_slice(), number)
    }

    /// Adds a text, also where there is one like it.
    pub(crate) fn push(&mut self, text: &[u8]) -> Result<(), NoMemory>
        ensures ok { OnOk result (self.new ≡ self.old ++ text.now ∷ []) }
    {
        self.cuts.try_reserve(1)?;
        self.bytes.extend_from_slice(text)?;
        let end = self.bytes.len();
        self.cuts.push_reserved(end);
        Ok(())
    }
}

/// The bytes from a cut to the next.
fn piece<'a>(bytes: &'a [u8], cuts: &[usize], number: usize) -> &'a [u8]
    requires next { number + 1 < length cuts.now }
    requires from { slice_index cuts.now number ≤ slice_index cuts.now (number + 1) }
    requires to { slice_index cuts.now (number + 1) ≤ length bytes.now }
    ensures { result.now ≡ take (slice_index cuts.now (number + 1) - slice_index cuts.now number) (drop (slice_index cuts.now number) bytes.now) }
{
    let from = cuts[number];
    let to = cuts[number + 1];
    &bytes[from..to]
}

/// The length of the longest text.
pub(crate) fn longest(texts: &Texts) -> usize
    ensures { (number : ℕ) → length (slice_index_or texts.now number []) ≤ result }
{
    let mut most = 0;
    for number in 0..texts.len() {
        most = most.max(texts.get(number).len());
    }
    most
}

/// The number of a text, which is added where none like it is found: that is looked for in one place, by its hash. More texts
/// than there are numbers count as want of memory.
pub(crate) fn number_of(texts: &mut Texts, slots: &mut [u32], text: &[u8]) -> Result<u32, NoMemory>
    ensures text { IfOk result (λ number. IsText texts.new number text.now) }
    ensures grown { OnOk result (Grows texts.old texts.new) }
{
    let slot = hash(text) % SLOTS;
    if let Some(number) = known(texts, slots, slot, text) {
        return Ok(number);
    }
    let number = added(texts, text)?;
    if slot < slots.len() {
        slots[slot] = number;
    }
    Ok(number)
}

/// The number in a place, where its text is this one.
fn known(texts: &Texts, slots: &[u32], slot: usize, text: &[u8]) -> Option<u32>
    ensures { IfSome result (λ number. IsText texts.now number text.now) }
{
    let number = *slots.get(slot)?;
    let place = number as usize;
    if place < texts.len() && texts.get(place) == text {
        Some(number)
    } else {
        None
    }
}

/// Adds a text. Its number is that of the texts before it.
fn added(texts: &mut Texts, text: &[u8]) -> Result<u32, NoMemory>
    ensures text { IfOk result (λ number. IsText texts.new number text.now) }
    ensures grown { OnOk result (Grows texts.old texts.new) }
{
    let Ok(number) = u32::try_from(texts.len()) else {
        return Err(NoMemory);
    };
    texts.push(text)?;
    Ok(number)
}

fn hash(text: &[u8]) -> usize {
    let mut sum: usize = 0;
    for byte in text {
        sum = sum.wrapping_mul(31).wrapping_add(usize::from(*byte));
    }
    sum
}
