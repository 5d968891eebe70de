//! The next line of a heal.
use afr_base::BrickId;

/// What a heal does next: it asks a brick, begins a part, or ends. Its request stands where its asker wants it.
#[derive(Clone, Copy, Debug)]
pub enum Coming {
    Ask(BrickId),
    Begin,
    End,
}
