//! What a round heals: the list of the objects of one brick that may need heal, and how far the healer is in it.

mod round;

pub(crate) use round::Round;
