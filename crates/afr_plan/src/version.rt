//! The versions of a plan's text.

/// In version 1 a volume has three bricks and says no number; in version 2 it says how many it has, three or five.
#[derive(Clone, Copy, Debug)]
pub enum Version {
    One,
    Two,
}
