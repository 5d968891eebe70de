//! What the lines of a work tell of the machine that wrote them: laws of walks and reads.

mod changes;
mod reads;
mod walks;

pub use changes::a_change_stands_at_its_object;
pub use reads::{a_lookup_tells_its_lines, an_honest_read_fits};
pub use walks::a_walk_tells_its_lines;
