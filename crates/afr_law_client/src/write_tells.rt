//! What the lines of a work tell of the machine of a change: its walk and its transaction together.

mod writes;

pub use writes::a_write_tells_its_lines;
