//! What the lines of a client's present work tell of it, whichever machine carries out its command.

mod works;

pub use works::a_work_tells_its_lines;
