//! What the lines of a work tell of the machine of a command on a name: its walk, the read of its name, its transaction, and
//! the removal of the directory to which an rmdir was led.

mod entries;

pub use entries::an_entry_tells_its_lines;
