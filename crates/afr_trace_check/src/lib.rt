//! Whether a trace is right, judged line by line by a tally of the lines before.
#![tactic(auto)]

mod blamed;
mod checking;
mod filling;
mod finding;
mod honest;
mod showing;
mod told;

pub use blamed::is_blamed;
pub use checking::check;
pub use filling::filled;
pub use finding::{CheckStop, Finding, Rule};
pub use honest::is_honest;
pub use showing::shown_by;
