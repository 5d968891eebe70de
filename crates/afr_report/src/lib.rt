//! The report of a run, as text: the volume, its clients and healers with what they got, and what needs heal;
//! and what else is written of a volume.
#![tactic(auto)]

mod clients;
mod commands;
mod events;
mod healers;
mod heals;
mod of_volume;
mod own;
mod progress;
mod report;
mod summed;
mod workers;

pub use events::started;
pub use of_volume::{gathered_trace, info_text, report_text};
pub use report::print_report;
pub use summed::{print_summary, summary_text};
pub use workers::is_untried;
