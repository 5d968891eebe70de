//! What a report tells of a crawl: the tasks of its workers, in the place of their rounds.

mod items;
mod of_volume;
mod report;
mod tally;
mod task_heals;

pub use of_volume::{crawl_text, is_untried};
