//! Images of runs: a plan, and who made each line of its log, at which brick, and with what outcome; as bytes and back.
#![tactic(auto)]

mod frame;
mod image;
mod print;
mod read;
mod recorded;
mod step;
mod steps;

pub use image::{Image, ImageFault, ImageStop, StepList, codes};
pub use print::{print_image, print_run};
pub use read::{one_image_for_bytes, read_image, read_image_for};
pub use recorded::step_at;
pub use step::{Step, step_of};
