//! A client's present work: one type over the machines that carry out its commands.
#![tactic(auto)]

mod begin;
mod laws;
mod on_heap;
mod present;
mod spares;
mod work;

pub use laws::{a_work_keeps_five_places, a_work_reads_good_copies, a_work_stays_sound};
pub use on_heap::OnHeap;
pub use present::Work;
pub use work::WorkMachine;
