//! A crawl: rounds of the first healer that heal nothing, and the heals of the items that they list as tasks of the two others.
#![tactic(auto)]

mod crawling;
mod crew;
mod due;
mod ending;
mod giving;
mod next;
mod passes;
mod putting;
mod stepping;
mod taking;
mod threads;
mod turns;
mod workshop;

pub use crawling::crawl_here;
pub use threads::crawl;
