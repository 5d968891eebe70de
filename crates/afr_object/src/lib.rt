//! Objects as a brick keeps them: views, changes, repairs, loads, and the lists and maps in which they stand.
#![tactic(auto)]

mod change;
mod chunk;
mod entry;
mod list;
mod sorted_map;
mod try_copy;
mod views;

pub use change::{Change, Load, Repair, object_of};
pub use chunk::Chunk;
pub use entry::{AttrList, Entry, IndexList, NameList, View};
pub use list::List;
pub use sorted_map::SortedMap;
pub use try_copy::TryCopy;
pub use views::Views;
