//! What a core of modules has besides what a script has: the values that no program sees, what contexts keep, what is pending, and
//! what is stored beside the heap.
#![tactic(auto)]

mod marks;
mod store;
mod work;

pub use marks::{KeptCell, Mark, Own};
pub use store::{CoreStore, Exported, Generator, Static, Template};
pub use work::{CoreList, CoreWork};
