//! The heap: objects with their properties, and what the standard's operations do to them.
#![tactic(auto)]

mod class;
mod heap;
mod index;
mod key;
mod length;
mod object;
mod prop;
mod table;

pub use class::Class;
pub use heap::Heap;
pub use index::array_index;
pub use key::Key;
pub use prop::{HeapFault, Prop};
