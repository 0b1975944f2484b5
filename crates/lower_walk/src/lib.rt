//! The form of the walk that lowers the tree of a module to a core: what stands round a node, the walkers that an arm is handed, and what
//! arms for every kind of node ask for. The arms themselves stand in crates above, outside any cycle; so does the tie, which hands
//! the walkers to each other. Each does exactly what module_lowering's fold says of the node, or runs out of memory.
#![tactic(auto)]

mod around;
mod contexts;
mod copies;
mod here;
mod keys;
pub mod lower_items;
pub mod lower_names;
mod written;

pub use around::Around;
pub use contexts::{in_arrow, in_function, in_places, in_subject, targeting};
pub use here::Here;
pub use keys::{member_form, member_kind, symbol_of};
pub use written::{iterator_text, whole, written_key, written_text};
