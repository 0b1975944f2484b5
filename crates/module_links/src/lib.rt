//! Linking: where each name that the modules of a graph want ends, or the first name that doesn't end in one place.
#![tactic(auto)]

mod fault;
mod hosts;
mod law;
mod links;
mod own;
mod putting;
mod summaries;

pub use fault::LinkFault;
pub use law::put_endings_link;
pub use links::endings_of;
pub use putting::{Links, relink};
