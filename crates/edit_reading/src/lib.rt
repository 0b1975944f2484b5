//! The list of edits that stands in a file, and the files that its edits put.
#![tactic(auto)]

mod fault;
mod line;
mod reading;
mod taking;

pub use crate::fault::{EditsFault, Unread};
pub use crate::line::edits_line;
pub use crate::taking::take_edits;
