//! The edits of a list, done in order over files that are lent: files are put and dropped, and a graph is built again and again.
//!
//! What builds is a trait, so that no tree is seen here.
#![tactic(auto)]

mod by_edits;
mod doing;
mod fault;
mod taken;
mod text;

pub use crate::by_edits::ByEdits;
pub use crate::doing::{BuildsAgain, do_edits};
pub use crate::fault::BuildFault;
pub use crate::taken::Taken;
pub use crate::text::{built_text, refused_text};
