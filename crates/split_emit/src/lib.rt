//! The scripts of a linked graph, one for each module.
#![tactic(auto)]

mod cores;
mod scripts;
mod splitting;
mod text;
mod writing;

pub use scripts::SplitScript;
pub use splitting::{split, split_text};
