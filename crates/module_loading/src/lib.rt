//! Loading a graph of modules from files: the entry first, and depth first by requests, each path once.
//!
//! What reads one module is a trait, so that this stands on no reader, and no tree is seen here. What hands out the modules is one
//! too, so that modules which were read before can be taken again.
#![tactic(auto)]

mod content;
mod fault;
mod finding;
mod following;
mod graph;
mod loading;
mod numbers;
mod path_list;
mod reader;
mod supply;
mod unread;
mod waiting;

pub use fault::LoadFault;
pub use finding::{ByFiles, FindsFiles};
pub use graph::{Loads, load, load_from};
pub use reader::ReadsModules;
pub use supply::{ReadsAnew, SuppliesModules};
pub use unread::Unread;
