//! Building a graph of modules again after edits: modules whose bytes haven't changed are taken from earlier builds, and only the others
//! are read.
//!
//! What reads a module and what links a graph are traits, so that no tree is seen here.
#![tactic(auto)]

mod building;
mod built;
mod fault;
mod kept;
mod opening;
mod relinking;
mod shelf;
mod source;

pub use crate::building::Rebuild;
pub use crate::fault::RebuildFault;
pub use crate::opening::open_requests;
pub use crate::relinking::RelinksModules;
