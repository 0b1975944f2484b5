//! Graphs of modules as the program has them: read from files, and linked. Here alone whole modules are owned, so that here alone
//! they are let go.
#![tactic(auto)]

mod checking;
pub mod graph_checks;
mod linking;
mod loading;
pub mod module_checks;
mod reading;
mod rebuilding;

pub use crate::module_checks::ModuleFault;
pub use checking::{CheckFault, UsesGraph, check};
pub use linking::link;
pub use loading::{Modules, load};
pub use module_links::LinkFault;
pub use module_loading::LoadFault;
pub use reading::read_module;
pub use rebuilding::Rebuild;
