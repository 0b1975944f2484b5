//! What the names of a script are called.
#![tactic(auto)]

mod naming;

pub use naming::{helped_names, host_list, hosts_of, names_of, sign, take_names};
