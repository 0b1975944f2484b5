//! What the runs of all evaluators share: where a run stands and what its step answers there, and where the sites of a text stand.
#![tactic(auto)]

mod copies;
mod placing;
mod stage;

pub use placing::place_in;
pub use stage::{Stage, status_of};
