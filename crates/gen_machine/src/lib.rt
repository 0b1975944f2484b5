//! What machines of generators are made of: states, jumps, cases, loops, regions and steps. The walk over the statements of a
//! body stands in a crate of its own.
#![tactic(auto)]

mod beginning;
mod build;
mod cases;
mod going;
mod growing;
mod jumps;
mod loops;
mod numbers;
mod regions;
mod steps;

pub use beginning::{outermost, registers, started};
pub use cases::{dispatching, goes_on, push_case};
pub use growing::{begins, close_body, goes_then, says};
pub use jumps::{jumped, returned, yielded};
pub use loops::{headed, loop_place, open_label, turned};
pub use numbers::{next, sum};
pub use regions::{close_handler, close_last, open_finally, open_handler, open_last, open_region};
pub use steps::with_machine;
