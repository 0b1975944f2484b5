//! Patterns, and the closing of iterators, for steps of a run of modules.
#![tactic(auto)]

mod closing;
mod elements;
mod iteration;
mod members;
mod patterns;
mod pending;
mod rests;
mod targets;

pub use closing::{closes, closes_unless};
pub use elements::{
    element_referred, element_stepped, element_valued, elements_on, elements_rest, skipped,
};
pub use iteration::operate_alone;
pub use members::{member_referred, member_valued, members_on, part_named};
pub use patterns::destructure;
pub use pending::PatternWork;
pub use rests::{rest_referred, rest_stepped, rest_valued};
pub use targets::{optional, put_referred, settled};
