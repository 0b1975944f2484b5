//! The early errors of a module (table E of docs/PROFILE.md), of which the first is found, by a walk that is as deep as the
//! module's constructs stand in one another. Places are offsets in bytes from 0.
#![tactic(auto, using(crate::proofs::Walking::walking))]

mod errors;
mod expressions;
mod functions;
mod items;
mod labels;
mod objects;
mod place;
mod statements;
mod targets;
mod walk;

pub use errors::first_early;
