//! The constructs of a module that are outside the profile (table U of docs/PROFILE.md), of which the first is found, by a walk
//! that is as deep as the module's constructs stand in one another.
#![tactic(auto, using(crate::proofs::Walking::walked))]

mod chains;
mod expressions;
mod functions;
mod globals;
mod items;
mod names;
mod objects;
mod outside;
mod scopes;
mod statements;
mod targets;
mod walk;

pub use outside::first_outside;
