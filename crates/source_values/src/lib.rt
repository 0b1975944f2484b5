//! Values that are handed to pending work of a run of modules, by area.
#![tactic(auto)]

mod assignments;
mod calls;
mod classes;
mod generators;
mod lists;
mod literals;
mod loops;
mod operators;
mod patterns;
mod pending;
mod statements;
mod values;

pub use pending::ValueWork;
pub use values::value_handed;
