//! The trees of modules as lines, for comparisons: a node a line, with its begin and end in bytes, before the nodes of its parts.
#![tactic(auto)]

mod expressions;
mod functions;
mod items;
mod keeping;
mod lines;
mod names;
mod nodes;
mod operators;
mod patterns;
mod statements;
mod text;
mod words;

pub use keeping::kept;
pub use lines::Lines;
