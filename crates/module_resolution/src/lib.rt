//! That the ends of names over the summaries of modules are those of the graph: the law on which linking rests.
#![tactic(auto)]

mod resolution;

pub use resolution::outcomes_are_resolutions;
