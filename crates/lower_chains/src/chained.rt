//! How far a chain has come.

use lowering_rules::reference_rules::Reached;

/// A chain of accesses and calls so far, and whether one of its calls has its place, as at most one has.
#[derive(Drop)]
pub(crate) struct Chained {
    pub reached: Reached,
    pub sited: bool,
}
