//! What stands round a pattern.

use lower_walk::Here;

/// The functions that lower patterns and their parts, where a pattern stands.
#[derive(Drop)]
pub(crate) struct Patterns<'a, E, P, S, F> {
    pub here: Here<'a, E, P, S, F>,
}
