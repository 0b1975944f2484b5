//! What an arm is given.

use lower_walk::Here;

/// The arms of expressions, where a node stands.
#[derive(Drop)]
pub(crate) struct Expressions<'a, E, P, S, F> {
    pub(crate) here: Here<'a, E, P, S, F>,
}
