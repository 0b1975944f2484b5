//! What a reader is given.

use es6_read_parts::Here;

/// The readers of expressions with operators, where a construct begins.
#[derive(Drop)]
pub struct Expressions<'a, G, E, S> {
    pub here: Here<'a, G, E, S>,
}
