//! What a reader is given.

use es6_read_parts::Here;

/// The readers of statements and declarations, where a construct begins.
#[derive(Drop)]
pub struct Statements<'a, G, E, S> {
    pub here: Here<'a, G, E, S>,
}
