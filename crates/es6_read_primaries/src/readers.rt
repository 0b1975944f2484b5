//! What a reader is given.

use es6_read_parts::Here;

/// The readers of what operators stand between, where a construct begins.
#[derive(Drop)]
pub struct Primaries<'a, G, E, S> {
    pub here: Here<'a, G, E, S>,
}
