//! What a reader is given.

use es6_read_parts::Here;

/// The readers of a module's items, where one begins.
#[derive(Drop)]
pub struct ModuleItems<'a, G, E, S> {
    pub here: Here<'a, G, E, S>,
}
