//! What linking asks of a module.

use crate::place::{Home, Place};
use shared_text::Name;
use sqlite_items::Items;

/// What a module exports, and which names it wants, each list in text order.
#[derive(Debug, Drop)]
pub struct Summary {
    pub exports: Items<Export>,
    /// where the modules of `export *` are
    pub stars: Items<Home>,
    /// the names that it imports or exports from elsewhere
    pub wants: Items<Place>,
}

/// A name that a module exports, and where one goes on from it.
#[derive(Debug, Drop)]
pub struct Export {
    pub name: Name,
    pub source: Place,
}
