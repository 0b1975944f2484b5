//! What the readers above are given.

use es6_cursor::Flags;
use std::alloc::AllocError;
use std::marker::PhantomData;

/// Where a construct begins: how many more constructs may open there, how the grammar is parametrized (ECMA-262, 6th edition, 5.1.5),
/// and the readers of expressions and of statements that stand one construct deeper. The nodes are those of the maker.
pub struct Here<'a, G, E, S> {
    pub room: u16,
    pub flags: Flags,
    pub expression: &'a E,
    pub statement: &'a S,
    pub maker: PhantomData<G>,
}

impl<G, E, S> Clone for Here<'_, G, E, S> {
    fn clone(&self) -> Result<Self, AllocError> {
        Ok(*self)
    }
}

impl<G, E, S> Copy for Here<'_, G, E, S> {}
