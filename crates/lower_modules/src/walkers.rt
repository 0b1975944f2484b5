//! The walkers of what stands in modules.

use std::alloc::AllocError;

/// How many nodes may stand inside one another, and the walkers of expressions, of patterns that take a value, of statements, and of
/// functions that are no arrows.
pub struct Walkers<'a, E, P, S, F> {
    pub room: u64,
    pub expression: &'a E,
    pub pattern: &'a P,
    pub statement: &'a S,
    pub function: &'a F,
}

impl<E, P, S, F> Clone for Walkers<'_, E, P, S, F> {
    fn clone(&self) -> Result<Self, AllocError> {
        Ok(*self)
    }
}

impl<E, P, S, F> Copy for Walkers<'_, E, P, S, F> {}
