//! What is round a node.

ghost use Rattle.std.specs.Prelude.{◌≡◌, ◌<◌, ◌-◌};

use crate::lower_names::Bindings;
use module_lowering::Context;
use std::alloc::{AllocError, Global};

/// How many nodes may still stand inside one another, where memory comes from, what names stand for, and what is round the node.
pub struct Around<'a> {
    pub room: u64,
    pub alloc: Global,
    pub bindings: &'a Bindings<'a>,
    pub context: &'a Context,
}

impl Clone for Around<'_> {
    fn clone(&self) -> Result<Self, AllocError> {
        Ok(*self)
    }
}

impl Copy for Around<'_> {}

impl<'a> Around<'a> {
    /// For what stands inside the node.
    pub fn inner(self) -> Around<'a>
        requires { 0 < self.room }
        ensures { result ≡ record self.entry { room = self.entry.room - 1 } }
    {
        Around {
            room: self.room - 1,
            ..self
        }
    }
}
