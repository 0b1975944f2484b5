//! Stacks.

ghost use Rattle.std.specs.Prelude.{◌≡◌, ◌∷◌, [], MatchOption, OnOk, reverse};

use std::alloc::{AllocError, Global};
use std::marker::Model;

/// A stack, which contracts see as the list of what is on it, the top first.
#[derive(Drop)]
pub struct Stack<T> {
    items: Vec<T>,
}

impl<T> Model for Stack<T> {
    ghost use Rattle.std.specs.Prelude.{List, reverse};

    ghost Value = { List T };

    ghost view = { λ s. reverse s.items.items };
}

impl<T> Stack<T> {
    pub fn new(alloc: Global) -> Stack<T>
        ensures { result ≡ [] }
    {
        Stack {
            items: Vec::new(alloc),
        }
    }

    /// What is on it, the top last.
    pub fn as_slice(&self) -> &[T]
        ensures { reverse result.now ≡ self.now }
    {
        self.items.as_slice()
    }

    /// Takes the top, if there is one.
    pub fn pop(&mut self) -> Option<T>
        ensures { MatchOption result ((self.old ≡ []) × (self.new ≡ [])) (λ top. self.old ≡ top ∷ self.new) }
    {
        self.items.pop()
    }
}

impl<T: Drop> Stack<T> {
    pub fn push(&mut self, item: T) -> Result<(), AllocError>
        ensures { OnOk result (self.new ≡ item ∷ self.old) }
    {
        self.items.push(item)?;
        Ok(())
    }
}
