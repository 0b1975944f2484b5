//! Environments (ECMA-262, 6th edition, 8.1; 5.1 edition, 10.2).

ghost use Rattle.std.specs.Prelude.{◌≡◌, ◌∷◌, [], IfOk, reverse};

use std::alloc::{AllocError, Global};
use std::marker::Model;
use std::rc::Rc;

/// The numbers of the records of a scope, innermost first. It has several owners.
#[derive(Drop)]
pub struct Environment {
    /// innermost last
    records: Rc<Vec<usize>>,
}

impl Model for Environment {
    ghost use Rattle.std.specs.Prelude.{ℕ, List, reverse};

    ghost Value = { List ℕ };

    ghost view = { λ e. reverse e.records.value.items };
}

impl Environment {
    /// No record.
    pub fn new(alloc: Global) -> Result<Environment, AllocError>
        ensures { IfOk result (λ e. e ≡ []) }
    {
        let records = Rc::new(alloc, Vec::new(alloc))?;
        Ok(Environment { records })
    }

    /// These numbers, innermost last.
    pub fn of(alloc: Global, records: Vec<usize>) -> Result<Environment, AllocError>
        ensures { IfOk result (λ e. e ≡ reverse records.items) }
    {
        let records = Rc::new(alloc, records)?;
        Ok(Environment { records })
    }

    /// The numbers, innermost last.
    pub fn as_slice(&self) -> &[usize]
        ensures { reverse result.now ≡ self.now }
    {
        self.records.as_slice()
    }

    /// One more owner of the same.
    pub fn share(&self) -> Result<Environment, AllocError>
        ensures { IfOk result (λ e. e ≡ self.now) }
    {
        let records = self.records.clone()?;
        Ok(Environment { records })
    }

    /// The environment with the number of one more record, which is the innermost.
    pub fn with(&self, alloc: Global, number: usize) -> Result<Environment, AllocError>
        ensures { IfOk result (λ e. e ≡ number ∷ self.now) }
    {
        let mut records = Vec::from_slice(alloc, self.records.as_slice())?;
        records.push(number)?;
        let records = Rc::new(alloc, records)?;
        Ok(Environment { records })
    }
}
