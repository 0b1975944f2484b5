//! The names that the lowering draws.

ghost use Rattle.std.specs.Prelude.{◌≡◌, IfOk, OnOk};
ghost use Rattle.core_ast.specs.Names.{next};
ghost use Rattle.lowering_rules.specs.Naming.{drawn_iteration, with_temporary};

use core_ast::{Fresh, Var};
use sqlite_items::Items;
use std::alloc::AllocError;

/// The names that are drawn, and those of them that are temporaries of the function at hand.
#[derive(Drop)]
pub struct Names {
    pub fresh: Fresh,
    pub locals: Items<Var>,
}

/// What a walk over an iterator works with: the iterator, whether it is to be closed, the result of a step, its value, and
/// what is thrown.
#[derive(Clone, Copy)]
pub struct Iteration {
    pub iterator: Var,
    pub is_open: Var,
    pub result: Var,
    pub value: Var,
    pub thrown: Var,
}

impl Names {
    /// A new temporary.
    pub fn temporary(&mut self) -> Result<Var, AllocError>
        ensures drawn { IfOk result (λ x. x ≡ next self.old.fresh) }
        ensures kept { OnOk result (self.new ≡ with_temporary self.old) }
    {
        let var = self.fresh.name()?;
        self.locals.push(var)?;
        Ok(var)
    }

    /// The names of a new walk over an iterator.
    pub fn iteration(&mut self) -> Result<Iteration, AllocError>
        ensures { IfOk result (λ x. record { value = x; names = self.new } ≡ drawn_iteration self.old) }
    {
        let iterator = self.temporary()?;
        let is_open = self.temporary()?;
        let result = self.temporary()?;
        let value = self.temporary()?;
        let thrown = self.fresh.name()?;
        Ok(Iteration {
            iterator,
            is_open,
            result,
            value,
            thrown,
        })
    }
}
