//! A walk through a module that meets what is outside the profile.

ghost use Rattle.std.specs.Prelude.{◌≡◌, ◌++◌, length, IfOk, OnOk};
ghost use Rattle.outside_constructs.specs.Walked.{left};

use early_findings::Finder;
use module_scopes::{Bindings, Environment};
use std::alloc::{AllocError, Global};

/// The first of what was met, and the scope that the walk stands in.
#[derive(Drop)]
pub(crate) struct Walk {
    pub(crate) finder: Finder,
    pub(crate) environment: Environment,
}

impl Walk {
    pub(crate) fn alloc(&self) -> Global {
        self.finder.alloc()
    }

    /// Enters a scope that declares these names. The answer is what `leave` takes.
    pub(crate) fn enter(&mut self, bindings: Bindings) -> Result<usize, AllocError>
        ensures scope { OnOk result (self.new ≡ record self.old { environment = record self.old.environment { known = bindings ++ self.old.environment.known } }) }
        ensures mark { IfOk result (λ mark. mark ≡ length self.old.environment.known) }
    {
        self.environment.enter(bindings)
    }

    /// Leaves the innermost scope, where so many names were declared before it was entered.
    pub(crate) fn leave(&mut self, mark: usize)
        ensures { self.new ≡ left mark self.old }
    {
        self.environment.leave(mark);
    }
}
