//! What a method of this crate goes by: what stands round the node, and the walkers of what stands inside it.

ghost use Rattle.std.specs.Prelude.{IfOk, ◌≡◌};
ghost use Rattle.lower_walk.specs.Handed.{done_at};
ghost use Rattle.module_lowering.specs.Lowered.{pattern_lowered};
ghost use Rattle.module_lowering.specs.Lowering.{define, Lowers};
ghost use Rattle.module_lowering.specs.Names.{places, vars_at};

use core_ast::{CoreFunction, FunctionId, Var};
use es6_ast::Pattern;
use lower_listed::{name_places, pattern_names};
use lower_params::placed;
use lower_walk::Here;
use module_lowering::Lowerer;
use sqlite_items::Items;
use std::alloc::AllocError;

/// The walk over a function or a class.
pub(crate) struct Walk<'a, E, P, S, F> {
    pub here: Here<'a, E, P, S, F>,
}

impl<E, P, S, F> Clone for Walk<'_, E, P, S, F> {
    fn clone(&self) -> Result<Self, AllocError> {
        Ok(*self)
    }
}

impl<E, P, S, F> Copy for Walk<'_, E, P, S, F> {}

impl<E, P, S, F> Walk<'_, E, P, S, F> {
    /// The function goes into the table.
    pub fn define(
        &self,
        function: CoreFunction,
        state: &mut Lowerer,
    ) -> Result<FunctionId, AllocError>
        ensures { Lowers (done_at self.now.here.around (define function) state.old) result state.new }
    {
        placed(function, &mut state.functions)
    }

    /// The variables of the names that a pattern binds.
    pub fn names_vars(&self, pattern: &Pattern) -> Result<Items<Var>, AllocError>
        ensures { IfOk result (λ xs. xs ≡ vars_at (places (pattern_lowered pattern.now).names) self.now.here.around.bindings.now self.now.here.around.context.now) }
    {
        let alloc = self.here.around.alloc;
        let names = pattern_names(alloc, pattern)?;
        let places = name_places(alloc, names.as_slice())?;
        let context = self.here.around.context;
        let bindings = self.here.around.bindings;
        bindings.vars_at(alloc, context, places.as_slice())
    }
}
