//! The walkers that are handed in, and what is made by one of them.

ghost use Rattle.std.specs.Prelude.{map};
ghost use Rattle.std.specs.Option.{option_map};
ghost use Rattle.lower_walk.specs.Handed.{done_at, HasExpressions, HasFunctions, HasPatterns, HasStatements};
ghost use Rattle.lowering_rules.specs.Naming.{drawn_iteration};
ghost use Rattle.module_lowering.specs.Expressions.{optional, valued};
ghost use Rattle.module_lowering.specs.Lowered.{expression_lowered, function_lowered, pattern_lowered, statement_lowered};
ghost use Rattle.module_lowering.specs.Lowering.{all_by, drawing, Lowers, option, raw, temporary};
ghost use Rattle.module_lowering.specs.Statements.{under};

use crate::around::Around;
use core_ast::{CoreExpr, CoreStat, FunctionId, Var};
use es6_ast::{Expression, Function, Pattern, Statement};
use lower_references::value_of;
use lowering_rules::Iteration;
use lowering_rules::reference_rules::Reached;
use module_lowering::{FunctionForm, Lowerer, Role};
use sqlite_items::{Boxed, Items};
use std::alloc::AllocError;

/// Where a node stands, and the walkers of what stands inside it: of expressions, of patterns that take a value, of statements, and
/// of functions that are no arrows.
pub struct Here<'a, E, P, S, F> {
    pub around: Around<'a>,
    pub expression: &'a E,
    pub pattern: &'a P,
    pub statement: &'a S,
    pub function: &'a F,
}

impl<E, P, S, F> Clone for Here<'_, E, P, S, F> {
    fn clone(&self) -> Result<Self, AllocError> {
        Ok(*self)
    }
}

impl<E, P, S, F> Copy for Here<'_, E, P, S, F> {}

impl<E, P, S, F> Here<'_, E, P, S, F> {
    /// A new temporary of the function at hand.
    pub fn temporary(&self, state: &mut Lowerer) -> Result<Var, AllocError>
        ensures { Lowers (done_at self.now.around temporary state.old) result state.new }
    {
        state.names.temporary()
    }

    /// A new name that isn't a local.
    pub fn raw(&self, state: &mut Lowerer) -> Result<Var, AllocError>
        ensures { Lowers (done_at self.now.around raw state.old) result state.new }
    {
        state.names.fresh.name()
    }

    /// The names of a new walk over an iterator.
    pub fn iteration(&self, state: &mut Lowerer) -> Result<Iteration, AllocError>
        ensures { Lowers (done_at self.now.around (drawing drawn_iteration) state.old) result state.new }
    {
        state.names.iteration()
    }
}

impl<E: Fn(Around, &Expression, &mut Lowerer) -> Result<Reached, AllocError>, P, S, F> Here<
    '_,
    E,
    P,
    S,
    F,
> {
    /// What an expression comes to.
    pub fn reached(
        &self,
        expression: &Expression,
        state: &mut Lowerer,
    ) -> Result<Reached, AllocError>
        requires expressions { HasExpressions E.pre E.post self.now }
        ensures { Lowers (done_at self.now.around (expression_lowered expression.now).reached state.old) result state.new }
    {
        (self.expression)(self.around, expression, state)
    }

    /// Its value (ECMA-262, 6th edition, 6.2.3.1).
    pub fn value(
        &self,
        expression: &Expression,
        state: &mut Lowerer,
    ) -> Result<CoreExpr, AllocError>
        requires expressions { HasExpressions E.pre E.post self.now }
        ensures { Lowers (done_at self.now.around (valued (expression_lowered expression.now)) state.old) result state.new }
    {
        let reached = self.reached(expression, state)?;
        value_of(self.around.alloc, reached)
    }

    /// The value of an expression that may be left out.
    pub fn optional(
        &self,
        expression: &Option<Boxed<Expression>>,
        state: &mut Lowerer,
    ) -> Result<Option<CoreExpr>, AllocError>
        requires expressions { HasExpressions E.pre E.post self.now }
        ensures { Lowers (done_at self.now.around (option (optional (option_map expression_lowered expression.now))) state.old) result state.new }
    {
        match expression {
            None => Ok(None),
            Some(expression) => Ok(Some(self.value(expression.get(), state)?)),
        }
    }

    /// The same of one that isn't boxed, as a default.
    pub fn default(
        &self,
        expression: &Option<Expression>,
        state: &mut Lowerer,
    ) -> Result<Option<CoreExpr>, AllocError>
        requires expressions { HasExpressions E.pre E.post self.now }
        ensures { Lowers (done_at self.now.around (option (optional (option_map expression_lowered expression.now))) state.old) result state.new }
    {
        match expression {
            None => Ok(None),
            Some(expression) => Ok(Some(self.value(expression, state)?)),
        }
    }
}

impl<
    E,
    P: Fn(Around, &Pattern, Role, CoreExpr, &mut Lowerer) -> Result<Items<CoreStat>, AllocError>,
    S,
    F,
> Here<'_, E, P, S, F> {
    /// The statements by which a pattern takes a value.
    pub fn bound(
        &self,
        pattern: &Pattern,
        role: Role,
        value: CoreExpr,
        state: &mut Lowerer,
    ) -> Result<Items<CoreStat>, AllocError>
        requires patterns { HasPatterns P.pre P.post self.now }
        ensures { Lowers (done_at self.now.around ((pattern_lowered pattern.now).bound role value) state.old) result state.new }
    {
        (self.pattern)(self.around, pattern, role, value, state)
    }
}

impl<E, P, S: Fn(Around, &Statement, &mut Lowerer) -> Result<Items<CoreStat>, AllocError>, F> Here<
    '_,
    E,
    P,
    S,
    F,
> {
    /// What a statement becomes.
    pub fn under(
        &self,
        statement: &Statement,
        state: &mut Lowerer,
    ) -> Result<Items<CoreStat>, AllocError>
        requires statements { HasStatements S.pre S.post self.now }
        ensures { Lowers (done_at self.now.around (under (statement_lowered statement.now)) state.old) result state.new }
    {
        (self.statement)(self.around, statement, state)
    }

    /// What a list of statements becomes.
    pub fn statements(
        &self,
        statements: &[Statement],
        state: &mut Lowerer,
    ) -> Result<Items<CoreStat>, AllocError>
        requires statements { HasStatements S.pre S.post self.now }
        ensures { Lowers (done_at self.now.around (all_by (λ s. s.listed.statements) (map statement_lowered statements.now)) state.old) result state.new }
    {
        let mut made = Items::new(self.around.alloc);
        for statement in statements {
            made.append(self.under(statement, state)?)?;
        }
        Ok(made)
    }
}

impl<
    E,
    P,
    S,
    F: Fn(Around, &Function, FunctionForm, &mut Lowerer) -> Result<FunctionId, AllocError>,
> Here<'_, E, P, S, F> {
    /// The number of a function that is no arrow, which goes into the table.
    pub fn made(
        &self,
        function: &Function,
        form: FunctionForm,
        state: &mut Lowerer,
    ) -> Result<FunctionId, AllocError>
        requires functions { HasFunctions F.pre F.post self.now }
        ensures { Lowers (done_at self.now.around ((function_lowered function.now).lowered form) state.old) result state.new }
    {
        (self.function)(self.around, function, form, state)
    }
}
