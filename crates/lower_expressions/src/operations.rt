//! Operations on the values of expressions (ECMA-262, 6th edition, 12.4 to 12.13, 12.15 and 14.4.14; powers of the 7th, 12.6).

ghost use Rattle.lower_expressions.specs.Arms.{branches};
ghost use Rattle.lower_walk.specs.Handed.{done_at, HasExpressions};
ghost use Rattle.module_lowering.specs.Expressions.{binary_lowered, conditional, delegated, gives, next_of, power, sequence, unary_lowered, update_lowered, update_of, yielded};
ghost use Rattle.module_lowering.specs.Lowered.{expression_lowered, operand_lowered};
ghost use Rattle.module_lowering.specs.Lowering.{Lowers};
ghost use Rattle.std.specs.Option.{option_map};
ghost use Rattle.std.specs.Prelude.{map};

use crate::expressions::Expressions;
use crate::operators::{chosen, operand_link, or_undefined, unary_value, update_of};
use core_ast::{CoreExpr, CoreOp, Primitive, act, linked};
use es6_ast::{Expression, Operand, UnaryOperator, UpdateOperator};
use lower_parts::{then, through_with};
use lower_references::lower_updated;
use lower_walk::Around;
use lowering_rules::reference_rules::Reached;
use module_lowering::Lowerer;
use sqlite_items::Boxed;
use std::alloc::AllocError;

impl<E: Fn(Around, &Expression, &mut Lowerer) -> Result<Reached, AllocError>, P, S, F> Expressions<
    '_,
    E,
    P,
    S,
    F,
> {
    /// `++` and `--` (12.4, 12.5.7, 12.5.8).
    pub(crate) fn update(
        &self,
        operator: UpdateOperator,
        target: &Expression,
        state: &mut Lowerer,
    ) -> Result<Reached, AllocError>
        requires expressions { HasExpressions E.pre E.post self.now.here }
        ensures { Lowers (done_at self.now.here.around (gives (update_lowered (update_of operator) (expression_lowered target.now))) state.old) result state.new }
    {
        let target = self.here.reached(target, state)?;
        let alloc = self.here.around.alloc;
        let value = lower_updated(alloc, target, update_of(operator), &mut state.names)?;
        Ok(Reached::Value(value))
    }

    /// 12.5
    pub(crate) fn unary(
        &self,
        operator: UnaryOperator,
        operand: &Expression,
        state: &mut Lowerer,
    ) -> Result<Reached, AllocError>
        requires expressions { HasExpressions E.pre E.post self.now.here }
        ensures { Lowers (done_at self.now.here.around (gives (unary_lowered operator (expression_lowered operand.now))) state.old) result state.new }
    {
        let operand = self.here.reached(operand, state)?;
        let value = unary_value(self.here.around.alloc, operator, operand)?;
        Ok(Reached::Value(value))
    }

    /// `**`
    pub(crate) fn power(
        &self,
        base: &Expression,
        exponent: &Expression,
        state: &mut Lowerer,
    ) -> Result<Reached, AllocError>
        requires expressions { HasExpressions E.pre E.post self.now.here }
        ensures { Lowers (done_at self.now.here.around (gives (power (expression_lowered base.now) (expression_lowered exponent.now))) state.old) result state.new }
    {
        let base = self.here.value(base, state)?;
        let exponent = self.here.value(exponent, state)?;
        let value = through_with(self.here.around.alloc, base, Primitive::Power, exponent)?;
        Ok(Reached::Value(value))
    }

    /// An operator with its operand, on the value before it.
    #[tactic(auto, using(lower_walk::proofs::Layers::operand_out))]
    fn operand(
        &self,
        operand: &Operand,
        before: CoreExpr,
        state: &mut Lowerer,
    ) -> Result<CoreExpr, AllocError>
        requires expressions { HasExpressions E.pre E.post self.now.here }
        ensures { Lowers (done_at self.now.here.around (operand_lowered operand.now before) state.old) result state.new }
    {
        let value = self.here.value(&operand.value, state)?;
        let link = operand_link(self.here.around.alloc, operand.operator, value)?;
        linked(before, link)
    }

    /// Operands with operators between them (12.6 to 12.12).
    pub(crate) fn binary(
        &self,
        first: &Expression,
        rest: &[Operand],
        state: &mut Lowerer,
    ) -> Result<Reached, AllocError>
        requires expressions { HasExpressions E.pre E.post self.now.here }
        ensures { Lowers (done_at self.now.here.around (gives (binary_lowered (expression_lowered first.now) (map operand_lowered rest.now))) state.old) result state.new }
    {
        let mut value = self.here.value(first, state)?;
        for operand in rest {
            value = self.operand(operand, value, state)?;
        }
        Ok(Reached::Value(value))
    }

    /// `? :` behind its test.
    fn branches(
        &self,
        test: CoreExpr,
        yes: &Expression,
        no: &Expression,
        state: &mut Lowerer,
    ) -> Result<Reached, AllocError>
        requires expressions { HasExpressions E.pre E.post self.now.here }
        ensures { Lowers (done_at self.now.here.around (gives (branches test (expression_lowered yes.now) (expression_lowered no.now))) state.old) result state.new }
    {
        let yes = self.here.value(yes, state)?;
        let no = self.here.value(no, state)?;
        let value = chosen(self.here.around.alloc, test, yes, no)?;
        Ok(Reached::Value(value))
    }

    /// 12.13
    pub(crate) fn conditional(
        &self,
        test: &Expression,
        yes: &Expression,
        no: &Expression,
        state: &mut Lowerer,
    ) -> Result<Reached, AllocError>
        requires expressions { HasExpressions E.pre E.post self.now.here }
        ensures { Lowers (done_at self.now.here.around (gives (conditional (expression_lowered test.now) (expression_lowered yes.now) (expression_lowered no.now))) state.old) result state.new }
    {
        let test = self.here.value(test, state)?;
        self.branches(test, yes, no, state)
    }

    /// An expression behind a comma, after the value before it.
    fn next(
        &self,
        expression: &Expression,
        before: CoreExpr,
        state: &mut Lowerer,
    ) -> Result<CoreExpr, AllocError>
        requires expressions { HasExpressions E.pre E.post self.now.here }
        ensures { Lowers (done_at self.now.here.around (next_of (expression_lowered expression.now) before) state.old) result state.new }
    {
        let value = self.here.value(expression, state)?;
        then(self.here.around.alloc, before, value)
    }

    /// 12.15
    pub(crate) fn sequence(
        &self,
        first: &Expression,
        rest: &[Expression],
        state: &mut Lowerer,
    ) -> Result<Reached, AllocError>
        requires expressions { HasExpressions E.pre E.post self.now.here }
        ensures { Lowers (done_at self.now.here.around (gives (sequence (expression_lowered first.now) (map expression_lowered rest.now))) state.old) result state.new }
    {
        let mut value = self.here.value(first, state)?;
        for expression in rest {
            value = self.next(expression, value, state)?;
        }
        Ok(Reached::Value(value))
    }

    /// `yield`
    pub(crate) fn yielded(
        &self,
        value: &Option<Boxed<Expression>>,
        state: &mut Lowerer,
    ) -> Result<Reached, AllocError>
        requires expressions { HasExpressions E.pre E.post self.now.here }
        ensures { Lowers (done_at self.now.here.around (gives (yielded (option_map expression_lowered value.now))) state.old) result state.new }
    {
        let alloc = self.here.around.alloc;
        let value = or_undefined(alloc, self.here.optional(value, state)?);
        let value = linked(value, act(alloc, CoreOp::Yield))?;
        Ok(Reached::Value(value))
    }

    /// `yield *`
    pub(crate) fn delegated(
        &self,
        value: &Expression,
        state: &mut Lowerer,
    ) -> Result<Reached, AllocError>
        requires expressions { HasExpressions E.pre E.post self.now.here }
        ensures { Lowers (done_at self.now.here.around (gives (delegated (expression_lowered value.now))) state.old) result state.new }
    {
        let value = self.here.value(value, state)?;
        let value = linked(value, act(self.here.around.alloc, CoreOp::Delegate))?;
        Ok(Reached::Value(value))
    }
}
