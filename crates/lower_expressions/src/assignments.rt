//! Assignments (ECMA-262, 6th edition, 12.14).

ghost use Rattle.lower_expressions.specs.Arms.{assigned_by_form, operated_by_form, target_alone};
ghost use Rattle.lower_walk.specs.lower_names.Reached.{name_reached};
ghost use Rattle.lower_walk.specs.Handed.{done_at, HasExpressions, HasPatterns};
ghost use Rattle.module_lowering.specs.Expressions.{assigned_to, assignment, compound_of, gives, operated_on, pattern_value};
ghost use Rattle.module_lowering.specs.Lowered.{expression_lowered, pattern_lowered};
ghost use Rattle.module_lowering.specs.Lowering.{Lowers};

use crate::expressions::Expressions;
use crate::operators::compound_of;
use core_ast::{CoreExpr, CoreStat, variable};
use es6_ast::{AssignOperator, Expression, Pattern};
use lower_listed::expression_name;
use lower_references::{lower_assigned, lower_operated, pattern_assigned};
use lower_walk::Around;
use lowering_rules::reference_rules::{Compound, Reached};
use module_lowering::{Lowerer, Role};
use shared_text::Name;
use sqlite_items::Items;
use std::alloc::AllocError;

impl<E, P, S, F> Expressions<'_, E, P, S, F> {
    /// A name, which begins at an offset in bytes (12.1.6).
    pub(crate) fn name(
        &self,
        at: u32,
        name: &Name,
        state: &mut Lowerer,
    ) -> Result<Reached, AllocError>
        ensures { Lowers (done_at self.now.here.around (name_reached at name.now) state.old) result state.new }
    {
        let around = &self.here.around;
        let bindings = around.bindings;
        bindings.lower_name(around.alloc, around.context, at, name.bytes(), state)
    }
}

impl<E: Fn(Around, &Expression, &mut Lowerer) -> Result<Reached, AllocError>, P, S, F> Expressions<
    '_,
    E,
    P,
    S,
    F,
> {
    /// What is reached takes a value.
    fn assigned_name(
        &self,
        at: u32,
        name: &Name,
        value: &Expression,
        state: &mut Lowerer,
    ) -> Result<Reached, AllocError>
        requires expressions { HasExpressions E.pre E.post self.now.here }
        ensures { Lowers (done_at self.now.here.around (gives (assigned_to (name_reached at name.now) (expression_lowered value.now))) state.old) result state.new }
    {
        let target = self.name(at, name, state)?;
        let value = self.here.value(value, state)?;
        let value = lower_assigned(self.here.around.alloc, target, value, &mut state.names)?;
        Ok(Reached::Value(value))
    }

    fn assigned_member(
        &self,
        target: &Expression,
        value: &Expression,
        state: &mut Lowerer,
    ) -> Result<Reached, AllocError>
        requires expressions { HasExpressions E.pre E.post self.now.here }
        ensures { Lowers (done_at self.now.here.around (gives (assigned_to (expression_lowered target.now).reached (expression_lowered value.now))) state.old) result state.new }
    {
        let target = self.here.reached(target, state)?;
        let value = self.here.value(value, state)?;
        let value = lower_assigned(self.here.around.alloc, target, value, &mut state.names)?;
        Ok(Reached::Value(value))
    }

    /// `=` behind a target that is no pattern with parts.
    fn assigned_alone(
        &self,
        target: &Expression,
        value: &Expression,
        state: &mut Lowerer,
    ) -> Result<Reached, AllocError>
        requires expressions { HasExpressions E.pre E.post self.now.here }
        ensures { Lowers (done_at self.now.here.around (gives (assigned_by_form (target_alone (expression_lowered target.now)) (expression_lowered value.now))) state.old) result state.new }
    {
        match expression_name(target) {
            Some(name) => self.assigned_name(name.span.begin, name.name, value, state),
            None => self.assigned_member(target, value, state),
        }
    }

    fn operated_name(
        &self,
        by: Compound,
        at: u32,
        name: &Name,
        value: &Expression,
        state: &mut Lowerer,
    ) -> Result<Reached, AllocError>
        requires expressions { HasExpressions E.pre E.post self.now.here }
        ensures { Lowers (done_at self.now.here.around (gives (operated_on by (name_reached at name.now) (expression_lowered value.now))) state.old) result state.new }
    {
        let target = self.name(at, name, state)?;
        let value = self.here.value(value, state)?;
        let value = lower_operated(self.here.around.alloc, target, by, value, &mut state.names)?;
        Ok(Reached::Value(value))
    }

    fn operated_member(
        &self,
        by: Compound,
        target: &Expression,
        value: &Expression,
        state: &mut Lowerer,
    ) -> Result<Reached, AllocError>
        requires expressions { HasExpressions E.pre E.post self.now.here }
        ensures { Lowers (done_at self.now.here.around (gives (operated_on by (expression_lowered target.now).reached (expression_lowered value.now))) state.old) result state.new }
    {
        let target = self.here.reached(target, state)?;
        let value = self.here.value(value, state)?;
        let value = lower_operated(self.here.around.alloc, target, by, value, &mut state.names)?;
        Ok(Reached::Value(value))
    }

    fn operated_alone(
        &self,
        by: Compound,
        target: &Expression,
        value: &Expression,
        state: &mut Lowerer,
    ) -> Result<Reached, AllocError>
        requires expressions { HasExpressions E.pre E.post self.now.here }
        ensures { Lowers (done_at self.now.here.around (gives (operated_by_form by (target_alone (expression_lowered target.now)) (expression_lowered value.now))) state.old) result state.new }
    {
        match expression_name(target) {
            Some(name) => self.operated_name(by, name.span.begin, name.name, value, state),
            None => self.operated_member(by, target, value, state),
        }
    }

    /// `+=` and the like.
    #[tactic(auto, unfolding(module_lowering::specs::Lowered::pattern_lowered, module_lowering::specs::Lowered::expression_lowered))]
    fn operated(
        &self,
        by: Compound,
        target: &Pattern,
        value: &Expression,
        state: &mut Lowerer,
    ) -> Result<Reached, AllocError>
        requires expressions { HasExpressions E.pre E.post self.now.here }
        ensures { Lowers (done_at self.now.here.around (gives (operated_by_form by (pattern_lowered target.now) (expression_lowered value.now))) state.old) result state.new }
    {
        match target {
            Pattern::Target(target) => self.operated_alone(by, target.get(), value, state),
            Pattern::ArrayPattern { .. } | Pattern::ObjectPattern { .. } => {
                Ok(Reached::Value(self.here.value(value, state)?))
            }
        }
    }
}

impl<
    E: Fn(Around, &Expression, &mut Lowerer) -> Result<Reached, AllocError>,
    P: Fn(Around, &Pattern, Role, CoreExpr, &mut Lowerer) -> Result<Items<CoreStat>, AllocError>,
    S,
    F,
> Expressions<'_, E, P, S, F> {
    /// A pattern takes the value of the right side, which is evaluated first (12.14.4, steps 2 to 5).
    fn pattern_value(
        &self,
        pattern: &Pattern,
        value: &Expression,
        state: &mut Lowerer,
    ) -> Result<Reached, AllocError>
        requires expressions { HasExpressions E.pre E.post self.now.here }
        requires patterns { HasPatterns P.pre P.post self.now.here }
        ensures { Lowers (done_at self.now.here.around (gives (pattern_value (pattern_lowered pattern.now) (expression_lowered value.now))) state.old) result state.new }
    {
        let alloc = self.here.around.alloc;
        let value = self.here.value(value, state)?;
        let kept = self.here.temporary(state)?;
        let body = self
            .here
            .bound(pattern, Role::Assigns, variable(alloc, kept), state)?;
        Ok(Reached::Value(pattern_assigned(alloc, value, kept, body)?))
    }

    /// `=`
    #[tactic(auto, unfolding(module_lowering::specs::Lowered::pattern_lowered, module_lowering::specs::Lowered::expression_lowered))]
    fn assigned(
        &self,
        target: &Pattern,
        value: &Expression,
        state: &mut Lowerer,
    ) -> Result<Reached, AllocError>
        requires expressions { HasExpressions E.pre E.post self.now.here }
        requires patterns { HasPatterns P.pre P.post self.now.here }
        ensures { Lowers (done_at self.now.here.around (gives (assigned_by_form (pattern_lowered target.now) (expression_lowered value.now))) state.old) result state.new }
    {
        match target {
            Pattern::Target(alone) => self.assigned_alone(alone.get(), value, state),
            Pattern::ArrayPattern { .. } | Pattern::ObjectPattern { .. } => {
                self.pattern_value(target, value, state)
            }
        }
    }

    /// 12.14.4
    pub(crate) fn assignment(
        &self,
        operator: AssignOperator,
        target: &Pattern,
        value: &Expression,
        state: &mut Lowerer,
    ) -> Result<Reached, AllocError>
        requires expressions { HasExpressions E.pre E.post self.now.here }
        requires patterns { HasPatterns P.pre P.post self.now.here }
        ensures { Lowers (done_at self.now.here.around (gives (assignment (compound_of operator) (pattern_lowered target.now) (expression_lowered value.now))) state.old) result state.new }
    {
        match compound_of(operator) {
            None => self.assigned(target, value, state),
            Some(by) => self.operated(by, target, value, state),
        }
    }
}
