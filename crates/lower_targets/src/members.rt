//! Properties that take values (ECMA-262, 6th edition, 12.14.5.2 and 12.14.5.4).

ghost use Rattle.std.specs.Prelude.{◌≡◌, IfOk};
ghost use Rattle.lower_targets.specs.Targets.{default_of, member_found};
ghost use Rattle.lower_walk.specs.Handed.{done_at, HasExpressions};
ghost use Rattle.module_lowering.specs.Lowered.{expression_lowered};
ghost use Rattle.module_lowering.specs.Lowering.{Lowers};
ghost use Rattle.module_lowering.specs.Patterns.{member_bound, member_or_none, member_reached, member_taken, target_statements};
ghost use Rattle.lowering_rules.specs.reference_rules.Drawing.{Makes};

use crate::patterns::Patterns;
use core_ast::{CoreExpr, CoreStat, Var};
use es6_ast::Expression;
use lower_parts::set;
use lower_patterns::member_target;
use lower_references::drawn_member;
use lower_walk::Around;
use lowering_rules::reference_rules::Reached;
use lowering_rules::{MemberTarget, Names, Target};
use module_lowering::Lowerer;
use sqlite_items::Items;
use std::alloc::{AllocError, Global};

/// The property that an expression comes to, if it is one.
fn member_reached(reached: Reached, names: &mut Names) -> Result<Option<MemberTarget>, AllocError>
    ensures { Makes result names.new (member_reached reached names.old) }
{
    match reached {
        Reached::Property { object, name } => Ok(Some(drawn_member(object, name, names)?)),
        Reached::Value(_) | Reached::Variable { .. } | Reached::Inherited { .. } => Ok(None),
    }
}

/// The property takes the value of the variable. What is none takes no value.
fn member_or_none(
    alloc: Global,
    target: Option<MemberTarget>,
    default: Option<CoreExpr>,
    value: Var,
) -> Result<Target, AllocError>
    ensures { IfOk result (λ t. t ≡ member_or_none target default value) }
{
    match target {
        Some(target) => member_target(alloc, target, default, value),
        None => Ok(Target {
            before: Items::new(alloc),
            default,
            after: Items::new(alloc),
        }),
    }
}

/// The variable takes a value, and what the value goes to takes it from there.
fn target_statements(
    alloc: Global,
    var: Var,
    value: CoreExpr,
    target: Target,
) -> Result<Items<CoreStat>, AllocError>
    ensures { IfOk result (λ ss. ss ≡ target_statements var value target) }
{
    let mut out = target.before;
    out.push(set(alloc, var, value)?)?;
    out.append(target.after)?;
    Ok(out)
}

impl<E: Fn(Around, &Expression, &mut Lowerer) -> Result<Reached, AllocError>, P, S, F> Patterns<
    '_,
    E,
    P,
    S,
    F,
> {
    /// The property that an expression comes to, with the temporaries that keep its object and its name.
    fn member(
        &self,
        expression: &Expression,
        state: &mut Lowerer,
    ) -> Result<Option<MemberTarget>, AllocError>
        requires expressions { HasExpressions E.pre E.post self.now.here }
        ensures { Lowers (done_at self.now.here.around (member_found (expression_lowered expression.now).reached) state.old) result state.new }
    {
        let reached = self.here.reached(expression, state)?;
        member_reached(reached, &mut state.names)
    }

    /// What a part of a pattern goes to that is a property.
    pub(crate) fn member_taken(
        &self,
        expression: &Expression,
        default: Option<&Expression>,
        value: Var,
        state: &mut Lowerer,
    ) -> Result<Target, AllocError>
        requires expressions { HasExpressions E.pre E.post self.now.here }
        ensures { Lowers (done_at self.now.here.around (member_taken (expression_lowered expression.now).reached (default_of default.entry) value) state.old) result state.new }
    {
        let target = self.member(expression, state)?;
        let default = self.default(default, state)?;
        member_or_none(self.here.around.alloc, target, default, value)
    }

    /// A value goes to a property, whose object is evaluated before the value is.
    pub(crate) fn member_bound(
        &self,
        expression: &Expression,
        value: CoreExpr,
        state: &mut Lowerer,
    ) -> Result<Items<CoreStat>, AllocError>
        requires expressions { HasExpressions E.pre E.post self.now.here }
        ensures { Lowers (done_at self.now.here.around (member_bound (expression_lowered expression.now).reached value) state.old) result state.new }
    {
        let var = self.here.temporary(state)?;
        let target = self.member_taken(expression, None, var, state)?;
        target_statements(self.here.around.alloc, var, value, target)
    }
}
