//! Names that take values (ECMA-262, 6th edition, 12.14.5.2, 13.3.1.4 and 13.3.2.4).

ghost use Rattle.std.specs.Prelude.{◌≡◌, IfOk};
ghost use Rattle.lower_targets.specs.Targets.{declared_there, default_of};
ghost use Rattle.lower_walk.specs.Handed.{done_at, HasExpressions};
ghost use Rattle.module_lowering.specs.Lowering.{Lowers, option};
ghost use Rattle.module_lowering.specs.Patterns.{name_bound, name_taken};
ghost use Rattle.module_lowering.specs.declared.context.Role.TheVariants.{Assigns};

use crate::patterns::Patterns;
use core_ast::{CoreExpr, CoreStat, Var};
use es6_ast::Expression;
use lower_listed::NamedAt;
use lower_parts::{alone, initialize, set};
use lower_patterns::{assigned_target, declared_target};
use lower_references::lower_assigned;
use lower_walk::Around;
use lower_walk::lower_names::ListsName;
use lowering_rules::reference_rules::Reached;
use lowering_rules::{Target, VariableTarget};
use module_lowering::{Lowerer, Role};
use sqlite_items::Items;
use std::alloc::AllocError;

impl<E, P, S, F> Patterns<'_, E, P, S, F> {
    /// The variable that a name declares.
    fn declared(&self, name: &NamedAt<'_>) -> Result<Var, AllocError>
        ensures { IfOk result (λ x. x ≡ declared_there self.now.here.around name.now) }
    {
        let around = self.here.around;
        around.bindings.declared_var(around.context, name.begin())
    }

    /// A value is assigned to a name.
    fn assigned(
        &self,
        name: &NamedAt<'_>,
        value: CoreExpr,
        state: &mut Lowerer,
    ) -> Result<Items<CoreStat>, AllocError>
        ensures { Lowers (done_at self.now.here.around (name_bound name.now Assigns value) state.old) result state.new }
    {
        let Around {
            alloc,
            bindings,
            context,
            ..
        } = self.here.around;
        let reached = bindings.lower_name(alloc, context, name.begin(), name.bytes(), state)?;
        let assigned = lower_assigned(alloc, reached, value, &mut state.names)?;
        alone(alloc, CoreStat::Do(assigned))
    }

    /// A value goes to a name.
    pub(crate) fn name_bound(
        &self,
        name: &NamedAt<'_>,
        role: Role,
        value: CoreExpr,
        state: &mut Lowerer,
    ) -> Result<Items<CoreStat>, AllocError>
        ensures { Lowers (done_at self.now.here.around (name_bound name.now role value) state.old) result state.new }
    {
        let alloc = self.here.around.alloc;
        match role {
            Role::Assigns => self.assigned(name, value, state),
            Role::Initializes => alone(alloc, initialize(alloc, self.declared(name)?, value)?),
            Role::Sets => alone(alloc, set(alloc, self.declared(name)?, value)?),
        }
    }
}

impl<E: Fn(Around, &Expression, &mut Lowerer) -> Result<Reached, AllocError>, P, S, F> Patterns<
    '_,
    E,
    P,
    S,
    F,
> {
    /// The value of a default that may be left out.
    pub(crate) fn default(
        &self,
        default: Option<&Expression>,
        state: &mut Lowerer,
    ) -> Result<Option<CoreExpr>, AllocError>
        requires expressions { HasExpressions E.pre E.post self.now.here }
        ensures { Lowers (done_at self.now.here.around (option (default_of default.entry)) state.old) result state.new }
    {
        match default {
            None => Ok(None),
            Some(default) => Ok(Some(self.here.value(default, state)?)),
        }
    }

    /// What a part of a pattern goes to that is a name.
    pub(crate) fn name_taken(
        &self,
        name: &NamedAt<'_>,
        role: Role,
        default: Option<&Expression>,
        value: Var,
        state: &mut Lowerer,
    ) -> Result<Target, AllocError>
        requires expressions { HasExpressions E.pre E.post self.now.here }
        ensures { Lowers (done_at self.now.here.around (name_taken name.now role (default_of default.entry) value) state.old) result state.new }
    {
        let Around {
            alloc,
            bindings,
            context,
            ..
        } = self.here.around;
        let default = self.default(default, state)?;
        match role {
            Role::Assigns => {
                let target = bindings.name_target(context, name.begin(), name.bytes())?;
                assigned_target(alloc, target, default, value)
            }
            Role::Initializes => declared_target(alloc, self.declared(name)?, default, value),
            Role::Sets => {
                let target = VariableTarget {
                    var: self.declared(name)?,
                    checked: false,
                    constant: false,
                };
                assigned_target(alloc, target, default, value)
            }
        }
    }
}
