//! What the parts of a pattern go to (ECMA-262, 6th edition, 12.14.5.3, 12.14.5.4 and 13.3.3.6).

ghost use Rattle.lower_targets.specs.Targets.{default_of, form_by};
ghost use Rattle.lower_walk.specs.Handed.{done_at, HasExpressions, HasPatterns};
ghost use Rattle.module_lowering.specs.Lowered.{expression_lowered, part_lowered, pattern_lowered};
ghost use Rattle.module_lowering.specs.Lowering.{Lowers};
ghost use Rattle.module_lowering.specs.Patterns.{form_taken, part_taken, parts_taken};

use crate::patterns::Patterns;
use core_ast::{CoreExpr, CoreStat, Var, variable};
use es6_ast::{Expression, Part, Pattern};
use lower_listed::expression_name;
use lower_walk::Around;
use lowering_rules::Target;
use lowering_rules::reference_rules::Reached;
use module_lowering::{Lowerer, Role};
use sqlite_items::Items;
use std::alloc::AllocError;

impl<
    E: Fn(Around, &Expression, &mut Lowerer) -> Result<Reached, AllocError>,
    P: Fn(Around, &Pattern, Role, CoreExpr, &mut Lowerer) -> Result<Items<CoreStat>, AllocError>,
    S,
    F,
> Patterns<'_, E, P, S, F> {
    /// What a part goes to that is a name or a property.
    fn target_taken(
        &self,
        target: &Expression,
        role: Role,
        default: Option<&Expression>,
        value: Var,
        state: &mut Lowerer,
    ) -> Result<Target, AllocError>
        requires expressions { HasExpressions E.pre E.post self.now.here }
        ensures { Lowers (done_at self.now.here.around (form_taken (form_by (expression_lowered target.now)) role (default_of default.entry) value) state.old) result state.new }
    {
        match expression_name(target) {
            Some(name) => self.name_taken(&name, role, default, value, state),
            None => self.member_taken(target, default, value, state),
        }
    }

    /// What a part goes to that is a pattern: its parts take the value when it is there.
    fn parts_taken(
        &self,
        pattern: &Pattern,
        role: Role,
        default: Option<&Expression>,
        value: Var,
        state: &mut Lowerer,
    ) -> Result<Target, AllocError>
        requires expressions { HasExpressions E.pre E.post self.now.here }
        requires patterns { HasPatterns P.pre P.post self.now.here }
        ensures { Lowers (done_at self.now.here.around (parts_taken ((pattern_lowered pattern.now).bound role) (default_of default.entry) value) state.old) result state.new }
    {
        let alloc = self.here.around.alloc;
        let default = self.default(default, state)?;
        let after = self
            .here
            .bound(pattern, role, variable(alloc, value), state)?;
        Ok(Target {
            before: Items::new(alloc),
            default,
            after,
        })
    }

    /// What a part goes to.
    #[tactic(auto, unfolding(module_lowering::specs::Lowered::expression_lowered, module_lowering::specs::Lowered::pattern_lowered))]
    pub(crate) fn pattern_taken(
        &self,
        pattern: &Pattern,
        role: Role,
        default: Option<&Expression>,
        value: Var,
        state: &mut Lowerer,
    ) -> Result<Target, AllocError>
        requires expressions { HasExpressions E.pre E.post self.now.here }
        requires patterns { HasPatterns P.pre P.post self.now.here }
        ensures { Lowers (done_at self.now.here.around ((pattern_lowered pattern.now).taken role (default_of default.entry) value) state.old) result state.new }
    {
        match pattern {
            Pattern::Target(target) => {
                self.target_taken(target.get(), role, default, value, state)
            }
            Pattern::ArrayPattern { .. } | Pattern::ObjectPattern { .. } => {
                self.parts_taken(pattern, role, default, value, state)
            }
        }
    }

    /// What a part with a default goes to.
    #[tactic(auto, using(lower_walk::proofs::Layers::part_out))]
    pub(crate) fn part_taken(
        &self,
        part: &Part,
        role: Role,
        value: Var,
        state: &mut Lowerer,
    ) -> Result<Target, AllocError>
        requires expressions { HasExpressions E.pre E.post self.now.here }
        requires patterns { HasPatterns P.pre P.post self.now.here }
        ensures { Lowers (done_at self.now.here.around (part_taken (part_lowered part.now) role value) state.old) result state.new }
    {
        self.pattern_taken(&part.pattern, role, part.default.as_ref(), value, state)
    }
}
