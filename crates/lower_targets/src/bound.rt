//! A value that goes to a pattern (ECMA-262, 6th edition, 12.14.5.2 and 13.3.3.5).

ghost use Rattle.std.specs.Prelude.{◌≡◌, ◌∷◌, map, IfOk};
ghost use Rattle.lower_targets.specs.Targets.{form_by};
ghost use Rattle.lower_walk.specs.Handed.{done_at, HasExpressions, HasPatterns};
ghost use Rattle.lowering_rules.specs.Making.{set};
ghost use Rattle.lowering_rules.specs.Patterns.{object_pattern};
ghost use Rattle.module_lowering.specs.Lowered.{array_part_lowered, expression_lowered, object_part_lowered, pattern_lowered};
ghost use Rattle.module_lowering.specs.Lowering.{Lowers};
ghost use Rattle.module_lowering.specs.Patterns.{array_bound, form_bound, object_bound};

use crate::patterns::Patterns;
use core_ast::{CoreExpr, CoreStat, Var};
use es6_ast::{ArrayPart, Expression, ObjectPart, Pattern};
use lower_listed::expression_name;
use lower_parts::{alone, set};
use lower_patterns::{lower_array_pattern, lower_object_pattern};
use lower_walk::{Around, Here};
use lowering_rules::ObjectPart as LoweredObjectPart;
use lowering_rules::reference_rules::Reached;
use module_lowering::{Lowerer, Role};
use sqlite_items::Items;
use std::alloc::{AllocError, Global};

/// The subject takes the value, and the parts take the properties of that.
fn object_statements(
    alloc: Global,
    subject: Var,
    part: Var,
    value: CoreExpr,
    parts: Vec<LoweredObjectPart>,
) -> Result<Items<CoreStat>, AllocError>
    ensures { IfOk result (λ ss. ss ≡ set subject value ∷ object_pattern subject part parts.items) }
{
    let mut out = alone(alloc, set(alloc, subject, value)?)?;
    out.append(lower_object_pattern(alloc, subject, part, parts)?)?;
    Ok(out)
}

impl<
    E: Fn(Around, &Expression, &mut Lowerer) -> Result<Reached, AllocError>,
    P: Fn(Around, &Pattern, Role, CoreExpr, &mut Lowerer) -> Result<Items<CoreStat>, AllocError>,
    S,
    F,
> Patterns<'_, E, P, S, F> {
    /// The value goes to a name or a property.
    fn target_bound(
        &self,
        target: &Expression,
        role: Role,
        value: CoreExpr,
        state: &mut Lowerer,
    ) -> Result<Items<CoreStat>, AllocError>
        requires expressions { HasExpressions E.pre E.post self.now.here }
        ensures { Lowers (done_at self.now.here.around (form_bound (form_by (expression_lowered target.now)) role value) state.old) result state.new }
    {
        match expression_name(target) {
            Some(name) => self.name_bound(&name, role, value, state),
            None => self.member_bound(target, value, state),
        }
    }

    /// The parts take the steps of the value's iterator.
    fn array_bound(
        &self,
        parts: &[ArrayPart],
        role: Role,
        value: CoreExpr,
        state: &mut Lowerer,
    ) -> Result<Items<CoreStat>, AllocError>
        requires expressions { HasExpressions E.pre E.post self.now.here }
        requires patterns { HasPatterns P.pre P.post self.now.here }
        ensures { Lowers (done_at self.now.here.around (array_bound (map array_part_lowered parts.now) role value) state.old) result state.new }
    {
        let names = self.here.iteration(state)?;
        let parts = self.array_parts(parts, role, names, state)?;
        lower_array_pattern(self.here.around.alloc, names, value, parts)
    }

    /// The parts take the properties of the value.
    fn object_bound(
        &self,
        parts: &[ObjectPart],
        role: Role,
        value: CoreExpr,
        state: &mut Lowerer,
    ) -> Result<Items<CoreStat>, AllocError>
        requires expressions { HasExpressions E.pre E.post self.now.here }
        requires patterns { HasPatterns P.pre P.post self.now.here }
        ensures { Lowers (done_at self.now.here.around (object_bound (map object_part_lowered parts.now) role value) state.old) result state.new }
    {
        let subject = self.here.temporary(state)?;
        let part = self.here.temporary(state)?;
        let parts = self.object_parts(parts, role, part, state)?;
        object_statements(self.here.around.alloc, subject, part, value, parts)
    }

    /// The value goes to a pattern.
    #[tactic(auto, unfolding(module_lowering::specs::Lowered::array_part_lowered, module_lowering::specs::Lowered::expression_lowered, module_lowering::specs::Lowered::object_part_lowered, module_lowering::specs::Lowered::pattern_lowered))]
    fn bound(
        &self,
        pattern: &Pattern,
        role: Role,
        value: CoreExpr,
        state: &mut Lowerer,
    ) -> Result<Items<CoreStat>, AllocError>
        requires expressions { HasExpressions E.pre E.post self.now.here }
        requires patterns { HasPatterns P.pre P.post self.now.here }
        ensures { Lowers (done_at self.now.here.around ((pattern_lowered pattern.now).bound role value) state.old) result state.new }
    {
        match pattern {
            Pattern::Target(target) => self.target_bound(target.get(), role, value, state),
            Pattern::ArrayPattern { parts, .. } => {
                self.array_bound(parts.as_slice(), role, value, state)
            }
            Pattern::ObjectPattern { parts, .. } => {
                self.object_bound(parts.as_slice(), role, value, state)
            }
        }
    }
}

/// The statements by which a pattern takes a value (12.14.5.2, 13.3.3.5).
pub fn lower_bound<
    E: Fn(Around, &Expression, &mut Lowerer) -> Result<Reached, AllocError>,
    P: Fn(Around, &Pattern, Role, CoreExpr, &mut Lowerer) -> Result<Items<CoreStat>, AllocError>,
    S,
    F,
>(
    here: &Here<'_, E, P, S, F>,
    pattern: &Pattern,
    role: Role,
    value: CoreExpr,
    state: &mut Lowerer,
) -> Result<Items<CoreStat>, AllocError>
    requires expressions { HasExpressions E.pre E.post here.now }
    requires patterns { HasPatterns P.pre P.post here.now }
    ensures { Lowers (done_at here.now.around ((pattern_lowered pattern.now).bound role value) state.old) result state.new }
{
    Patterns { here: *here }.bound(pattern, role, value, state)
}
