//! Declarations (ECMA-262, 6th edition, 13.3 and 14.5).

ghost use Rattle.lower_walk.specs.Handed.{done_at, HasExpressions, HasFunctions, HasPatterns};
ghost use Rattle.module_lowering.specs.Lowered.{class_lowered, expression_lowered, part_lowered, pattern_lowered};
ghost use Rattle.module_lowering.specs.Lowering.{Lowers};
ghost use Rattle.module_lowering.specs.Statements.{class_at, class_named, declarator, declarators, lexicals_of, parts_names, role_of, undefined_bound, value_bound};
ghost use Rattle.module_lowering.specs.Expressions.{valued};
ghost use Rattle.std.specs.Prelude.{◌≡◌, map, IfOk};

use crate::flow::Flow;
use core_ast::{CoreExpr, CoreStat, FunctionId, undefined};
use es6_ast::{Class, Expression, Function, Part, Pattern, VariableKind};
use lower_functions::lower_class_definition;
use lower_listed::{NamedAt, name_places, parts_names};
use lower_statements::lower_class_declaration;
use lower_walk::{Around, Here};
use lowering_rules::reference_rules::Reached;
use module_lowering::{FunctionForm, Lowerer, Role};
use sqlite_items::Items;
use std::alloc::{AllocError, Global};

/// What the names of such a declaration are there for.
pub(crate) fn role_of(kind: VariableKind) -> Role
    ensures { result ≡ role_of kind }
{
    match kind {
        VariableKind::Var => Role::Sets,
        VariableKind::Let | VariableKind::Const => Role::Initializes,
    }
}

/// The places of those of these names that are lexical.
pub(crate) fn lexicals_of(
    alloc: Global,
    kind: VariableKind,
    names: &[NamedAt],
) -> Result<Items<u32>, AllocError>
    ensures { IfOk result (λ ps. ps ≡ lexicals_of kind names.now) }
{
    match kind {
        VariableKind::Var => Ok(Items::new(alloc)),
        VariableKind::Let | VariableKind::Const => name_places(alloc, names),
    }
}

/// The places of the lexical names of a declaration.
pub(crate) fn declared_lexicals(
    alloc: Global,
    kind: VariableKind,
    parts: &[Part],
) -> Result<Items<u32>, AllocError>
    ensures { IfOk result (λ ps. ps ≡ lexicals_of kind (parts_names (map part_lowered parts.now))) }
{
    let names = parts_names(alloc, parts)?;
    lexicals_of(alloc, kind, names.as_slice())
}

impl<
    E: Fn(Around, &Expression, &mut Lowerer) -> Result<Reached, AllocError>,
    P: Fn(Around, &Pattern, Role, CoreExpr, &mut Lowerer) -> Result<Items<CoreStat>, AllocError>,
    S,
    F,
> Flow<'_, E, P, S, F> {
    /// Without an initializer a lexical name is undefined, and `var` does nothing (13.3.1.4, 13.3.2.4).
    fn undefined_bound(
        &self,
        pattern: &Pattern,
        role: Role,
        state: &mut Lowerer,
    ) -> Result<Items<CoreStat>, AllocError>
        requires patterns { HasPatterns P.pre P.post self.now.here }
        ensures { Lowers (done_at self.now.here.around (undefined_bound (pattern_lowered pattern.now) role) state.old) result state.new }
    {
        match role {
            Role::Sets => Ok(Items::new(self.here.around.alloc)),
            Role::Assigns | Role::Initializes => {
                let value = undefined(self.here.around.alloc);
                self.here.bound(pattern, role, value, state)
            }
        }
    }

    fn value_bound(
        &self,
        pattern: &Pattern,
        role: Role,
        value: &Expression,
        state: &mut Lowerer,
    ) -> Result<Items<CoreStat>, AllocError>
        requires expressions { HasExpressions E.pre E.post self.now.here }
        requires patterns { HasPatterns P.pre P.post self.now.here }
        ensures { Lowers (done_at self.now.here.around (value_bound (pattern_lowered pattern.now) role (valued (expression_lowered value.now))) state.old) result state.new }
    {
        let value = self.here.value(value, state)?;
        self.here.bound(pattern, role, value, state)
    }

    #[tactic(auto, using(lower_walk::proofs::Layers::part_out))]
    fn declarator(
        &self,
        role: Role,
        part: &Part,
        state: &mut Lowerer,
    ) -> Result<Items<CoreStat>, AllocError>
        requires expressions { HasExpressions E.pre E.post self.now.here }
        requires patterns { HasPatterns P.pre P.post self.now.here }
        ensures { Lowers (done_at self.now.here.around (declarator role (part_lowered part.now).pattern (part_lowered part.now).default) state.old) result state.new }
    {
        match &part.default {
            None => self.undefined_bound(&part.pattern, role, state),
            Some(value) => self.value_bound(&part.pattern, role, value, state),
        }
    }

    /// What the parts of a declaration do, from left to right.
    pub(crate) fn declarators(
        &self,
        role: Role,
        parts: &[Part],
        state: &mut Lowerer,
    ) -> Result<Items<CoreStat>, AllocError>
        requires expressions { HasExpressions E.pre E.post self.now.here }
        requires patterns { HasPatterns P.pre P.post self.now.here }
        ensures { Lowers (done_at self.now.here.around (declarators role (map part_lowered parts.now)) state.old) result state.new }
    {
        let mut made = Items::new(self.here.around.alloc);
        for part in parts {
            made.append(self.declarator(role, part, state)?)?;
        }
        Ok(made)
    }
}

/// The class, and then the outer name that is declared at a place (14.5.15).
pub fn lower_class_at<
    E: Fn(Around, &Expression, &mut Lowerer) -> Result<Reached, AllocError>,
    P,
    S,
    F: Fn(Around, &Function, FunctionForm, &mut Lowerer) -> Result<FunctionId, AllocError>,
>(
    here: &Here<'_, E, P, S, F>,
    at: u32,
    class: &Class,
    state: &mut Lowerer,
) -> Result<Items<CoreStat>, AllocError>
    requires expressions { HasExpressions E.pre E.post here.now }
    requires functions { HasFunctions F.pre F.post here.now }
    ensures { Lowers (done_at here.now.around (class_at at (class_lowered class.now)) state.old) result state.new }
{
    let made = lower_class_definition(here, class, state)?;
    let outer = here.around.bindings.declared_var(here.around.context, at)?;
    lower_class_declaration(here.around.alloc, outer, made.class, made.statements)
}

impl<
    E: Fn(Around, &Expression, &mut Lowerer) -> Result<Reached, AllocError>,
    P,
    S,
    F: Fn(Around, &Function, FunctionForm, &mut Lowerer) -> Result<FunctionId, AllocError>,
> Flow<'_, E, P, S, F> {
    /// A class declaration.
    #[tactic(auto, using(lower_walk::proofs::Layers::class_out))]
    pub(crate) fn class_declaration(
        &self,
        class: &Class,
        state: &mut Lowerer,
    ) -> Result<Items<CoreStat>, AllocError>
        requires expressions { HasExpressions E.pre E.post self.now.here }
        requires functions { HasFunctions F.pre F.post self.now.here }
        ensures { Lowers (done_at self.now.here.around (class_named (class_lowered class.now) (class_lowered class.now).name).statements state.old) result state.new }
    {
        match &class.name {
            None => Ok(Items::new(self.here.around.alloc)),
            Some(name) => lower_class_at(&self.here, name.span.begin, class, state),
        }
    }
}
