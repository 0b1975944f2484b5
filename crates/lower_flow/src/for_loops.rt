//! `for` (ECMA-262, 6th edition, 13.7.4).

ghost use Rattle.lower_flow.specs.Nodes.{for_node, turns_node};
ghost use Rattle.lower_walk.specs.Handed.{done_at, HasExpressions, HasPatterns, HasStatements};
ghost use Rattle.module_lowering.specs.Lowered.{for_first_lowered};
ghost use Rattle.module_lowering.specs.Lowering.{Lowers};
ghost use Rattle.module_lowering.specs.Names.{scoped_names};
ghost use Rattle.std.specs.Prelude.{◌≡◌, IfOk};

use crate::declarations::{declared_lexicals, role_of};
use crate::flow::Flow;
use core_ast::{CoreExpr, CoreStat, ScopedName};
use es6_ast::{Expression, ForFirst, Pattern, Statement};
use lower_statements::{exit_label, lower_for};
use lower_walk::Around;
use lowering_rules::reference_rules::Reached;
use lowering_rules::statement_rules::{ForLoop, ForTurns};
use module_lowering::{Lowerer, Role};
use sqlite_items::{Boxed, Items};
use std::alloc::{AllocError, Global};

/// The places of the lexical names of a head.
#[tactic(auto, unfolding(module_lowering::specs::Lowered::for_first_lowered, module_lowering::specs::Lowered::part_lowered))]
fn lexicals(alloc: Global, first: &ForFirst) -> Result<Items<u32>, AllocError>
    ensures { IfOk result (λ ps. ps ≡ (for_first_lowered first.now).lexicals) }
{
    match first {
        ForFirst::FirstVariables { kind, parts, .. } => {
            declared_lexicals(alloc, *kind, parts.as_slice())
        }
        ForFirst::NoFirst | ForFirst::FirstExpression(_) => Ok(Items::new(alloc)),
    }
}

/// The scope of a head.
fn names(around: Around, first: &ForFirst) -> Result<Items<ScopedName>, AllocError>
    ensures { IfOk result (λ ns. ns ≡ scoped_names (for_first_lowered first.now).lexicals around.entry.bindings.now around.entry.context.now) }
{
    let places = lexicals(around.alloc, first)?;
    around
        .bindings
        .scoped_names(around.alloc, around.context, places.as_slice())
}

impl<
    E: Fn(Around, &Expression, &mut Lowerer) -> Result<Reached, AllocError>,
    P: Fn(Around, &Pattern, Role, CoreExpr, &mut Lowerer) -> Result<Items<CoreStat>, AllocError>,
    S: Fn(Around, &Statement, &mut Lowerer) -> Result<Items<CoreStat>, AllocError>,
    F,
> Flow<'_, E, P, S, F> {
    /// What stands before the first semicolon.
    #[tactic(auto, unfolding(module_lowering::specs::Lowered::for_first_lowered, module_lowering::specs::Lowered::part_lowered, module_lowering::specs::Lowered::expression_lowered))]
    fn first(&self, first: &ForFirst, state: &mut Lowerer) -> Result<Items<CoreStat>, AllocError>
        requires expressions { HasExpressions E.pre E.post self.now.here }
        requires patterns { HasPatterns P.pre P.post self.now.here }
        ensures { Lowers (done_at self.now.here.around (for_first_lowered first.now).statements state.old) result state.new }
    {
        match first {
            ForFirst::NoFirst => Ok(Items::new(self.here.around.alloc)),
            ForFirst::FirstVariables { kind, parts, .. } => {
                self.declarators(role_of(*kind), parts.as_slice(), state)
            }
            ForFirst::FirstExpression(expression) => self.expression_statement(expression, state),
        }
    }

    /// What its turns do.
    fn for_turns(
        &self,
        at: u32,
        test: &Option<Boxed<Expression>>,
        update: &Option<Boxed<Expression>>,
        body: &Statement,
        state: &mut Lowerer,
    ) -> Result<ForTurns, AllocError>
        requires expressions { HasExpressions E.pre E.post self.now.here }
        requires statements { HasStatements S.pre S.post self.now.here }
        ensures { Lowers (done_at self.now.here.around (turns_node at test.now update.now body.now) state.old) result state.new }
    {
        let label = exit_label(at)?;
        let test = self.here.optional(test, state)?;
        let update = self.here.optional(update, state)?;
        let body = self.here.under(body, state)?;
        Ok(ForTurns {
            label,
            test,
            update,
            body,
        })
    }

    /// A `for` that begins at a place.
    pub(crate) fn for_loop(
        &self,
        at: u32,
        first: &ForFirst,
        test: &Option<Boxed<Expression>>,
        update: &Option<Boxed<Expression>>,
        body: &Statement,
        state: &mut Lowerer,
    ) -> Result<Items<CoreStat>, AllocError>
        requires expressions { HasExpressions E.pre E.post self.now.here }
        requires patterns { HasPatterns P.pre P.post self.now.here }
        requires statements { HasStatements S.pre S.post self.now.here }
        ensures { Lowers (done_at self.now.here.around (for_node at first.now test.now update.now body.now) state.old) result state.new }
    {
        let names = names(self.here.around, first)?;
        let first = self.first(first, state)?;
        let turns = self.for_turns(at, test, update, body, state)?;
        lower_for(
            self.here.around.alloc,
            ForLoop {
                names,
                first,
                turns,
            },
        )
    }
}
