//! `if` (ECMA-262, 6th edition, 13.6).

ghost use Rattle.lower_flow.specs.Nodes.{if_node};
ghost use Rattle.lower_walk.specs.Handed.{done_at, HasExpressions, HasStatements};
ghost use Rattle.module_lowering.specs.Lowered.{condition_lowered, statement_lowered};
ghost use Rattle.module_lowering.specs.Lowering.{each_by, option, Lowers};
ghost use Rattle.module_lowering.specs.Statements.{under};
ghost use Rattle.lowering_rules.specs.statement_rules.Statements.{if_chain};
ghost use Rattle.std.specs.Option.{option_map};
ghost use Rattle.std.specs.Prelude.{◌≡◌, ◌∷◌, [], map, IfOk};

use crate::flow::Flow;
use core_ast::{CoreCase, CoreStat};
use es6_ast::{Condition, Expression, Statement};
use lower_parts::alone;
use lower_statements::{branch, lower_if};
use lower_walk::Around;
use lowering_rules::reference_rules::Reached;
use module_lowering::Lowerer;
use sqlite_items::{Boxed, Items};
use std::alloc::{AllocError, Global};

fn chosen(
    alloc: Global,
    first: CoreCase,
    more: Items<CoreCase>,
    other: Option<Items<CoreStat>>,
) -> Result<Items<CoreStat>, AllocError>
    ensures { IfOk result (λ ss. ss ≡ if_chain first more other ∷ []) }
{
    alone(alloc, lower_if(alloc, first, more, other)?)
}

impl<
    E: Fn(Around, &Expression, &mut Lowerer) -> Result<Reached, AllocError>,
    P,
    S: Fn(Around, &Statement, &mut Lowerer) -> Result<Items<CoreStat>, AllocError>,
    F,
> Flow<'_, E, P, S, F> {
    /// A statement under a test.
    #[tactic(auto, using(lower_walk::proofs::Layers::condition_out))]
    fn condition(&self, condition: &Condition, state: &mut Lowerer) -> Result<CoreCase, AllocError>
        requires expressions { HasExpressions E.pre E.post self.now.here }
        requires statements { HasStatements S.pre S.post self.now.here }
        ensures { Lowers (done_at self.now.here.around (condition_lowered condition.now).lowered state.old) result state.new }
    {
        let test = self.here.value(condition.test.get(), state)?;
        let body = self.here.under(condition.body.get(), state)?;
        Ok(branch(test, body))
    }

    fn conditions(
        &self,
        conditions: &[Condition],
        state: &mut Lowerer,
    ) -> Result<Items<CoreCase>, AllocError>
        requires expressions { HasExpressions E.pre E.post self.now.here }
        requires statements { HasStatements S.pre S.post self.now.here }
        ensures { Lowers (done_at self.now.here.around (each_by (λ c. c.lowered) (map condition_lowered conditions.now)) state.old) result state.new }
    {
        let mut made = Items::new(self.here.around.alloc);
        for condition in conditions {
            made.push(self.condition(condition, state)?)?;
        }
        Ok(made)
    }

    fn otherwise(
        &self,
        statement: &Option<Boxed<Statement>>,
        state: &mut Lowerer,
    ) -> Result<Option<Items<CoreStat>>, AllocError>
        requires statements { HasStatements S.pre S.post self.now.here }
        ensures { Lowers (done_at self.now.here.around (option (option_map under (option_map statement_lowered statement.now))) state.old) result state.new }
    {
        match statement {
            None => Ok(None),
            Some(statement) => Ok(Some(self.here.under(statement.get(), state)?)),
        }
    }

    /// An `if` with its chain of `else if`.
    pub(crate) fn if_statement(
        &self,
        first: &Condition,
        more: &[Condition],
        otherwise: &Option<Boxed<Statement>>,
        state: &mut Lowerer,
    ) -> Result<Items<CoreStat>, AllocError>
        requires expressions { HasExpressions E.pre E.post self.now.here }
        requires statements { HasStatements S.pre S.post self.now.here }
        ensures { Lowers (done_at self.now.here.around (if_node first.now more.now otherwise.now) state.old) result state.new }
    {
        let first = self.condition(first, state)?;
        let more = self.conditions(more, state)?;
        let other = self.otherwise(otherwise, state)?;
        chosen(self.here.around.alloc, first, more, other)
    }
}
