//! Loops with a test (ECMA-262, 6th edition, 13.7.2 and 13.7.3).

ghost use Rattle.lower_flow.specs.Nodes.{do_while_node, while_node};
ghost use Rattle.lower_walk.specs.Handed.{done_at, HasExpressions, HasStatements};
ghost use Rattle.module_lowering.specs.Lowering.{Lowers};
ghost use Rattle.lowering_rules.specs.statement_rules.Statements.{body_label, do_while, exit_label, while_loop};
ghost use Rattle.std.specs.Prelude.{◌≡◌, ◌∷◌, [], IfOk};

use crate::flow::Flow;
use core_ast::{CoreExpr, CoreStat};
use es6_ast::{Expression, Statement};
use lower_parts::alone;
use lower_statements::{body_label, exit_label, lower_do_while, lower_while};
use lower_walk::Around;
use lowering_rules::reference_rules::Reached;
use module_lowering::Lowerer;
use sqlite_items::Items;
use std::alloc::{AllocError, Global};

fn while_built(
    alloc: Global,
    at: u32,
    test: CoreExpr,
    body: Items<CoreStat>,
) -> Result<Items<CoreStat>, AllocError>
    ensures { IfOk result (λ ss. ss ≡ while_loop (exit_label at) test body ∷ []) }
{
    let label = exit_label(at)?;
    alone(alloc, lower_while(alloc, label, test, body)?)
}

fn do_while_built(
    alloc: Global,
    at: u32,
    body: Items<CoreStat>,
    test: CoreExpr,
) -> Result<CoreStat, AllocError>
    ensures { IfOk result (λ s. s ≡ do_while (exit_label at) (body_label at) body test) }
{
    let exit = exit_label(at)?;
    let inside = body_label(at)?;
    lower_do_while(alloc, exit, inside, body, test)
}

impl<
    E: Fn(Around, &Expression, &mut Lowerer) -> Result<Reached, AllocError>,
    P,
    S: Fn(Around, &Statement, &mut Lowerer) -> Result<Items<CoreStat>, AllocError>,
    F,
> Flow<'_, E, P, S, F> {
    /// A `while` that begins at a place.
    pub(crate) fn while_loop(
        &self,
        at: u32,
        test: &Expression,
        body: &Statement,
        state: &mut Lowerer,
    ) -> Result<Items<CoreStat>, AllocError>
        requires expressions { HasExpressions E.pre E.post self.now.here }
        requires statements { HasStatements S.pre S.post self.now.here }
        ensures { Lowers (done_at self.now.here.around (while_node at test.now body.now) state.old) result state.new }
    {
        let test = self.here.value(test, state)?;
        let body = self.here.under(body, state)?;
        while_built(self.here.around.alloc, at, test, body)
    }

    /// A `do` that begins at a place.
    pub(crate) fn do_while(
        &self,
        at: u32,
        body: &Statement,
        test: &Expression,
        state: &mut Lowerer,
    ) -> Result<Items<CoreStat>, AllocError>
        requires expressions { HasExpressions E.pre E.post self.now.here }
        requires statements { HasStatements S.pre S.post self.now.here }
        ensures { Lowers (done_at self.now.here.around (do_while_node at body.now test.now) state.old) result state.new }
    {
        let alloc = self.here.around.alloc;
        let body = self.here.under(body, state)?;
        let test = self.here.value(test, state)?;
        alone(alloc, do_while_built(alloc, at, body, test)?)
    }
}
