//! Blocks and scopes (ECMA-262, 6th edition, 13.2).

ghost use Rattle.lower_flow.specs.Nodes.{statements_scope};
ghost use Rattle.lower_flow.specs.Scopes.{scope_made};
ghost use Rattle.lower_listed.specs.Hoisted.{hoisted_of};
ghost use Rattle.lower_walk.specs.Handed.{done_at, HasFunctions, HasStatements};
ghost use Rattle.module_lowering.specs.Lowered.{block_lowered, statement_lowered};
ghost use Rattle.module_lowering.specs.Lowering.{Lowers};
ghost use Rattle.module_lowering.specs.Statements.{block_made, listed};
ghost use Rattle.std.specs.Prelude.{map};

use crate::flow::Flow;
use core_ast::{CoreStat, Declared, FunctionId, ScopedName};
use es6_ast::{Block, Function, Statement};
use lower_listed::{
    HoistedAt, lower_hoisted, scope_places, statements_functions, statements_lexicals,
};
use lower_statements::lower_block;
use lower_walk::Around;
use module_lowering::{FunctionForm, Lowerer};
use sqlite_items::Items;
use std::alloc::AllocError;

/// The names of a scope, and its functions, which are there before its statements run.
#[derive(Drop)]
pub struct Scope {
    pub names: Items<ScopedName>,
    pub functions: Items<Declared>,
}

impl<
    E,
    P,
    S: Fn(Around, &Statement, &mut Lowerer) -> Result<Items<CoreStat>, AllocError>,
    F: Fn(Around, &Function, FunctionForm, &mut Lowerer) -> Result<FunctionId, AllocError>,
> Flow<'_, E, P, S, F> {
    /// The scope of these lexical declarations and functions.
    pub(crate) fn scope(
        &self,
        lexicals: &[u32],
        functions: &[HoistedAt],
        state: &mut Lowerer,
    ) -> Result<Scope, AllocError>
        requires functions { HasFunctions F.pre F.post self.now.here }
        ensures { Lowers (done_at self.now.here.around (scope_made lexicals.now (map hoisted_of functions.now)) state.old) result state.new }
    {
        let alloc = self.here.around.alloc;
        let places = scope_places(alloc, lexicals, functions)?;
        let names = self
            .here
            .around
            .bindings
            .scoped_names(alloc, self.here.around.context, places.as_slice())?;
        let functions = lower_hoisted(&self.here, functions, state)?;
        Ok(Scope { names, functions })
    }

    /// The scope of a list of statements.
    fn statements_scope(
        &self,
        statements: &[Statement],
        state: &mut Lowerer,
    ) -> Result<Scope, AllocError>
        requires functions { HasFunctions F.pre F.post self.now.here }
        ensures { Lowers (done_at self.now.here.around (statements_scope statements.now) state.old) result state.new }
    {
        let alloc = self.here.around.alloc;
        let lexicals = statements_lexicals(alloc, statements)?;
        let functions = statements_functions(alloc, statements)?;
        self.scope(lexicals.as_slice(), functions.as_slice(), state)
    }

    /// These statements in a scope of their own (13.2.13).
    fn statements_block(
        &self,
        statements: &[Statement],
        state: &mut Lowerer,
    ) -> Result<Items<CoreStat>, AllocError>
        requires statements { HasStatements S.pre S.post self.now.here }
        requires functions { HasFunctions F.pre F.post self.now.here }
        ensures { Lowers (done_at self.now.here.around (block_made (listed (map statement_lowered statements.now))) state.old) result state.new }
    {
        let Scope { names, functions } = self.statements_scope(statements, state)?;
        let body = self.here.statements(statements, state)?;
        lower_block(self.here.around.alloc, names, functions, body)
    }

    /// A block.
    #[tactic(auto, using(lower_walk::proofs::Layers::block_out))]
    pub(crate) fn block(
        &self,
        block: &Block,
        state: &mut Lowerer,
    ) -> Result<Items<CoreStat>, AllocError>
        requires statements { HasStatements S.pre S.post self.now.here }
        requires functions { HasFunctions F.pre F.post self.now.here }
        ensures { Lowers (done_at self.now.here.around (block_made (block_lowered block.now)) state.old) result state.new }
    {
        self.statements_block(block.statements.as_slice(), state)
    }
}
