//! `try` (ECMA-262, 6th edition, 13.15).

ghost use Rattle.lower_flow.specs.Handlers.{in_heads, parameter_made};
ghost use Rattle.lower_flow.specs.Nodes.{try_node};
ghost use Rattle.lower_walk.specs.Handed.{done_at, HasFunctions, HasPatterns, HasStatements};
ghost use Rattle.module_lowering.specs.Lowered.{block_lowered, catch_lowered, pattern_lowered};
ghost use Rattle.module_lowering.specs.Lowering.{option, Lowers};
ghost use Rattle.module_lowering.specs.Names.{places};
ghost use Rattle.module_lowering.specs.Statements.{block_made, handler};
ghost use Rattle.std.specs.Option.{option_map};
ghost use Rattle.std.specs.Prelude.{◌≡◌, IfOk};

use crate::flow::{Flow, placed};
use core_ast::{CoreExpr, CoreStat, FunctionId, ScopedName, Var, variable};
use es6_ast::{Block, Catch, Function, Pattern, Statement};
use lower_listed::{name_places, pattern_names};
use lower_statements::lower_try;
use lower_walk::{Around, in_places};
use lowering_rules::statement_rules::Handler;
use module_lowering::{FunctionForm, Lowerer, Role};
use sqlite_items::{Boxed, Items};
use std::alloc::{AllocError, Global};

/// The names of a catch parameter, and the statements that bind these.
#[derive(Drop)]
pub struct Parameter {
    pub names: Items<ScopedName>,
    pub bound: Items<CoreStat>,
}

fn places_of(alloc: Global, pattern: &Pattern) -> Result<Items<u32>, AllocError>
    ensures { IfOk result (λ ps. ps ≡ places (pattern_lowered pattern.now).names) }
{
    let names = pattern_names(alloc, pattern)?;
    name_places(alloc, names.as_slice())
}

impl<
    E,
    P: Fn(Around, &Pattern, Role, CoreExpr, &mut Lowerer) -> Result<Items<CoreStat>, AllocError>,
    S: Fn(Around, &Statement, &mut Lowerer) -> Result<Items<CoreStat>, AllocError>,
    F: Fn(Around, &Function, FunctionForm, &mut Lowerer) -> Result<FunctionId, AllocError>,
> Flow<'_, E, P, S, F> {
    /// In its pattern the names of a catch parameter may be uninitialized (13.15.7).
    fn parameter_bound(
        &self,
        places: &[u32],
        parameter: &Pattern,
        thrown: Var,
        state: &mut Lowerer,
    ) -> Result<Items<CoreStat>, AllocError>
        requires patterns { HasPatterns P.pre P.post self.now.here }
        ensures { Lowers (done_at self.now.here.around (in_heads places.now (pattern_lowered parameter.now) thrown) state.old) result state.new }
    {
        let around = self.here.around;
        let context = in_places(around.alloc, places, around.context)?;
        let inner = placed(&self.here, &context);
        let value = variable(around.alloc, thrown);
        inner.here.bound(parameter, Role::Initializes, value, state)
    }

    fn parameter(
        &self,
        parameter: &Pattern,
        thrown: Var,
        state: &mut Lowerer,
    ) -> Result<Parameter, AllocError>
        requires patterns { HasPatterns P.pre P.post self.now.here }
        ensures { Lowers (done_at self.now.here.around (parameter_made (pattern_lowered parameter.now) thrown) state.old) result state.new }
    {
        let Around {
            alloc,
            bindings,
            context,
            ..
        } = self.here.around;
        let places = places_of(alloc, parameter)?;
        let names = bindings.scoped_names(alloc, context, places.as_slice())?;
        let bound = self.parameter_bound(places.as_slice(), parameter, thrown, state)?;
        Ok(Parameter { names, bound })
    }

    #[tactic(auto, using(lower_walk::proofs::Layers::catch_out))]
    fn handler(&self, catch: &Catch, state: &mut Lowerer) -> Result<Handler, AllocError>
        requires patterns { HasPatterns P.pre P.post self.now.here }
        requires statements { HasStatements S.pre S.post self.now.here }
        requires functions { HasFunctions F.pre F.post self.now.here }
        ensures { Lowers (done_at self.now.here.around (handler (catch_lowered catch.now)) state.old) result state.new }
    {
        let thrown = self.here.raw(state)?;
        let Parameter { names, bound } = self.parameter(&catch.parameter, thrown, state)?;
        let block = self.block(&catch.body, state)?;
        Ok(Handler {
            thrown,
            names,
            bound,
            block,
        })
    }

    fn handlers(
        &self,
        catch: &Option<Boxed<Catch>>,
        state: &mut Lowerer,
    ) -> Result<Option<Handler>, AllocError>
        requires patterns { HasPatterns P.pre P.post self.now.here }
        requires statements { HasStatements S.pre S.post self.now.here }
        requires functions { HasFunctions F.pre F.post self.now.here }
        ensures { Lowers (done_at self.now.here.around (option (option_map handler (option_map catch_lowered catch.now))) state.old) result state.new }
    {
        match catch {
            None => Ok(None),
            Some(catch) => Ok(Some(self.handler(catch.get(), state)?)),
        }
    }

    fn finally(
        &self,
        last: &Option<Block>,
        state: &mut Lowerer,
    ) -> Result<Option<Items<CoreStat>>, AllocError>
        requires statements { HasStatements S.pre S.post self.now.here }
        requires functions { HasFunctions F.pre F.post self.now.here }
        ensures { Lowers (done_at self.now.here.around (option (option_map block_made (option_map block_lowered last.now))) state.old) result state.new }
    {
        match last {
            None => Ok(None),
            Some(block) => Ok(Some(self.block(block, state)?)),
        }
    }

    /// A block with its handler and its last block.
    pub(crate) fn try_statement(
        &self,
        tried: &Block,
        catch: &Option<Boxed<Catch>>,
        last: &Option<Block>,
        state: &mut Lowerer,
    ) -> Result<Items<CoreStat>, AllocError>
        requires patterns { HasPatterns P.pre P.post self.now.here }
        requires statements { HasStatements S.pre S.post self.now.here }
        requires functions { HasFunctions F.pre F.post self.now.here }
        ensures { Lowers (done_at self.now.here.around (try_node tried.now catch.now last.now) state.old) result state.new }
    {
        let tried = self.block(tried, state)?;
        let handler = self.handlers(catch, state)?;
        let last = self.finally(last, state)?;
        lower_try(self.here.around.alloc, tried, handler, last)
    }
}
