//! Bodies of functions and of arrows (ECMA-262, 6th edition, 9.2.12 and 14.2).

ghost use Rattle.std.specs.Prelude.{◌++◌, ◌≡◌, map, IfOk};
ghost use Rattle.lower_functions.specs.Bodies.{body_listed};
ghost use Rattle.lower_listed.specs.Hoisted.{hoisted_of};
ghost use Rattle.lower_walk.specs.Handed.{done_at, HasExpressions, HasFunctions, HasStatements};
ghost use Rattle.module_lowering.specs.Expressions.{valued};
ghost use Rattle.module_lowering.specs.Functions.{body_hoisted, body_names, parameter_names, value_returned};
ghost use Rattle.module_lowering.specs.Lowered.{arrow_body_lowered, block_lowered, expression_lowered, parameter_lowered};
ghost use Rattle.module_lowering.specs.Lowering.{Lowers};
ghost use Rattle.module_lowering.specs.Names.{body_vars, first_vars, places, scoped_names};

use crate::walk::Walk;
use core_ast::{CoreStat, Declared, FunctionId, ScopedName, Var};
use es6_ast::{ArrowBody, Block, Expression, Function, Parameter, Statement};
use lower_listed::{
    HoistedAt, NamedAt, lower_body_hoisted, name_places, parameters_names, scope_places,
    statements_functions, statements_lexicals, statements_variables,
};
use lower_params::concise;
use lower_walk::Around;
use lowering_rules::BodyVar;
use lowering_rules::reference_rules::Reached;
use lowering_rules::statement_rules::BodyNames;
use module_lowering::{FunctionForm, Lowerer};
use sqlite_items::Items;
use std::alloc::{AllocError, Global};

/// The body of a function: statements, or of an arrow an expression, whose value is returned.
#[derive(Clone, Copy)]
pub(crate) enum Body<'a> {
    Value(&'a Expression),
    Statements(&'a [Statement]),
}

/// The body of an arrow that is a block.
#[tactic(auto, using(lower_walk::proofs::Layers::block_out))]
fn block_body(block: &Block) -> Body<'_>
    ensures { body_listed result ≡ block_lowered block.now }
{
    Body::Statements(block.statements.as_slice())
}

/// The body of an arrow.
#[tactic(auto, unfolding(module_lowering::specs::Lowered::arrow_body_lowered, module_lowering::specs::Lowered::block_lowered, module_lowering::specs::Lowered::expression_lowered))]
pub(crate) fn arrow_body(body: &ArrowBody) -> Body<'_>
    ensures { body_listed result ≡ arrow_body_lowered body.now }
{
    match body {
        ArrowBody::ValueBody(value) => Body::Value(value.get()),
        ArrowBody::BlockBody(block) => block_body(block),
    }
}

impl<'a> Body<'a> {
    /// The names that `var` declares in it (13.3.2.2).
    fn variables(&self, alloc: Global) -> Result<Items<NamedAt<'a>>, AllocError>
        ensures { IfOk result (λ xs. xs ≡ (body_listed self.now).variables) }
    {
        match self {
            Body::Value(_) => Ok(Items::new(alloc)),
            Body::Statements(statements) => statements_variables(alloc, statements),
        }
    }

    /// The places of the names of its lexical declarations but functions.
    fn lexicals(&self, alloc: Global) -> Result<Items<u32>, AllocError>
        ensures { IfOk result (λ xs. xs ≡ (body_listed self.now).lexicals) }
    {
        match self {
            Body::Value(_) => Ok(Items::new(alloc)),
            Body::Statements(statements) => statements_lexicals(alloc, statements),
        }
    }

    /// The functions that it declares.
    fn functions(&self, alloc: Global) -> Result<Items<HoistedAt<'a>>, AllocError>
        ensures { IfOk result (λ hs. map hoisted_of hs ≡ (body_listed self.now).functions) }
    {
        match self {
            Body::Value(_) => Ok(Items::new(alloc)),
            Body::Statements(statements) => statements_functions(alloc, statements),
        }
    }

    /// The places of the names that `var` declares in it.
    fn variable_places(&self, alloc: Global) -> Result<Items<u32>, AllocError>
        ensures { IfOk result (λ xs. xs ≡ places (body_listed self.now).variables) }
    {
        let variables = self.variables(alloc)?;
        name_places(alloc, variables.as_slice())
    }

    /// Those places, and behind them those of the functions.
    fn places(&self, alloc: Global) -> Result<Items<u32>, AllocError>
        ensures { IfOk result (λ xs. xs ≡ places (body_listed self.now).variables ++ map (λ h. h.at) (body_listed self.now).functions) }
    {
        let variables = self.variable_places(alloc)?;
        let functions = self.functions(alloc)?;
        scope_places(alloc, variables.as_slice(), functions.as_slice())
    }
}

impl<E, P, S, F> Walk<'_, E, P, S, F> {
    /// The variables that `var` and functions declare in the body.
    fn variables(&self, body: &Body) -> Result<Items<Var>, AllocError>
        ensures { IfOk result (λ xs. xs ≡ first_vars (places (body_listed body.now).variables ++ map (λ h. h.at) (body_listed body.now).functions) self.now.here.around.bindings.now self.now.here.around.context.now) }
    {
        let around = self.here.around;
        let places = body.places(around.alloc)?;
        let bindings = around.bindings;
        bindings.first_vars(around.alloc, around.context, places.as_slice())
    }

    /// The names of its lexical declarations.
    fn lexical(&self, body: &Body) -> Result<Items<ScopedName>, AllocError>
        ensures { IfOk result (λ ns. ns ≡ scoped_names (body_listed body.now).lexicals self.now.here.around.bindings.now self.now.here.around.context.now) }
    {
        let around = self.here.around;
        let places = body.lexicals(around.alloc)?;
        let bindings = around.bindings;
        bindings.scoped_names(around.alloc, around.context, places.as_slice())
    }

    /// What the body declares.
    pub fn body_names(
        &self,
        body: &Body,
        functions: Items<Declared>,
    ) -> Result<BodyNames, AllocError>
        ensures { IfOk result (λ ns. ns ≡ body_names (body_listed body.now) functions self.now.here.around.bindings.now self.now.here.around.context.now) }
    {
        let variables = self.variables(body)?;
        let lexical = self.lexical(body)?;
        Ok(BodyNames {
            variables,
            lexical,
            functions,
        })
    }

    /// The variables of the body that are named as parameters, where these are names of another scope.
    #[tactic(auto, using(lower_walk::proofs::lower_names::Maps::map_identity))]
    pub fn body_vars(
        &self,
        parameters: &[Parameter],
        body: &Body,
    ) -> Result<Items<BodyVar>, AllocError>
        ensures { IfOk result (λ vs. vs ≡ body_vars (parameter_names (map parameter_lowered parameters.now)) (body_listed body.now).variables self.now.here.around.bindings.now self.now.here.around.context.now) }
    {
        let around = self.here.around;
        let names = parameters_names(around.alloc, parameters)?;
        let variables = body.variables(around.alloc)?;
        let bindings = around.bindings;
        bindings.body_vars(
            around.alloc,
            around.context,
            names.as_slice(),
            variables.as_slice(),
        )
    }
}

impl<
    E,
    P,
    S,
    F: Fn(Around, &Function, FunctionForm, &mut Lowerer) -> Result<FunctionId, AllocError>,
> Walk<'_, E, P, S, F> {
    /// The functions that the body declares, which are made before any statement runs.
    pub fn hoisted(&self, body: &Body, state: &mut Lowerer) -> Result<Items<Declared>, AllocError>
        requires functions { HasFunctions F.pre F.post self.now.here }
        ensures { Lowers (done_at self.now.here.around (body_hoisted (body_listed body.now).functions) state.old) result state.new }
    {
        let functions = body.functions(self.here.around.alloc)?;
        lower_body_hoisted(&self.here, functions.as_slice(), state)
    }
}

impl<E: Fn(Around, &Expression, &mut Lowerer) -> Result<Reached, AllocError>, P, S, F> Walk<
    '_,
    E,
    P,
    S,
    F,
> {
    /// The value of an expression that is the whole body is returned.
    fn value_returned(
        &self,
        value: &Expression,
        state: &mut Lowerer,
    ) -> Result<Items<CoreStat>, AllocError>
        requires expressions { HasExpressions E.pre E.post self.now.here }
        ensures { Lowers (done_at self.now.here.around (value_returned (valued (expression_lowered value.now))) state.old) result state.new }
    {
        let value = self.here.value(value, state)?;
        concise(self.here.around.alloc, value)
    }
}

impl<
    E: Fn(Around, &Expression, &mut Lowerer) -> Result<Reached, AllocError>,
    P,
    S: Fn(Around, &Statement, &mut Lowerer) -> Result<Items<CoreStat>, AllocError>,
    F,
> Walk<'_, E, P, S, F> {
    /// What the body becomes.
    pub fn body_statements(
        &self,
        body: &Body,
        state: &mut Lowerer,
    ) -> Result<Items<CoreStat>, AllocError>
        requires expressions { HasExpressions E.pre E.post self.now.here }
        requires statements { HasStatements S.pre S.post self.now.here }
        ensures { Lowers (done_at self.now.here.around (body_listed body.now).statements state.old) result state.new }
    {
        match body {
            Body::Value(value) => self.value_returned(value, state),
            Body::Statements(statements) => self.here.statements(statements, state),
        }
    }
}
