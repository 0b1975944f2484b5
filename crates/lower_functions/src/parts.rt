//! The parts of functions (ECMA-262, 6th edition, 9.2.12).

ghost use Rattle.std.specs.Prelude.{◌≡◌, map, IfOk};
ghost use Rattle.lower_functions.specs.Bodies.{body_listed, parts_of};
ghost use Rattle.lower_walk.specs.Handed.{done_at, HasExpressions, HasFunctions, HasPatterns, HasStatements};
ghost use Rattle.lowering_rules.specs.Functions.{with_parameters};
ghost use Rattle.module_lowering.specs.Functions.{assembled, function_parts};
ghost use Rattle.module_lowering.specs.Lowered.{parameter_lowered};
ghost use Rattle.module_lowering.specs.Lowering.{Lowers};

use crate::bodies::Body;
use crate::parameters::Parameters;
use crate::walk::Walk;
use core_ast::{CoreExpr, CoreFunction, CoreStat, Declared, FunctionId, Var};
use es6_ast::{Expression, Function, Parameter, Pattern, Statement};
use lower_bodies::lower_body;
use lower_params::lower_parameters;
use lower_walk::Around;
use lowering_rules::reference_rules::Reached;
use lowering_rules::statement_rules::BodyNames;
use lowering_rules::{BodyVar, ParameterScope};
use module_lowering::{FunctionForm, Lowerer, Role};
use sqlite_items::Items;
use std::alloc::{AllocError, Global};
use std::marker::Model;

/// The parts of a function: its parameters, the variables of its body that are named as parameters, what the body declares, and its
/// statements.
#[derive(Drop)]
pub(crate) struct FunctionParts {
    pub parameters: Parameters,
    pub body_vars: Items<BodyVar>,
    pub names: BodyNames,
    pub statements: Items<CoreStat>,
}

impl Model for FunctionParts {
    ghost use Rattle.std.specs.Coded.{codes};
    ghost use Rattle.core_ast.specs.contracts.tree.CoreExpr as expression;
    ghost use Rattle.core_ast.specs.contracts.tree.CoreStat as statement;
    ghost use Rattle.module_lowering.specs.Functions.{FunctionParts as PartsMade};

    ghost Value = { PartsMade };

    ghost coded = { Prim.hlevel (codes, expression.the_row.coded, statement.the_row.coded) };

    ghost view = { λ p. record { parameters = p.parameters; body_vars = p.body_vars; names = p.names; statements = p.statements } };
}

fn with_parameters(
    alloc: Global,
    parameters: Parameters,
    body: Items<BodyVar>,
    function: CoreFunction,
) -> Result<CoreFunction, AllocError>
    ensures { IfOk result (λ f. f ≡ with_parameters parameters.list parameters.rest (record { names = parameters.names; body = body }) function) }
{
    let Parameters {
        list,
        rest,
        names,
        ..
    } = parameters;
    let scope = ParameterScope { names, body };
    lower_parameters(alloc, list, rest, scope, function)
}

/// The function of these parts, with these temporaries.
pub(crate) fn assembled(
    alloc: Global,
    parts: FunctionParts,
    locals: Items<Var>,
    function: CoreFunction,
) -> Result<CoreFunction, AllocError>
    ensures { IfOk result (λ f. f ≡ assembled parts locals function) }
{
    let FunctionParts {
        parameters,
        body_vars,
        names,
        statements,
    } = parts;
    let function = with_parameters(alloc, parameters, body_vars, function)?;
    lower_body(alloc, names, statements, locals, function)
}

impl<E, P, S, F> Walk<'_, E, P, S, F> {
    /// The parts of a function, once its parameters and its body are made.
    fn parts_of(
        &self,
        nodes: &[Parameter],
        body: &Body,
        parameters: Parameters,
        functions: Items<Declared>,
        statements: Items<CoreStat>,
    ) -> Result<FunctionParts, AllocError>
        ensures { IfOk result (λ p. p ≡ parts_of (map parameter_lowered nodes.now) (body_listed body.now) parameters functions statements self.now.here.around.bindings.now self.now.here.around.context.now) }
    {
        let body_vars = self.body_vars(nodes, body)?;
        let names = self.body_names(body, functions)?;
        Ok(FunctionParts {
            parameters,
            body_vars,
            names,
            statements,
        })
    }
}

impl<
    E: Fn(Around, &Expression, &mut Lowerer) -> Result<Reached, AllocError>,
    P: Fn(Around, &Pattern, Role, CoreExpr, &mut Lowerer) -> Result<Items<CoreStat>, AllocError>,
    S: Fn(Around, &Statement, &mut Lowerer) -> Result<Items<CoreStat>, AllocError>,
    F: Fn(Around, &Function, FunctionForm, &mut Lowerer) -> Result<FunctionId, AllocError>,
> Walk<'_, E, P, S, F> {
    /// The parts of a function with these parameters and this body.
    pub fn function_parts(
        &self,
        parameters: &[Parameter],
        body: &Body,
        state: &mut Lowerer,
    ) -> Result<FunctionParts, AllocError>
        requires expressions { HasExpressions E.pre E.post self.now.here }
        requires patterns { HasPatterns P.pre P.post self.now.here }
        requires statements { HasStatements S.pre S.post self.now.here }
        requires functions { HasFunctions F.pre F.post self.now.here }
        ensures { Lowers (done_at self.now.here.around (function_parts (map parameter_lowered parameters.now) (body_listed body.now)) state.old) result state.new }
    {
        let made = self.lower_parameters(parameters, state)?;
        let functions = self.hoisted(body, state)?;
        let statements = self.body_statements(body, state)?;
        self.parts_of(parameters, body, made, functions, statements)
    }
}
