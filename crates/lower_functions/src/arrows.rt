//! Arrows (ECMA-262, 6th edition, 14.2.16).

ghost use Rattle.std.specs.Prelude.{◌≡◌, map, IfOk};
ghost use Rattle.core_ast.specs.declared.whole.CoreKind.TheVariants as core_kind;
ghost use Rattle.lower_functions.specs.Bodies.{body_listed};
ghost use Rattle.lower_functions.specs.Insides.{function_of};
ghost use Rattle.lower_walk.specs.Handed.{done_at, HasExpressions, HasFunctions, HasPatterns, HasStatements};
ghost use Rattle.lowering_rules.specs.Functions.{arrow};
ghost use Rattle.module_lowering.specs.Functions.{arrow_made, function_parts, in_arrow, no_receiver};
ghost use Rattle.module_lowering.specs.Lowered.{arrow_lowered, parameter_lowered};
ghost use Rattle.module_lowering.specs.Lowering.{inside_arrow, Lowers, within};

use crate::bodies::{Body, arrow_body};
use crate::forms::{function_of, no_receiver};
use crate::inside::Inside;
use crate::walk::Walk;
use core_ast::{CoreExpr, CoreFunction, CoreKind, CoreStat, FunctionId};
use es6_ast::{Arrow, Expression, Function, Parameter, Pattern, Statement};
use lower_walk::{Around, Here, in_arrow};
use lowering_rules::reference_rules::Reached;
use module_lowering::{FunctionForm, Lowerer, Role};
use sqlite_items::Items;
use std::alloc::{AllocError, Global};

/// The function of an arrow.
fn arrow_of(alloc: Global, inside: Inside) -> Result<CoreFunction, AllocError>
    ensures { IfOk result (λ f. f ≡ arrow (function_of core_kind.Arrow no_receiver inside)) }
{
    let mut function = function_of(alloc, CoreKind::Arrow, no_receiver(), inside)?;
    function.kind = CoreKind::Arrow;
    Ok(function)
}

impl<
    E: Fn(Around, &Expression, &mut Lowerer) -> Result<Reached, AllocError>,
    P: Fn(Around, &Pattern, Role, CoreExpr, &mut Lowerer) -> Result<Items<CoreStat>, AllocError>,
    S: Fn(Around, &Statement, &mut Lowerer) -> Result<Items<CoreStat>, AllocError>,
    F: Fn(Around, &Function, FunctionForm, &mut Lowerer) -> Result<FunctionId, AllocError>,
> Walk<'_, E, P, S, F> {
    /// The parts of an arrow, out of which no statement round it is jumped to.
    fn inside_of_arrow(
        &self,
        parameters: &[Parameter],
        body: &Body,
        state: &mut Lowerer,
    ) -> Result<Inside, AllocError>
        requires expressions { HasExpressions E.pre E.post self.now.here }
        requires patterns { HasPatterns P.pre P.post self.now.here }
        requires statements { HasStatements S.pre S.post self.now.here }
        requires functions { HasFunctions F.pre F.post self.now.here }
        ensures { Lowers (done_at self.now.here.around (inside_arrow (within in_arrow (function_parts (map parameter_lowered parameters.now) (body_listed body.now)))) state.old) result state.new }
    {
        let around = self.here.around;
        let context = in_arrow(around.alloc, around.context)?;
        let around = Around {
            context: &context,
            ..around
        };
        let here = Here {
            around,
            ..self.here
        };
        Walk { here }.inside_arrow(parameters, body, state)
    }

    fn arrow_made(
        &self,
        parameters: &[Parameter],
        body: &Body,
        state: &mut Lowerer,
    ) -> Result<FunctionId, AllocError>
        requires expressions { HasExpressions E.pre E.post self.now.here }
        requires patterns { HasPatterns P.pre P.post self.now.here }
        requires statements { HasStatements S.pre S.post self.now.here }
        requires functions { HasFunctions F.pre F.post self.now.here }
        ensures { Lowers (done_at self.now.here.around (arrow_made (map parameter_lowered parameters.now) (body_listed body.now)) state.old) result state.new }
    {
        let inside = self.inside_of_arrow(parameters, body, state)?;
        let function = arrow_of(self.here.around.alloc, inside)?;
        self.define(function, state)
    }
}

/// The number of an arrow's function, which goes into the table.
#[tactic(auto, using(lower_walk::proofs::Layers::arrow_out))]
pub fn lower_arrow_function<
    E: Fn(Around, &Expression, &mut Lowerer) -> Result<Reached, AllocError>,
    P: Fn(Around, &Pattern, Role, CoreExpr, &mut Lowerer) -> Result<Items<CoreStat>, AllocError>,
    S: Fn(Around, &Statement, &mut Lowerer) -> Result<Items<CoreStat>, AllocError>,
    F: Fn(Around, &Function, FunctionForm, &mut Lowerer) -> Result<FunctionId, AllocError>,
>(here: &Here<'_, E, P, S, F>, arrow: &Arrow, state: &mut Lowerer) -> Result<FunctionId, AllocError>
    requires expressions { HasExpressions E.pre E.post here.now }
    requires patterns { HasPatterns P.pre P.post here.now }
    requires statements { HasStatements S.pre S.post here.now }
    requires functions { HasFunctions F.pre F.post here.now }
    ensures { Lowers (done_at here.now.around (arrow_lowered arrow.now) state.old) result state.new }
{
    let body = arrow_body(&arrow.body);
    Walk { here: *here }.arrow_made(arrow.parameters.as_slice(), &body, state)
}
