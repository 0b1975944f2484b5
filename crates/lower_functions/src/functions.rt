//! Functions that are no arrows (ECMA-262, 6th edition, 14.1, 14.3 and 14.4).

ghost use Rattle.std.specs.Prelude.{◌≡◌, map, IfOk};
ghost use Rattle.core_ast.specs.declared.whole.CoreKind.TheVariants.{Generator};
ghost use Rattle.lower_functions.specs.Bodies.{body_listed};
ghost use Rattle.lower_functions.specs.Insides.{function_of};
ghost use Rattle.lower_walk.specs.Handed.{done_at, HasExpressions, HasFunctions, HasPatterns, HasStatements};
ghost use Rattle.module_lowering.specs.Bindings.{declared_var};
ghost use Rattle.module_lowering.specs.Functions.{completed, function_made, function_parts, generator_made, generator_receiver, in_function, kind_of, plain_receiver};
ghost use Rattle.module_lowering.specs.Lowered.{function_lowered, parameter_lowered};
ghost use Rattle.module_lowering.specs.Lowering.{inside, Lowers, within};

use crate::bodies::Body;
use crate::forms::{
    completed, function_of, generator_receiver, kind_of, plain_receiver, this_kind,
};
use crate::inside::Inside;
use crate::walk::Walk;
use core_ast::{CoreExpr, CoreFunction, CoreKind, CoreStat, FunctionId, Var};
use es6_ast::{Expression, Function, Parameter, Pattern, Statement};
use lower_walk::{Around, Here, in_function};
use lowering_rules::reference_rules::Reached;
use module_lowering::{FunctionForm, Lowerer, Role, ThisKind};
use sqlite_items::Items;
use std::alloc::AllocError;

impl<E, P, S, F> Walk<'_, E, P, S, F> {
    /// A function that is no generator. Its arguments object is declared where it begins.
    fn plain(
        &self,
        begin: u32,
        form: FunctionForm,
        inside: Inside,
    ) -> Result<CoreFunction, AllocError>
        ensures { IfOk result (λ f. f ≡ completed form (function_of (kind_of form) (plain_receiver inside.seen (declared_var self.now.here.around.bindings.now self.now.here.around.context.now begin)) inside)) }
    {
        let around = self.here.around;
        let arguments = around.bindings.declared_var(around.context, begin)?;
        let receiver = plain_receiver(inside.seen, arguments);
        let function = function_of(around.alloc, kind_of(form), receiver, inside)?;
        completed(around.alloc, form, function)
    }

    /// A generator, which keeps `this` in this variable.
    fn generator(&self, begin: u32, this: Var, inside: Inside) -> Result<CoreFunction, AllocError>
        ensures { IfOk result (λ f. f ≡ function_of Generator (generator_receiver inside.seen (declared_var self.now.here.around.bindings.now self.now.here.around.context.now begin) this) inside) }
    {
        let around = self.here.around;
        let arguments = around.bindings.declared_var(around.context, begin)?;
        let receiver = generator_receiver(inside.seen, arguments, this);
        function_of(around.alloc, CoreKind::Generator, receiver, inside)
    }
}

impl<
    E: Fn(Around, &Expression, &mut Lowerer) -> Result<Reached, AllocError>,
    P: Fn(Around, &Pattern, Role, CoreExpr, &mut Lowerer) -> Result<Items<CoreStat>, AllocError>,
    S: Fn(Around, &Statement, &mut Lowerer) -> Result<Items<CoreStat>, AllocError>,
    F: Fn(Around, &Function, FunctionForm, &mut Lowerer) -> Result<FunctionId, AllocError>,
> Walk<'_, E, P, S, F> {
    /// The parts of a function in which this is `this`.
    fn inside_function(
        &self,
        this: ThisKind,
        parameters: &[Parameter],
        body: &Body,
        state: &mut Lowerer,
    ) -> Result<Inside, AllocError>
        requires expressions { HasExpressions E.pre E.post self.now.here }
        requires patterns { HasPatterns P.pre P.post self.now.here }
        requires statements { HasStatements S.pre S.post self.now.here }
        requires functions { HasFunctions F.pre F.post self.now.here }
        ensures { Lowers (done_at self.now.here.around (inside (within (in_function this) (function_parts (map parameter_lowered parameters.now) (body_listed body.now)))) state.old) result state.new }
    {
        let around = self.here.around;
        let context = in_function(around.alloc, this, around.context)?;
        let around = Around {
            context: &context,
            ..around
        };
        let here = Here {
            around,
            ..self.here
        };
        Walk { here }.inside(parameters, body, state)
    }

    fn function_made(
        &self,
        begin: u32,
        parameters: &[Parameter],
        body: &Body,
        form: FunctionForm,
        state: &mut Lowerer,
    ) -> Result<FunctionId, AllocError>
        requires expressions { HasExpressions E.pre E.post self.now.here }
        requires patterns { HasPatterns P.pre P.post self.now.here }
        requires statements { HasStatements S.pre S.post self.now.here }
        requires functions { HasFunctions F.pre F.post self.now.here }
        ensures { Lowers (done_at self.now.here.around (function_made begin (map parameter_lowered parameters.now) (body_listed body.now) form) state.old) result state.new }
    {
        let inside = self.inside_function(this_kind(form), parameters, body, state)?;
        let function = self.plain(begin, form, inside)?;
        self.define(function, state)
    }

    fn generator_made(
        &self,
        begin: u32,
        parameters: &[Parameter],
        body: &Body,
        state: &mut Lowerer,
    ) -> Result<FunctionId, AllocError>
        requires expressions { HasExpressions E.pre E.post self.now.here }
        requires patterns { HasPatterns P.pre P.post self.now.here }
        requires statements { HasStatements S.pre S.post self.now.here }
        requires functions { HasFunctions F.pre F.post self.now.here }
        ensures { Lowers (done_at self.now.here.around (generator_made begin (map parameter_lowered parameters.now) (body_listed body.now)) state.old) result state.new }
    {
        let this = self.here.raw(state)?;
        let kind = ThisKind::OfGenerator { this };
        let inside = self.inside_function(kind, parameters, body, state)?;
        let function = self.generator(begin, this, inside)?;
        self.define(function, state)
    }

    #[tactic(auto, using(lower_walk::proofs::Layers::function_out))]
    fn function(
        &self,
        function: &Function,
        form: FunctionForm,
        state: &mut Lowerer,
    ) -> Result<FunctionId, AllocError>
        requires expressions { HasExpressions E.pre E.post self.now.here }
        requires patterns { HasPatterns P.pre P.post self.now.here }
        requires statements { HasStatements S.pre S.post self.now.here }
        requires functions { HasFunctions F.pre F.post self.now.here }
        ensures { Lowers (done_at self.now.here.around ((function_lowered function.now).lowered form) state.old) result state.new }
    {
        let body = Body::Statements(function.body.as_slice());
        let begin = function.span.begin;
        let parameters = function.parameters.as_slice();
        if function.is_generator {
            return self.generator_made(begin, parameters, &body, state);
        }
        self.function_made(begin, parameters, &body, form, state)
    }
}

/// The number of a function that is no arrow, which goes into the table.
pub fn lower_function<
    E: Fn(Around, &Expression, &mut Lowerer) -> Result<Reached, AllocError>,
    P: Fn(Around, &Pattern, Role, CoreExpr, &mut Lowerer) -> Result<Items<CoreStat>, AllocError>,
    S: Fn(Around, &Statement, &mut Lowerer) -> Result<Items<CoreStat>, AllocError>,
    F: Fn(Around, &Function, FunctionForm, &mut Lowerer) -> Result<FunctionId, AllocError>,
>(
    here: &Here<'_, E, P, S, F>,
    function: &Function,
    form: FunctionForm,
    state: &mut Lowerer,
) -> Result<FunctionId, AllocError>
    requires expressions { HasExpressions E.pre E.post here.now }
    requires patterns { HasPatterns P.pre P.post here.now }
    requires statements { HasStatements S.pre S.post here.now }
    requires functions { HasFunctions F.pre F.post here.now }
    ensures { Lowers (done_at here.now.around ((function_lowered function.now).lowered form) state.old) result state.new }
{
    Walk { here: *here }.function(function, form, state)
}
