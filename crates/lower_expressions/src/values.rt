//! What isn't made by an operator: `this`, literals, templates, arrays, objects, functions, classes and `new` (ECMA-262, 6th edition,
//! 12.2, 12.3, 14.1, 14.2 and 14.5).

ghost use Rattle.lower_expressions.specs.Arms.{function_named_at};
ghost use Rattle.lower_walk.specs.Handed.{done_at, HasExpressions, HasFunctions, HasPatterns, HasStatements};
ghost use Rattle.module_lowering.specs.Expressions.{array_lowered, class_value, closed, constant_of, function_value, gives, new_value, object_lowered, super_called, template_value, this_lowered};
ghost use Rattle.module_lowering.specs.Lowered.{argument_lowered, arrow_lowered, class_lowered, element_lowered, expression_lowered, function_lowered, property_lowered, template_lowered};
ghost use Rattle.module_lowering.specs.Lowering.{Lowers};
ghost use Rattle.core_ast.specs.Made.{constant};
ghost use Rattle.lowering_rules.specs.declared.reference_rules.references.Reached.TheVariants.{Value};
ghost use Rattle.std.specs.Prelude.{◌≡◌, None, map, IfOk};

use crate::expressions::Expressions;
use crate::operators::constant_of;
use core_ast::{CoreExpr, CoreHead, CoreStat, FunctionId, constant, expression, variable};
use es6_ast::{
    Argument, Arrow, Class, Element, Expression, Function, Literal, Pattern, Property, Statement,
    Template,
};
use lower_bodies::{after_running, lower_named_function};
use lower_chains::{lower_new, lower_super_called, lower_this_value};
use lower_functions::{ClassParts, lower_arrow_function, lower_class_definition};
use lower_objects::lower_object;
use lower_parts::lower_array;
use lower_walk::Around;
use lower_walk::lower_items::{lower_element_list, lower_properties, lower_template_value};
use lowering_rules::reference_rules::Reached;
use module_lowering::{FunctionForm, Lowerer, Role};
use sqlite_items::Items;
use std::alloc::{AllocError, Global};

impl<E, P, S, F> Expressions<'_, E, P, S, F> {
    /// 12.2.2
    pub(crate) fn this(&self, state: &mut Lowerer) -> Result<Reached, AllocError>
        ensures { Lowers (done_at self.now.here.around (gives this_lowered) state.old) result state.new }
    {
        Ok(Reached::Value(lower_this_value(&self.here, state)?))
    }
}

/// 12.2.4
pub(crate) fn literal(alloc: Global, literal: &Literal) -> Result<Reached, AllocError>
    ensures { IfOk result (λ r. r ≡ Value (constant (constant_of literal.now))) }
{
    Ok(Reached::Value(constant(alloc, constant_of(alloc, literal)?)))
}

impl<E: Fn(Around, &Expression, &mut Lowerer) -> Result<Reached, AllocError>, P, S, F> Expressions<
    '_,
    E,
    P,
    S,
    F,
> {
    /// 12.2.9
    pub(crate) fn template(
        &self,
        template: &Template,
        state: &mut Lowerer,
    ) -> Result<Reached, AllocError>
        requires expressions { HasExpressions E.pre E.post self.now.here }
        ensures { Lowers (done_at self.now.here.around (gives (template_value (template_lowered template.now))) state.old) result state.new }
    {
        let value = lower_template_value(&self.here, template, state)?;
        Ok(Reached::Value(value))
    }

    /// 12.2.5
    pub(crate) fn array(
        &self,
        elements: &[Element],
        state: &mut Lowerer,
    ) -> Result<Reached, AllocError>
        requires expressions { HasExpressions E.pre E.post self.now.here }
        ensures { Lowers (done_at self.now.here.around (gives (array_lowered (map element_lowered elements.now))) state.old) result state.new }
    {
        let parts = lower_element_list(&self.here, elements, state)?;
        let value = lower_array(self.here.around.alloc, parts)?;
        Ok(Reached::Value(value))
    }

    /// 12.3.3
    pub(crate) fn new(
        &self,
        begin: u32,
        callee: &Expression,
        arguments: &[Argument],
        state: &mut Lowerer,
    ) -> Result<Reached, AllocError>
        requires expressions { HasExpressions E.pre E.post self.now.here }
        ensures { Lowers (done_at self.now.here.around (gives (new_value begin (expression_lowered callee.now) (map argument_lowered arguments.now))) state.old) result state.new }
    {
        let value = lower_new(&self.here, begin, callee, arguments, state)?;
        Ok(Reached::Value(value))
    }

    /// `super` that is called (12.3.5).
    pub(crate) fn super_called(
        &self,
        arguments: &[Argument],
        state: &mut Lowerer,
    ) -> Result<Reached, AllocError>
        requires expressions { HasExpressions E.pre E.post self.now.here }
        ensures { Lowers (done_at self.now.here.around (gives (super_called (map argument_lowered arguments.now))) state.old) result state.new }
    {
        let value = lower_super_called(&self.here, arguments, state)?;
        Ok(Reached::Value(value))
    }
}

impl<
    E,
    P,
    S,
    F: Fn(Around, &Function, FunctionForm, &mut Lowerer) -> Result<FunctionId, AllocError>,
> Expressions<'_, E, P, S, F> {
    /// A function with a name, which it has in a scope of its own (14.1.20).
    fn named_function(
        &self,
        at: u32,
        function: &Function,
        state: &mut Lowerer,
    ) -> Result<Reached, AllocError>
        requires functions { HasFunctions F.pre F.post self.now.here }
        ensures { Lowers (done_at self.now.here.around (gives (function_named_at at (function_lowered function.now))) state.old) result state.new }
    {
        let around = &self.here.around;
        let number = self.here.made(function, FunctionForm::PlainForm, state)?;
        let own = around.bindings.scoped_name(around.context, at)?;
        let kept = self.here.temporary(state)?;
        let value = lower_named_function(around.alloc, kept, own, number)?;
        Ok(Reached::Value(value))
    }

    fn nameless_function(
        &self,
        function: &Function,
        state: &mut Lowerer,
    ) -> Result<Reached, AllocError>
        requires functions { HasFunctions F.pre F.post self.now.here }
        ensures { Lowers (done_at self.now.here.around (gives (function_value (function_lowered function.now) None)) state.old) result state.new }
    {
        let number = self.here.made(function, FunctionForm::PlainForm, state)?;
        let value = expression(self.here.around.alloc, CoreHead::Function(number));
        Ok(Reached::Value(value))
    }

    /// 14.1.20, 14.4.14
    #[tactic(auto, using(crate::proofs::FunctionNames::function_named))]
    pub(crate) fn function(
        &self,
        function: &Function,
        state: &mut Lowerer,
    ) -> Result<Reached, AllocError>
        requires functions { HasFunctions F.pre F.post self.now.here }
        ensures { Lowers (done_at self.now.here.around (gives (function_value (function_lowered function.now) (function_lowered function.now).name)) state.old) result state.new }
    {
        match &function.name {
            None => self.nameless_function(function, state),
            Some(name) => self.named_function(name.span.begin, function, state),
        }
    }
}

impl<
    E: Fn(Around, &Expression, &mut Lowerer) -> Result<Reached, AllocError>,
    P,
    S,
    F: Fn(Around, &Function, FunctionForm, &mut Lowerer) -> Result<FunctionId, AllocError>,
> Expressions<'_, E, P, S, F> {
    /// 12.2.6
    pub(crate) fn object(
        &self,
        properties: &[Property],
        state: &mut Lowerer,
    ) -> Result<Reached, AllocError>
        requires expressions { HasExpressions E.pre E.post self.now.here }
        requires functions { HasFunctions F.pre F.post self.now.here }
        ensures { Lowers (done_at self.now.here.around (gives (object_lowered (map property_lowered properties.now))) state.old) result state.new }
    {
        let members = lower_properties(&self.here, properties, state)?;
        let value = lower_object(self.here.around.alloc, members, &mut state.names)?;
        Ok(Reached::Value(value))
    }

    /// 14.5.16
    pub(crate) fn class(&self, class: &Class, state: &mut Lowerer) -> Result<Reached, AllocError>
        requires expressions { HasExpressions E.pre E.post self.now.here }
        requires functions { HasFunctions F.pre F.post self.now.here }
        ensures { Lowers (done_at self.now.here.around (gives (class_value (class_lowered class.now))) state.old) result state.new }
    {
        let alloc = self.here.around.alloc;
        let ClassParts { class, statements } = lower_class_definition(&self.here, class, state)?;
        let value = after_running(alloc, statements, variable(alloc, class))?;
        Ok(Reached::Value(value))
    }
}

impl<
    E: Fn(Around, &Expression, &mut Lowerer) -> Result<Reached, AllocError>,
    P: Fn(Around, &Pattern, Role, CoreExpr, &mut Lowerer) -> Result<Items<CoreStat>, AllocError>,
    S: Fn(Around, &Statement, &mut Lowerer) -> Result<Items<CoreStat>, AllocError>,
    F: Fn(Around, &Function, FunctionForm, &mut Lowerer) -> Result<FunctionId, AllocError>,
> Expressions<'_, E, P, S, F> {
    /// 14.2.16
    pub(crate) fn arrow(&self, arrow: &Arrow, state: &mut Lowerer) -> Result<Reached, AllocError>
        requires expressions { HasExpressions E.pre E.post self.now.here }
        requires patterns { HasPatterns P.pre P.post self.now.here }
        requires statements { HasStatements S.pre S.post self.now.here }
        requires functions { HasFunctions F.pre F.post self.now.here }
        ensures { Lowers (done_at self.now.here.around (gives (closed (arrow_lowered arrow.now))) state.old) result state.new }
    {
        let number = lower_arrow_function(&self.here, arrow, state)?;
        let value = expression(self.here.around.alloc, CoreHead::Function(number));
        Ok(Reached::Value(value))
    }
}
