//! Expressions (ECMA-262, 6th edition, 12).

ghost use Rattle.std.specs.Prelude.{◌≡◌, map, OnOk};
ghost use Rattle.std.specs.Option.{option_map};
ghost use Rattle.es6_static_semantics.specs.Findings.{joined, maybe};
ghost use Rattle.es6_static_semantics.specs.Outside.{argument_found, element_found, expression_found, operand_found, template_found, template_part_found};
ghost use Rattle.outside_constructs.specs.Walked.{meets};

use crate::chains::first_is_call;
use crate::walk::Walk;
use es6_ast::{Argument, Element, Expression, Operand, Template, TemplatePart};
use sqlite_items::Boxed;
use std::alloc::AllocError;

impl Walk {
    #[cycle(outside)]
    pub(crate) fn expression(&mut self, expression: &Expression) -> Result<(), AllocError>
        ensures { OnOk result (self.new ≡ meets (expression_found expression.now).pairs self.old) }
    {
        match expression {
            Expression::Name { span, name } => {
                self.name(*span, name.bytes());
                Ok(())
            }
            Expression::This { .. } | Expression::Literal { .. } | Expression::NewTarget { .. } => {
                Ok(())
            }
            Expression::Template(template) => self.template(template),
            Expression::ArrayList { elements, .. } => self.elements(elements.as_slice()),
            Expression::ObjectList { properties, .. } => self.properties(properties.as_slice()),
            Expression::Function(function) => self.function(function.get(), false),
            Expression::Arrow(arrow) => self.arrow(arrow.get()),
            Expression::Class(class) => self.class(class.get()),
            Expression::Chain { head, links, .. } => {
                self.head(head.get(), first_is_call(links.as_slice()))?;
                self.links(links.as_slice())
            }
            Expression::SuperMember { span, name } => {
                self.in_object(*span);
                self.named(name);
                Ok(())
            }
            Expression::SuperIndex { span, index } => {
                self.in_object(*span);
                self.as_key(index.get())
            }
            Expression::SuperCall { span, arguments } => {
                self.in_object(*span);
                self.arguments(arguments.as_slice())
            }
            Expression::New {
                callee,
                arguments,
                ..
            } => {
                self.expression(callee.get())?;
                self.arguments(arguments.as_slice())
            }
            Expression::Update { target, .. } => {
                self.target(target.get());
                self.expression(target.get())
            }
            Expression::Unary {
                operator,
                operand,
                ..
            } => {
                self.deleted(*operator, operand.get());
                self.expression(operand.get())
            }
            Expression::Power { base, exponent, .. } => {
                self.expression(base.get())?;
                self.expression(exponent.get())
            }
            Expression::Binary { first, rest, .. } => {
                self.expression(first.get())?;
                self.operands(rest.as_slice())
            }
            Expression::Conditional { test, yes, no, .. } => {
                self.expression(test.get())?;
                self.expression(yes.get())?;
                self.expression(no.get())
            }
            Expression::Assign { target, value, .. } => {
                self.targets(target, false)?;
                self.expression(value.get())
            }
            Expression::Sequence { first, rest, .. } => {
                self.expression(first.get())?;
                self.expressions(rest.as_slice())
            }
            Expression::Yield { value, .. } => self.optional_boxed(value),
            Expression::Delegate { value, .. } => self.expression(value.get()),
            Expression::Group { held, .. } => self.expression(held.get()),
            Expression::Cover { held, .. } => self.optional_boxed(held),
        }
    }

    #[cycle(outside)]
    pub(crate) fn optional(&mut self, expression: &Option<Expression>) -> Result<(), AllocError>
        ensures { OnOk result (self.new ≡ meets (λ scope. maybe (λ y. y.pairs scope) (option_map expression_found expression.now)) self.old) }
    {
        match expression {
            None => Ok(()),
            Some(expression) => self.expression(expression),
        }
    }

    #[cycle(outside)]
    pub(crate) fn optional_boxed(
        &mut self,
        expression: &Option<Boxed<Expression>>,
    ) -> Result<(), AllocError>
        ensures { OnOk result (self.new ≡ meets (λ scope. maybe (λ y. y.pairs scope) (option_map expression_found expression.now)) self.old) }
    {
        match expression {
            None => Ok(()),
            Some(expression) => self.expression(expression.get()),
        }
    }

    #[cycle(outside)]
    fn expressions(&mut self, expressions: &[Expression]) -> Result<(), AllocError>
        ensures { OnOk result (self.new ≡ meets (λ scope. joined (λ x. x.pairs scope) (map expression_found expressions.now)) self.old) }
    {
        for expression in expressions {
            self.expression(expression)?;
        }
        Ok(())
    }

    #[cycle(outside)]
    fn elements(&mut self, elements: &[Element]) -> Result<(), AllocError>
        ensures { OnOk result (self.new ≡ meets (λ scope. joined (λ x. x scope) (map element_found elements.now)) self.old) }
    {
        for element in elements {
            self.element(element)?;
        }
        Ok(())
    }

    #[cycle(outside)]
    fn element(&mut self, element: &Element) -> Result<(), AllocError>
        ensures { OnOk result (self.new ≡ meets (element_found element.now) self.old) }
    {
        match element {
            Element::Hole => Ok(()),
            Element::Present(argument) => self.argument(argument),
        }
    }

    #[cycle(outside)]
    pub(crate) fn arguments(&mut self, arguments: &[Argument]) -> Result<(), AllocError>
        ensures { OnOk result (self.new ≡ meets (λ scope. joined (λ x. x scope) (map argument_found arguments.now)) self.old) }
    {
        for argument in arguments {
            self.argument(argument)?;
        }
        Ok(())
    }

    #[cycle(outside)]
    fn argument(&mut self, argument: &Argument) -> Result<(), AllocError>
        ensures { OnOk result (self.new ≡ meets (argument_found argument.now) self.old) }
    {
        match argument {
            Argument::Single(value) | Argument::Spread { value, .. } => self.expression(value),
        }
    }

    #[cycle(outside)]
    #[tactic(auto, using(crate::proofs::Walking::walked, crate::proofs::Layers::operand_out))]
    fn operands(&mut self, operands: &[Operand]) -> Result<(), AllocError>
        ensures { OnOk result (self.new ≡ meets (λ scope. joined (λ x. x scope) (map operand_found operands.now)) self.old) }
    {
        for operand in operands {
            self.expression(&operand.value)?;
        }
        Ok(())
    }

    #[cycle(outside)]
    #[tactic(auto, using(crate::proofs::Walking::walked, crate::proofs::Layers::template_out))]
    pub(crate) fn template(&mut self, template: &Template) -> Result<(), AllocError>
        ensures { OnOk result (self.new ≡ meets (template_found template.now) self.old) }
    {
        self.template_parts(template.rest.as_slice())
    }

    #[cycle(outside)]
    #[tactic(auto, using(crate::proofs::Walking::walked, crate::proofs::Layers::template_part_out))]
    fn template_parts(&mut self, parts: &[TemplatePart]) -> Result<(), AllocError>
        ensures { OnOk result (self.new ≡ meets (λ scope. joined (λ x. x scope) (map template_part_found parts.now)) self.old) }
    {
        for part in parts {
            self.expression(&part.value)?;
        }
        Ok(())
    }
}
