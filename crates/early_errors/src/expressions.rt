//! Expressions (ECMA-262, 6th edition, 12).

ghost use Rattle.std.specs.Prelude.{◌≡◌, ◌++◌, map, OnOk};
ghost use Rattle.std.specs.Option.{option_map};
ghost use Rattle.es6_static_semantics.specs.Findings.{joined, maybe};
ghost use Rattle.es6_static_semantics.specs.Early.{argument_found, element_found, expression_found, link_found, no_simple, operand_found, restricted, template_found, template_part_found};
ghost use Rattle.early_errors.specs.Walked.{meets_inside};

use crate::place::Place;
use crate::walk::Walk;
use es6_ast::{Argument, Element, Expression, Link, Operand, Template, TemplatePart};
use sqlite_items::Boxed;
use std::alloc::AllocError;

impl Walk {
    /// An expression, with E16 (14.4.1, 14.2.1), E17 and E18 (12.2.6.1, 14.1.2, 14.3.1, 14.5.1, 15.2.1.1) and E19 (14.1.2,
    /// 15.2.1.1).
    #[cycle(early)]
    pub(crate) fn expression(
        &mut self,
        expression: &Expression,
        place: Place,
    ) -> Result<(), AllocError>
        ensures { OnOk result (self.new ≡ meets_inside (expression_found expression.now).pairs place self.old) }
    {
        match expression {
            Expression::This { .. } | Expression::Name { .. } | Expression::Literal { .. } => Ok(
                (),
            ),
            Expression::Template(template) => self.template(template, place),
            Expression::ArrayList { elements, .. } => self.elements(elements.as_slice(), place),
            Expression::ObjectList { properties, .. } => {
                self.properties(properties.as_slice(), place)
            }
            Expression::Function(function) => {
                self.function(function.get(), Place::of_function(false, false))
            }
            Expression::Arrow(arrow) => self.arrow(arrow.get(), place),
            Expression::Class(class) => self.class(class.get(), place),
            Expression::Chain { head, links, .. } => {
                self.expression(head.get(), place)?;
                self.links(links.as_slice(), place)
            }
            Expression::SuperMember { span, .. } => {
                self.finder.when(!place.super_property, 18, span.begin);
                Ok(())
            }
            Expression::SuperIndex { span, index } => {
                self.finder.when(!place.super_property, 18, span.begin);
                self.expression(index.get(), place)
            }
            Expression::SuperCall { span, arguments } => {
                self.finder.when(!place.super_call, 17, span.begin);
                self.arguments(arguments.as_slice(), place)
            }
            Expression::NewTarget { span } => {
                self.finder.when(!place.new_target, 19, span.begin);
                Ok(())
            }
            Expression::New {
                callee,
                arguments,
                ..
            } => {
                self.expression(callee.get(), place)?;
                self.arguments(arguments.as_slice(), place)
            }
            Expression::Update { target, .. } => self.update(target.get(), place),
            Expression::Unary {
                span,
                operator,
                operand,
            } => {
                self.deleted(*operator, operand.get(), *span);
                self.expression(operand.get(), place)
            }
            Expression::Power { base, exponent, .. } => {
                self.expression(base.get(), place)?;
                self.expression(exponent.get(), place)
            }
            Expression::Binary { first, rest, .. } => {
                self.expression(first.get(), place)?;
                self.operands(rest.as_slice(), place)
            }
            Expression::Conditional { test, yes, no, .. } => {
                self.expression(test.get(), place)?;
                self.expression(yes.get(), place)?;
                self.expression(no.get(), place)
            }
            Expression::Assign {
                operator,
                target,
                value,
                ..
            } => {
                self.assigned_by(*operator, target, place)?;
                self.expression(value.get(), place)
            }
            Expression::Sequence { first, rest, .. } => {
                self.expression(first.get(), place)?;
                self.expressions(rest.as_slice(), place)
            }
            Expression::Yield { span, value } => {
                self.finder.when(place.in_parameters, 16, span.begin);
                self.optional_boxed(value, place)
            }
            Expression::Delegate { span, value } => {
                self.finder.when(place.in_parameters, 16, span.begin);
                self.expression(value.get(), place)
            }
            Expression::Group { held, .. } => self.expression(held.get(), place),
            Expression::Cover { held, .. } => self.optional_boxed(held, place),
        }
    }

    /// A target that is no pattern and is updated, with E8 and E10 (12.4.1).
    #[cycle(early)]
    pub(crate) fn update(&mut self, target: &Expression, place: Place) -> Result<(), AllocError>
        ensures { OnOk result (self.new ≡ meets_inside (λ r. no_simple (expression_found target.now).target ++ restricted (expression_found target.now).target ++ (expression_found target.now).pairs r) place self.old) }
    {
        self.updated(target);
        self.expression(target, place)
    }

    #[cycle(early)]
    pub(crate) fn optional(
        &mut self,
        expression: &Option<Expression>,
        place: Place,
    ) -> Result<(), AllocError>
        ensures { OnOk result (self.new ≡ meets_inside (λ r. maybe (λ y. y.pairs r) (option_map expression_found expression.now)) place self.old) }
    {
        match expression {
            None => Ok(()),
            Some(expression) => self.expression(expression, place),
        }
    }

    #[cycle(early)]
    pub(crate) fn optional_boxed(
        &mut self,
        expression: &Option<Boxed<Expression>>,
        place: Place,
    ) -> Result<(), AllocError>
        ensures { OnOk result (self.new ≡ meets_inside (λ r. maybe (λ y. y.pairs r) (option_map expression_found expression.now)) place self.old) }
    {
        match expression {
            None => Ok(()),
            Some(expression) => self.expression(expression.get(), place),
        }
    }

    #[cycle(early)]
    fn expressions(&mut self, expressions: &[Expression], place: Place) -> Result<(), AllocError>
        ensures { OnOk result (self.new ≡ meets_inside (λ r. joined (λ x. x.pairs r) (map expression_found expressions.now)) place self.old) }
    {
        for expression in expressions {
            self.expression(expression, place)?;
        }
        Ok(())
    }

    #[cycle(early)]
    fn elements(&mut self, elements: &[Element], place: Place) -> Result<(), AllocError>
        ensures { OnOk result (self.new ≡ meets_inside (λ r. joined (λ x. x.pairs r) (map element_found elements.now)) place self.old) }
    {
        for element in elements {
            self.element(element, place)?;
        }
        Ok(())
    }

    #[cycle(early)]
    fn element(&mut self, element: &Element, place: Place) -> Result<(), AllocError>
        ensures { OnOk result (self.new ≡ meets_inside (element_found element.now).pairs place self.old) }
    {
        match element {
            Element::Hole => Ok(()),
            Element::Present(argument) => self.argument(argument, place),
        }
    }

    #[cycle(early)]
    fn arguments(&mut self, arguments: &[Argument], place: Place) -> Result<(), AllocError>
        ensures { OnOk result (self.new ≡ meets_inside (λ r. joined (λ x. x.pairs r) (map argument_found arguments.now)) place self.old) }
    {
        for argument in arguments {
            self.argument(argument, place)?;
        }
        Ok(())
    }

    #[cycle(early)]
    fn argument(&mut self, argument: &Argument, place: Place) -> Result<(), AllocError>
        ensures { OnOk result (self.new ≡ meets_inside (argument_found argument.now).pairs place self.old) }
    {
        match argument {
            Argument::Single(value) | Argument::Spread { value, .. } => {
                self.expression(value, place)
            }
        }
    }

    /// Accesses and calls (12.3).
    #[cycle(early)]
    fn links(&mut self, links: &[Link], place: Place) -> Result<(), AllocError>
        ensures { OnOk result (self.new ≡ meets_inside (λ r. joined (λ x. x.pairs r) (map link_found links.now)) place self.old) }
    {
        for link in links {
            self.link(link, place)?;
        }
        Ok(())
    }

    #[cycle(early)]
    fn link(&mut self, link: &Link, place: Place) -> Result<(), AllocError>
        ensures { OnOk result (self.new ≡ meets_inside (link_found link.now).pairs place self.old) }
    {
        match link {
            Link::Member { .. } => Ok(()),
            Link::Index { index, .. } => self.expression(index, place),
            Link::Call { arguments, .. } => self.arguments(arguments.as_slice(), place),
            Link::Tagged(template) => self.template(template, place),
        }
    }

    #[cycle(early)]
    #[tactic(auto, using(crate::proofs::Walking::walking, crate::proofs::Layers::operand_out))]
    fn operands(&mut self, operands: &[Operand], place: Place) -> Result<(), AllocError>
        ensures { OnOk result (self.new ≡ meets_inside (λ r. joined (λ x. x r) (map operand_found operands.now)) place self.old) }
    {
        for operand in operands {
            self.expression(&operand.value, place)?;
        }
        Ok(())
    }

    #[cycle(early)]
    #[tactic(auto, using(crate::proofs::Walking::walking, crate::proofs::Layers::template_out))]
    fn template(&mut self, template: &Template, place: Place) -> Result<(), AllocError>
        ensures { OnOk result (self.new ≡ meets_inside (template_found template.now).pairs place self.old) }
    {
        self.template_parts(template.rest.as_slice(), place)
    }

    #[cycle(early)]
    #[tactic(auto, using(crate::proofs::Walking::walking, crate::proofs::Layers::template_part_out))]
    fn template_parts(&mut self, parts: &[TemplatePart], place: Place) -> Result<(), AllocError>
        ensures { OnOk result (self.new ≡ meets_inside (λ r. joined (λ x. x r) (map template_part_found parts.now)) place self.old) }
    {
        for part in parts {
            self.expression(&part.value, place)?;
        }
        Ok(())
    }
}
