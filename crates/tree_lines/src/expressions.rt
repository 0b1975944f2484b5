//! Expressions and their parts.

use crate::nodes::Nodes;
use crate::words::ending_word;
use es6_ast::{Argument, Element, Expression, Key, Link, Property, Template};
use sqlite_items::Boxed;

impl<'a> Nodes<'a> {
    /// An expression, whose parts are left.
    pub(crate) fn show_expression(&mut self, expression: &'a Expression) {
        match expression {
            Expression::This { span } => self.text.node("This", *span),
            Expression::Name { span, name } => self.text.node_named("Name", *span, name.bytes()),
            Expression::Literal { span, literal } => self.text.literal(*span, literal),
            Expression::NewTarget { span } => self.text.node("NewTarget", *span),
            Expression::Template(template) => self.template(template),
            Expression::ArrayList {
                span,
                elements,
                ends_in_comma,
            } => {
                self.text
                    .node_with("ArrayList", *span, ending_word(*ends_in_comma));
                self.elements(elements.as_slice());
            }
            Expression::ObjectList { span, properties } => {
                self.text.node("ObjectList", *span);
                self.properties(properties.as_slice());
            }
            Expression::Function(function) => self.function(function.get()),
            Expression::Class(class) => self.class(class.get()),
            Expression::Group { span, held } => {
                self.text.node("Group", *span);
                self.expression(held.get());
            }
            Expression::Cover { span, .. } => self.text.node("Cover", *span),
            other => self.left_hand_side(other),
        }
    }

    /// Accesses and calls (ECMA-262, 6th edition, 12.3), or else an expression with an operator.
    fn left_hand_side(&mut self, expression: &'a Expression) {
        match expression {
            Expression::Chain { span, head, links } => {
                self.text.node("Chain", *span);
                self.expression(head.get());
                self.links(links.as_slice());
            }
            Expression::SuperMember { span, name } => {
                self.text.node("SuperMember", *span);
                self.text.identifier(name);
            }
            Expression::SuperIndex { span, index } => {
                self.text.node("SuperIndex", *span);
                self.expression(index.get());
            }
            Expression::SuperCall { span, arguments } => {
                self.text.node("SuperCall", *span);
                self.arguments(arguments.as_slice());
            }
            Expression::New {
                span,
                callee,
                arguments,
            } => {
                self.text.node("New", *span);
                self.expression(callee.get());
                self.arguments(arguments.as_slice());
            }
            other => self.with_operators(other),
        }
    }

    /// An expression, if there is one.
    pub(crate) fn held(&mut self, expression: &'a Option<Boxed<Expression>>) {
        match expression {
            None => (),
            Some(expression) => self.expression(expression.get()),
        }
    }

    /// A template: its stretches, with a value between each two.
    fn template(&mut self, template: &'a Template) {
        self.text.node("Template", template.span);
        self.text.stretch(&template.first);
        for part in template.rest.as_slice() {
            self.expression(&part.value);
            self.text.stretch(&part.after);
        }
    }

    fn argument(&mut self, argument: &'a Argument) {
        match argument {
            Argument::Single(value) => self.expression(value),
            Argument::Spread { span, value } => {
                self.text.node("Spread", *span);
                self.expression(value);
            }
        }
    }

    fn arguments(&mut self, arguments: &'a [Argument]) {
        for argument in arguments {
            self.argument(argument);
        }
    }

    fn elements(&mut self, elements: &'a [Element]) {
        for element in elements {
            match element {
                Element::Hole => self.text.word("Hole"),
                Element::Present(argument) => self.argument(argument),
            }
        }
    }

    fn properties(&mut self, properties: &'a [Property]) {
        for property in properties {
            self.property(property);
        }
    }

    fn property(&mut self, property: &'a Property) {
        match property {
            Property::Plain { span, key, value } => {
                self.text.node("Plain", *span);
                self.key(key);
                self.expression(value);
            }
            Property::Shorthand { span, name } => {
                self.text.node_named("Shorthand", *span, name.bytes());
            }
            Property::Initialized {
                span,
                name,
                value,
                ..
            } => {
                self.text.node("Initialized", *span);
                self.text.identifier(name);
                self.expression(value);
            }
            Property::Defined(method) => self.method(method),
        }
    }

    fn links(&mut self, links: &'a [Link]) {
        for link in links {
            self.link(link);
        }
    }

    /// An access or a call.
    fn link(&mut self, link: &'a Link) {
        match link {
            Link::Member { span, name } => {
                self.text.node("Member", *span);
                self.text.identifier(name);
            }
            Link::Index { span, index } => {
                self.text.node("Index", *span);
                self.expression(index);
            }
            Link::Call { span, arguments } => {
                self.text.node("Call", *span);
                self.arguments(arguments.as_slice());
            }
            Link::Tagged(template) => {
                self.text.node("Tagged", template.span);
                self.template(template);
            }
        }
    }

    /// A property name.
    pub(crate) fn key(&mut self, key: &'a Key) {
        match key {
            Key::WordKey { span, name } => self.text.node_named("WordKey", *span, name.bytes()),
            Key::TextKey { span, units } => self
                .text
                .node_of_units("TextKey", *span, units.units()),
            Key::IntegerKey { span, value } => self
                .text
                .node_of_number("IntegerKey", *span, *value),
            Key::ComputedKey { span, value } => {
                self.text.node("ComputedKey", *span);
                self.expression(value.get());
            }
        }
    }
}
