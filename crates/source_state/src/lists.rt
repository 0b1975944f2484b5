//! The parts of a list that are left.

ghost use Rattle.std.specs.Prelude.{◌≡◌, ◌++◌, ◌∷◌, [], MatchOption};
ghost use Rattle.es6_ast.specs.declared.tree.Element.{out-Element};
ghost use Rattle.source_state.specs.Parts.{arguments_parts, element_argument, elements_parts, values_parts};
ghost use Rattle.source_state.specs.Taken.{part_of};

use crate::nodes::{Node, Nodes};
use es6_ast::{Argument, Element, Expression, TemplatePart};
use sqlite_items::Items;
use std::marker::Model;

/// What is left of the elements of an array (ECMA-262, 6th edition, 12.2.5), of arguments (12.3.6), or of the values of a template
/// (12.2.9). Contracts see one list of arguments, with None for a hole.
#[derive(Drop)]
pub struct ListParts<'a> {
    elements: Nodes<'a, Element>,
    arguments: Nodes<'a, Argument>,
    values: Nodes<'a, TemplatePart>,
}

impl<'a> Model for ListParts<'a> {
    ghost use Rattle.std.specs.Prelude.{List, Option, ◌++◌};
    ghost use Rattle.es6_ast.specs.declared.tree.Argument.{Argument};
    ghost use Rattle.es6_ast.specs.contracts.tree.Argument as node;
    ghost use Rattle.std.specs.Coded.{codes};
    ghost use Rattle.source_state.specs.Parts.{arguments_parts, elements_parts, values_parts};

    ghost Value = { List (Option Argument) };

    ghost coded = { Prim.hlevel (codes, node.the_row.coded) };

    ghost view = { λ p. elements_parts p.elements ++ (arguments_parts p.arguments ++ values_parts p.values) };
}

/// A part of a list.
#[derive(Drop)]
pub enum ListPart<'a> {
    Hole,
    One(Node<'a, Argument>),
    /// a value of a template
    Valued(Node<'a, Expression>),
}

impl<'a> ListParts<'a> {
    /// No part.
    pub fn none() -> ListParts<'a>
        ensures { result ≡ [] }
    {
        ListParts {
            elements: Nodes::none(),
            arguments: Nodes::none(),
            values: Nodes::none(),
        }
    }

    pub fn of_elements(elements: &'a Items<Element>) -> ListParts<'a>
        ensures { result ≡ elements_parts elements.now }
    {
        ListParts {
            elements: Nodes::of(elements),
            arguments: Nodes::none(),
            values: Nodes::none(),
        }
    }

    /// The arguments that are left.
    pub fn of_arguments(arguments: Nodes<'a, Argument>) -> ListParts<'a>
        ensures { result ≡ arguments_parts arguments.entry }
    {
        ListParts {
            elements: Nodes::none(),
            arguments,
            values: Nodes::none(),
        }
    }

    /// The values of a template.
    pub fn of_values(values: &'a Items<TemplatePart>) -> ListParts<'a>
        ensures { result ≡ values_parts values.now }
    {
        ListParts {
            elements: Nodes::none(),
            arguments: Nodes::none(),
            values: Nodes::of(values),
        }
    }

    pub fn share(&self) -> ListParts<'a>
        ensures { result ≡ self.now }
    {
        ListParts {
            elements: self.elements.share(),
            arguments: self.arguments.share(),
            values: self.values.share(),
        }
    }

    /// The first, and what is left behind it.
    pub fn first(&self) -> Option<(ListPart<'a>, ListParts<'a>)>
        ensures { MatchOption result (self.now ≡ []) (λ p. self.now ≡ part_of p.0 ∷ p.1) }
    {
        match self.elements.first() {
            None => first_of(self.arguments.share(), self.values.share()),
            Some((first, elements)) => {
                let rest = ListParts {
                    elements,
                    arguments: self.arguments.share(),
                    values: self.values.share(),
                };
                Some((element_part(first), rest))
            }
        }
    }
}

/// The first of arguments and values, and what is left behind it.
fn first_of<'a>(
    arguments: Nodes<'a, Argument>,
    values: Nodes<'a, TemplatePart>,
) -> Option<(ListPart<'a>, ListParts<'a>)>
    ensures { MatchOption result (arguments_parts arguments.entry ++ values_parts values.entry ≡ []) (λ p. arguments_parts arguments.entry ++ values_parts values.entry ≡ part_of p.0 ∷ p.1) }
{
    match arguments.first() {
        None => first_value(values),
        Some((first, arguments)) => {
            let rest = ListParts {
                elements: Nodes::none(),
                arguments,
                values,
            };
            Some((ListPart::One(Node::of(first)), rest))
        }
    }
}

/// The first of values, and what is left behind it.
fn first_value<'a>(values: Nodes<'a, TemplatePart>) -> Option<(ListPart<'a>, ListParts<'a>)>
    ensures { MatchOption result (values_parts values.entry ≡ []) (λ p. values_parts values.entry ≡ part_of p.0 ∷ p.1) }
{
    let (first, values) = values.first()?;
    let rest = ListParts {
        elements: Nodes::none(),
        arguments: Nodes::none(),
        values,
    };
    Some((ListPart::Valued(Node::of(&first.value)), rest))
}

/// The part that an element is.
fn element_part<'a>(element: &'a Element) -> ListPart<'a>
    ensures { part_of result ≡ element_argument (out-Element element.now) }
{
    match element {
        Element::Hole => ListPart::Hole,
        Element::Present(argument) => ListPart::One(Node::of(argument)),
    }
}
