//! The trees of array literals.

use crate::Trees;
use crate::reading::Reading;
use es_text::Span;
use es6_ast::{Argument, Element, Expression};
use es6_makers::MakesElements;
use sqlite_items::Items;
use std::alloc::{AllocError, Global};

impl MakesElements for Trees {
    type Elements = Items<Element>;

    ghost seen_elements = { λ x. x };

    fn no_elements(alloc: Global) -> Items<Element> {
        Items::new(alloc)
    }

    fn push_hole(list: &mut Items<Element>) -> Result<(), AllocError> {
        list.push(Element::Hole)
    }

    fn push_element(list: &mut Items<Element>, argument: Argument) -> Result<(), AllocError> {
        list.push(Element::Present(argument))
    }

    fn array(span: Span, elements: Items<Element>, ends_in_comma: bool) -> Reading {
        Reading::left(Expression::ArrayList {
            span,
            elements,
            ends_in_comma,
        })
    }
}
