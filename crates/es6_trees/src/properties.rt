//! The trees of object literals (ECMA-262, 6th edition, 12.2.6).

use crate::Trees;
use crate::reading::Reading;
use es_text::Span;
use es6_ast::{Expression, Identifier, Key, Method, Property};
use es6_makers::{MakesObjects, MakesProperties};
use shared_text::Name;
use sqlite_items::Items;
use std::alloc::{AllocError, Global};

impl MakesProperties for Trees {
    type Property = Property;

    type Properties = Items<Property>;

    ghost seen_property = { λ x. x };

    ghost seen_properties = { λ x. x };

    fn shorthand(span: Span, name: Name) -> Property {
        Property::Shorthand { span, name }
    }

    fn initialized_property(
        span: Span,
        name: Identifier,
        equals: Span,
        value: Reading,
    ) -> Property {
        Property::Initialized {
            span,
            name,
            equals,
            value: value.into_value(),
        }
    }

    fn no_properties(alloc: Global) -> Items<Property> {
        Items::new(alloc)
    }

    fn push_property(list: &mut Items<Property>, property: Property) -> Result<(), AllocError> {
        list.push(property)
    }

    fn object(span: Span, properties: Items<Property>) -> Reading {
        Reading::left(Expression::ObjectList { span, properties })
    }
}

impl MakesObjects for Trees {
    fn plain_property(span: Span, key: Key, value: Reading) -> Property {
        Property::Plain {
            span,
            key,
            value: value.into_value(),
        }
    }

    fn defined_property(method: Method) -> Property {
        Property::Defined(method)
    }
}
