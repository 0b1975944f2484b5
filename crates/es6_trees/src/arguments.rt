//! The trees of arguments.

use crate::Trees;
use crate::reading::Reading;
use es_text::Span;
use es6_ast::Argument;
use es6_makers::MakesArguments;
use sqlite_items::Items;
use std::alloc::{AllocError, Global};

impl MakesArguments for Trees {
    type Argument = Argument;

    type Arguments = Items<Argument>;

    ghost seen_argument = { λ x. x };

    ghost seen_arguments = { λ x. x };

    fn single(value: Reading) -> Argument {
        Argument::Single(value.into_value())
    }

    fn spread(span: Span, value: Reading) -> Argument {
        Argument::Spread {
            span,
            value: value.into_value(),
        }
    }

    fn no_arguments(alloc: Global) -> Items<Argument> {
        Items::new(alloc)
    }

    fn push_argument(list: &mut Items<Argument>, argument: Argument) -> Result<(), AllocError> {
        list.push(argument)
    }
}
