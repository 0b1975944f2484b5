//! The nodes of arguments (ECMA-262, 6th edition, 12.3).

ghost use Rattle.std.specs.Prelude.{◌≡◌, ◌++◌, ◌∷◌, [], List, OnOk};
ghost use Rattle.es6_ast.specs.declared.tree.Argument.TheVariants as argument;
ghost use Rattle.es6_ast.specs.declared.tree.Argument.{Argument};

use crate::readings::MakesReadings;
use es_text::Span;
use std::alloc::{AllocError, Global};

/// Makes arguments and lists of them.
pub trait MakesArguments: MakesReadings {
    type Argument: Drop;

    type Arguments: Drop;

    ghost seen_argument: { Self.Argument → Argument };

    ghost seen_arguments: { Self.Arguments → List Argument };

    /// 12.3
    fn single(value: Self::Reading) -> Self::Argument
        ensures { Self.seen_argument result ≡ argument.Single (Self.seen value).value };

    fn spread(span: Span, value: Self::Reading) -> Self::Argument
        ensures { Self.seen_argument result ≡ argument.Spread span (Self.seen value).value };

    fn no_arguments(alloc: Global) -> Self::Arguments
        ensures { Self.seen_arguments result ≡ [] };

    fn push_argument(list: &mut Self::Arguments, argument: Self::Argument) -> Result<(), AllocError>
        ensures { OnOk result (Self.seen_arguments list.new ≡ Self.seen_arguments list.old ++ Self.seen_argument argument ∷ []) };
}
