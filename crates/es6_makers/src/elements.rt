//! The nodes of array literals (ECMA-262, 6th edition, 12.2.5).

ghost use Rattle.std.specs.Prelude.{◌≡◌, ◌++◌, ◌∷◌, [], List, OnOk};
ghost use Rattle.es6_ast.specs.declared.tree.Element.TheVariants as element;
ghost use Rattle.es6_ast.specs.declared.tree.Element.{Element};
ghost use Rattle.es6_ast.specs.declared.tree.Expression.TheVariants as expr;
ghost use Rattle.es6_reading.specs.Expressions.{left};

use crate::arguments::MakesArguments;
use es_text::Span;
use std::alloc::{AllocError, Global};

/// Makes array literals.
pub trait MakesElements: MakesArguments {
    type Elements: Drop;

    ghost seen_elements: { Self.Elements → List Element };

    /// 12.2.5
    fn no_elements(alloc: Global) -> Self::Elements
        ensures { Self.seen_elements result ≡ [] };

    fn push_hole(list: &mut Self::Elements) -> Result<(), AllocError>
        ensures { OnOk result (Self.seen_elements list.new ≡ Self.seen_elements list.old ++ element.Hole ∷ []) };

    fn push_element(list: &mut Self::Elements, argument: Self::Argument) -> Result<(), AllocError>
        ensures { OnOk result (Self.seen_elements list.new ≡ Self.seen_elements list.old ++ element.Present (Self.seen_argument argument) ∷ []) };

    fn array(span: Span, elements: Self::Elements, ends_in_comma: bool) -> Self::Reading
        ensures { Self.seen result ≡ left (expr.ArrayList span (Self.seen_elements elements) ends_in_comma) };
}
