//! The nodes of object literals (ECMA-262, 6th edition, 12.2.6).

ghost use Rattle.std.specs.Prelude.{[], ◌++◌, ◌∷◌, ◌≡◌, List, OnOk};
ghost use Rattle.es6_ast.specs.declared.tree.Expression.TheVariants as expr;
ghost use Rattle.es6_ast.specs.declared.tree.Property.TheVariants as property;
ghost use Rattle.es6_ast.specs.declared.tree.Property.{Property};
ghost use Rattle.es6_reading.specs.Expressions.{left};

use crate::functions::MakesMethods;
use crate::readings::MakesReadings;
use es_text::Span;
use es6_ast::Identifier;
use shared_text::Name;
use std::alloc::{AllocError, Global};

/// Makes object literals, and properties that are names.
pub trait MakesProperties: MakesReadings {
    type Property: Drop;

    type Properties: Drop;

    ghost seen_property: { Self.Property → Property };

    ghost seen_properties: { Self.Properties → List Property };

    fn shorthand(span: Span, name: Name) -> Self::Property
        ensures { Self.seen_property result ≡ property.Shorthand span name };

    fn initialized_property(
        span: Span,
        name: Identifier,
        equals: Span,
        value: Self::Reading,
    ) -> Self::Property
        ensures { Self.seen_property result ≡ property.Initialized span name equals (Self.seen value).value };

    fn no_properties(alloc: Global) -> Self::Properties
        ensures { Self.seen_properties result ≡ [] };

    fn push_property(
        list: &mut Self::Properties,
        property: Self::Property,
    ) -> Result<(), AllocError>
        ensures { OnOk result (Self.seen_properties list.new ≡ Self.seen_properties list.old ++ Self.seen_property property ∷ []) };

    fn object(span: Span, properties: Self::Properties) -> Self::Reading
        ensures { Self.seen result ≡ left (expr.ObjectList span (Self.seen_properties properties)) };
}

/// Makes properties with names of any kind.
pub trait MakesObjects: MakesProperties + MakesMethods {
    /// 12.2.6
    fn plain_property(span: Span, key: Self::Key, value: Self::Reading) -> Self::Property
        ensures { Self.seen_property result ≡ property.Plain span (Self.seen_key key) (Self.seen value).value };

    fn defined_property(method: Self::Method) -> Self::Property
        ensures { Self.seen_property result ≡ property.Defined (Self.seen_method method) };
}
