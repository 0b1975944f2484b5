//! Names as the rules see them: where they stand, and their bytes.

ghost use Rattle.std.specs.Prelude.{◌≡◌};

use es_text::Span;
use es6_ast::Identifier;
use std::marker::Model;

/// A name that is declared, bound or exported, borrowed from the tree and seen as an identifier.
#[derive(Drop)]
pub struct PlacedName<'a> {
    span: Span,
    bytes: &'a [u8],
}

impl<'a> Model for PlacedName<'a> {
    ghost use Rattle.es6_ast.specs.declared.tree.Identifier.{Identifier};

    ghost Value = { Identifier };

    ghost view = { λ x. record { span = x.span; name = x.bytes.now } };
}

impl<'a> PlacedName<'a> {
    /// The name of these bytes in UTF-8 at a place.
    pub fn new(span: Span, bytes: &'a [u8]) -> PlacedName<'a>
        ensures { result ≡ record { span = span; name = bytes.now } }
    {
        PlacedName { span, bytes }
    }

    /// The name of an identifier.
    pub fn of(identifier: &'a Identifier) -> PlacedName<'a>
        ensures { result ≡ identifier.now }
    {
        PlacedName::new(identifier.span, identifier.name.bytes())
    }

    /// The same name at the same place.
    pub fn copy(&self) -> PlacedName<'a>
        ensures { result ≡ self.now }
    {
        PlacedName::new(self.span, self.bytes)
    }

    /// The bytes of the name in UTF-8.
    pub fn bytes(&self) -> &'a [u8]
        ensures { result.now ≡ self.now.name }
    {
        self.bytes
    }

    /// Where the name begins: an offset in bytes from 0.
    pub fn begin(&self) -> u32
        ensures { result ≡ self.now.span.begin }
    {
        self.span.begin
    }
}
