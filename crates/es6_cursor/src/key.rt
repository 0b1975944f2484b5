//! The names of properties that single tokens are (ECMA-262, 6th edition, 12.2.6).

ghost use Rattle.std.specs.Prelude.{◌≡◌};
ghost use Rattle.es6_cursor.specs.Keys.{key_of};

use es_text::Span;
use shared_text::{Name, Units};
use std::marker::Model;

/// The name of a property that is not computed, by its token.
#[derive(Debug, Drop)]
pub enum KeyToken {
    Word { span: Span, name: Name },
    Text { span: Span, units: Units },
    Integer { span: Span, value: i64 },
}

/// The name of a property that is not computed. Contracts see it as the node that it becomes.
#[derive(Debug, Drop)]
pub struct PlacedKey {
    token: KeyToken,
}

impl Model for PlacedKey {
    ghost use Rattle.es6_ast.specs.contracts.tree.Key as key;
    ghost use Rattle.es6_ast.specs.declared.tree.Key.{Key};
    ghost use Rattle.es6_cursor.specs.Keys.{key_of};

    ghost Value = { Key };

    ghost coded = { key.the_row.coded };

    ghost view = { λ k. key_of k.token };
}

impl PlacedKey {
    pub(crate) fn new(token: KeyToken) -> PlacedKey
        ensures { result ≡ key_of token }
    {
        PlacedKey { token }
    }

    pub fn into_token(self) -> KeyToken
        ensures { key_of result ≡ self }
    {
        let PlacedKey { token } = self;
        token
    }
}
