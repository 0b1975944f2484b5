//! What the next tokens are, without taking them.

ghost use Rattle.std.specs.Prelude.{◌≡◌, map};
ghost use Rattle.es5_reading.specs.Parser.{is_insertable, next_is};
ghost use Rattle.es5_reading.specs.Statements.{begins_line};
ghost use Rattle.es5_tokens.specs.Tokens.{token5};

use crate::classes::is_mark;
use es5_tokens::{Punctuator, Token};

/// Whether a semicolon may be inserted before these tokens (ECMA-262, 5.1 edition, 7.9.1).
pub fn is_insertable(tokens: &[Token]) -> bool
    ensures { result ≡ is_insertable (map token5 tokens.now) }
{
    match tokens.first() {
        Some(token) => token.after_line || is_mark(&token.kind, Punctuator::RightBrace),
        None => true,
    }
}

/// Whether there is a next token, on a line of its own.
pub fn begins_line(tokens: &[Token]) -> bool
    ensures { result ≡ next_is begins_line (map token5 tokens.now) }
{
    match tokens.first() {
        Some(token) => token.after_line,
        None => false,
    }
}
