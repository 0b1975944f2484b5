//! What the next tokens are, without taking them.

ghost use Rattle.std.specs.Prelude.{◌≡◌, map};
ghost use Rattle.es5_reading.specs.Parser.{next_is};
ghost use Rattle.es5_reading.specs.Statements.{ends_case, goes_on};
ghost use Rattle.es5_tokens.specs.Tokens.{token5};

use es5_cursor::{is_mark, is_word};
use es5_tokens::{Punctuator, Token};

/// Whether the value of a `return` may begin with the next token (12.9).
pub fn goes_on(tokens: &[Token]) -> bool
    ensures { result ≡ next_is goes_on (map token5 tokens.now) }
{
    match tokens.first() {
        Some(token) => {
            !(token.after_line
                | is_mark(&token.kind, Punctuator::Semicolon)
                | is_mark(&token.kind, Punctuator::RightBrace))
        }
        None => false,
    }
}

/// Whether the statements of a clause end before the next token (12.11).
pub fn ends_case(tokens: &[Token]) -> bool
    ensures { result ≡ next_is ends_case (map token5 tokens.now) }
{
    match tokens.first() {
        Some(token) => {
            is_word(&token.kind, b"case")
                | is_word(&token.kind, b"default")
                | is_mark(&token.kind, Punctuator::RightBrace)
        }
        None => false,
    }
}
