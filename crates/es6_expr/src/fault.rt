//! Why tokens are no expression, no statement or no module.

ghost use Rattle.std.specs.Prelude.{◌≡◌, map};
ghost use Rattle.es6_ast.specs.Tokens.{read};
ghost use Rattle.es6_expr.specs.Faults.{fault_of, place_of};

use es6_cursor::Stop;
use es6_lexer::{LexicalKind, Token};
use thiserror::Error;

/// Why tokens are no expression, no statement or no module. `at` is the offset in bytes, from 0, at which the token begins that
/// was reached, or the end of the text.
#[derive(Clone, Copy, Debug, PartialEq, Eq, Error)]
pub enum ParseFault {
    /// Nothing goes on with the token.
    #[error("syntax error at byte {at}")]
    Syntax { at: u32 },
    /// It is the lexical fault of the text.
    #[error("lexical fault {kind:?} at byte {at}")]
    Lexical { at: u32, kind: LexicalKind },
    /// A rule of table U: what the profile leaves out.
    #[error("outside the profile by U{rule} at byte {at}")]
    Outside { rule: u8, at: u32 },
    /// More than 256 constructs are open at once.
    #[error("too deep at byte {at}")]
    Depth { at: u32 },
    #[error("out of memory")]
    OutOfMemory,
}

/// The fault of a stop at the offset.
pub fn fault_of(stop: Stop, at: u32) -> ParseFault
    ensures { result ≡ fault_of stop at }
{
    match stop {
        Stop::Syntax => ParseFault::Syntax { at },
        Stop::Lexical(kind) => ParseFault::Lexical { at, kind },
        Stop::Outside(rule) => ParseFault::Outside { rule, at },
        Stop::Depth => ParseFault::Depth { at },
        // No text of the allowed length has so many tokens.
        Stop::Endless => ParseFault::OutOfMemory,
    }
}

/// Where the tokens that are left begin, or the end of all.
pub fn place_of(tokens: &[Token], rest: &[Token]) -> u32
    ensures { result ≡ place_of (map read tokens.now) (map read rest.now) }
{
    match (rest.first(), tokens.last()) {
        (Some(token), _) => token.span.begin,
        (None, Some(last)) => last.span.end,
        (None, None) => 0,
    }
}
