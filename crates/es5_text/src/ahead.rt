//! What the next tokens are, without taking them.

ghost use Rattle.std.specs.Prelude.{◌≡◌, codes, map, true};
ghost use Rattle.es5_reading.specs.Parser.{next_is};
ghost use Rattle.es5_reading.specs.Programs.{continues, is_directive, is_text};
ghost use Rattle.es5_text.specs.Directive.{continues_behind};
ghost use Rattle.es5_tokens.specs.Tokens.{kind5, token5};

use es5_cursor::{is_mark, operators};
use es5_tokens::{Punctuator, Token, TokenKind};

/// Whether there is a next token.
pub fn has_next(tokens: &[Token]) -> bool
    ensures { result ≡ next_is (λ t. true) (map token5 tokens.now) }
{
    tokens.first().is_some()
}

/// Whether the next token is the directive of strict code, without escapes (14.1).
pub fn begins_strict(tokens: &[Token]) -> bool
    ensures { result ≡ next_is is_directive (map token5 tokens.now) }
{
    match tokens.first() {
        Some(token) => is_directive(token),
        None => false,
    }
}

fn is_directive(token: &Token) -> bool
    ensures { result ≡ is_directive (token5 token.now) }
{
    is_use_strict(&token.kind) && token.begin <= token.end && token.end - token.begin == 12
}

fn is_use_strict(kind: &TokenKind) -> bool
    ensures { result ≡ is_text (codes "use strict") (kind5 kind.now) }
{
    match kind {
        TokenKind::Text(units) => units.units() == USE_STRICT.as_slice(),
        _ => false,
    }
}

/// The units of `use strict`.
const USE_STRICT: [u16; 10] = [0x75, 0x73, 0x65, 0x20, 0x73, 0x74, 0x72, 0x69, 0x63, 0x74];

/// Whether the second token goes on with the expression of the first, which is a literal.
pub fn goes_on_behind(tokens: &[Token]) -> bool
    ensures { result ≡ continues_behind (map token5 tokens.now) }
{
    match tokens.split_first() {
        Some((_, rest)) => continues(rest),
        None => false,
    }
}

fn continues(tokens: &[Token]) -> bool
    ensures { result ≡ next_is continues (map token5 tokens.now) }
{
    match tokens.first() {
        Some(token) => is_continuation(token),
        None => false,
    }
}

#[tactic(auto, unfolding(es5_reading::specs::Programs::continues))]
fn is_continuation(token: &Token) -> bool
    ensures { result ≡ continues (token5 token.now) }
{
    is_mark(&token.kind, Punctuator::Dot)
        | is_mark(&token.kind, Punctuator::LeftBracket)
        | is_mark(&token.kind, Punctuator::LeftParenthesis)
        | is_mark(&token.kind, Punctuator::Question)
        | is_mark(&token.kind, Punctuator::Comma)
        | operators::binary(&token.kind).is_some()
        | operators::assign(&token.kind).is_some()
        | operators::after(token).is_some()
}
