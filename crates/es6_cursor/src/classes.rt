//! What single tokens are.

ghost use Rattle.std.specs.Prelude.{◌≡◌, true, false, IfOk, is_some};
ghost use Rattle.es6_ast.specs.Grammar.{ends};
ghost use Rattle.es6_ast.specs.Tokens.{Read, is_word, read};
ghost use Rattle.es6_reading.specs.Parser.{ends_block, is_mark};
ghost use Rattle.es6_reading.specs.Words.{accessor_in, accessor_word, any_name_in, begins_expression, begins_operand, begins_unary, free_name_in, is_any_word, is_template_head, literal_in, literal_word, operand_words, same_truth, stretch_in, text_in};
ghost use Rattle.es6_cursor.specs.Keys.{placed_key_in};

use crate::key::{KeyToken, PlacedKey};
use crate::operators;
use crate::words::{is_among, is_identifier};
use es_text::Span;
use es6_ast::{Flags, Literal, Stretch};
use es6_lexer::{NumberToken, Punctuator, Token, TokenKind};
use shared_text::{Name, Units};
use std::alloc::{AllocError, Global};

pub fn is_mark(kind: &TokenKind, mark: Punctuator) -> bool
    ensures { result ≡ is_mark mark (Read kind.now) }
{
    match kind {
        TokenKind::Punctuator(other) => *other == mark,
        _ => false,
    }
}

pub fn is_word(kind: &TokenKind, word: &[u8]) -> bool
    ensures { result ≡ is_word word.now (Read kind.now) }
{
    match kind {
        TokenKind::Word(name) => name.is(word),
        _ => false,
    }
}

/// Whether it is a semicolon that ends a statement (11.9).
pub fn is_end(kind: &TokenKind) -> bool
    ensures plain { result ≡ ends false (Read kind.now) }
    ensures do_while { result ≡ ends true (Read kind.now) }
{
    match kind {
        TokenKind::Punctuator(Punctuator::Semicolon) => true,
        _ => false,
    }
}

/// Whether a semicolon may be inserted before it without a line terminator (11.9.1).
pub fn ends_block(kind: &TokenKind) -> bool
    ensures { result ≡ ends_block (Read kind.now) }
{
    match kind {
        TokenKind::Punctuator(Punctuator::RightBrace) | TokenKind::End => true,
        _ => false,
    }
}

/// The name of an identifier, which is no reserved word.
pub fn free_name(alloc: Global, kind: &TokenKind) -> Result<Option<Name>, AllocError>
    ensures { IfOk result (λ name. name ≡ free_name_in (Read kind.now)) }
{
    match kind {
        TokenKind::Word(name) if is_identifier(name) => Ok(Some(name.copy(alloc)?)),
        _ => Ok(None),
    }
}

/// The name of an identifier or a reserved word.
pub fn any_name(alloc: Global, kind: &TokenKind) -> Result<Option<Name>, AllocError>
    ensures { IfOk result (λ name. name ≡ any_name_in (Read kind.now)) }
{
    match kind {
        TokenKind::Word(name) => Ok(Some(name.copy(alloc)?)),
        _ => Ok(None),
    }
}

/// The literal that the token is (12.2.4).
pub fn literal(alloc: Global, kind: &TokenKind) -> Result<Option<Literal>, AllocError>
    ensures { IfOk result (λ literal. literal ≡ literal_in (Read kind.now)) }
{
    Ok(match kind {
        TokenKind::Word(name) => literal_word(name),
        TokenKind::Number(NumberToken::Whole(value)) => Some(Literal::Integer(*value)),
        TokenKind::Text(units) => Some(Literal::Text(units.copy(alloc)?)),
        _ => None,
    })
}

fn literal_word(name: &Name) -> Option<Literal>
    ensures { result ≡ literal_word name.now }
{
    if name.is(b"null") {
        Some(Literal::Null)
    } else if name.is(b"true") {
        Some(Literal::Truth(true))
    } else if name.is(b"false") {
        Some(Literal::Truth(false))
    } else {
        None
    }
}

/// Whether the token begins as a literal.
fn is_literal(kind: &TokenKind) -> bool
    ensures { result ≡ is_some (literal_in (Read kind.now)) }
{
    match kind {
        TokenKind::Word(name) => literal_word(name).is_some(),
        TokenKind::Number(NumberToken::Whole(_)) | TokenKind::Text(_) => true,
        _ => false,
    }
}

/// The value of a string literal.
pub fn text(alloc: Global, kind: &TokenKind) -> Result<Option<Units>, AllocError>
    ensures { IfOk result (λ text. text ≡ text_in (Read kind.now)) }
{
    match kind {
        TokenKind::Text(units) => Ok(Some(units.copy(alloc)?)),
        _ => Ok(None),
    }
}

pub fn is_text(kind: &TokenKind) -> bool
    ensures { result ≡ is_some (text_in (Read kind.now)) }
{
    match kind {
        TokenKind::Text(_) => true,
        _ => false,
    }
}

/// The name of a property that the token is, which has the span (12.2.6).
pub fn key(alloc: Global, span: Span, kind: &TokenKind) -> Result<Option<PlacedKey>, AllocError>
    ensures { IfOk result (λ key. key ≡ placed_key_in span (Read kind.now)) }
{
    Ok(match kind {
        TokenKind::Word(name) => Some(PlacedKey::new(KeyToken::Word {
            span,
            name: name.copy(alloc)?,
        })),
        TokenKind::Text(units) => Some(PlacedKey::new(KeyToken::Text {
            span,
            units: units.copy(alloc)?,
        })),
        TokenKind::Number(NumberToken::Whole(value)) => Some(PlacedKey::new(KeyToken::Integer {
            span,
            value: *value,
        })),
        _ => None,
    })
}

/// Whether the token is `set`, where it is that or `get`.
pub fn accessor(kind: &TokenKind) -> Option<bool>
    ensures { result ≡ accessor_in (Read kind.now) }
{
    match kind {
        TokenKind::Word(name) => accessor_word(name),
        _ => None,
    }
}

fn accessor_word(name: &Name) -> Option<bool>
    ensures { result ≡ accessor_word name.now }
{
    if name.is(b"get") {
        Some(false)
    } else if name.is(b"set") {
        Some(true)
    } else {
        None
    }
}

fn same_truth(wanted: bool, is: bool) -> bool
    ensures { result ≡ same_truth wanted is }
{
    if wanted { is } else { !is }
}

/// The stretch of a template that the token is, if its marks are these (11.8.6).
pub fn stretch(
    alloc: Global,
    token: &Token,
    first: bool,
    last: bool,
) -> Result<Option<Stretch>, AllocError>
    ensures { IfOk result (λ stretch. stretch ≡ stretch_in first last token.now.span (Read token.now.kind)) }
{
    match &token.kind {
        TokenKind::Template {
            cooked,
            raw,
            first: begins,
            last: ends,
        } if same_truth(first, *begins) & same_truth(last, *ends) => Ok(Some(Stretch {
            span: token.span,
            cooked: cooked.copy(alloc)?,
            raw: raw.copy(alloc)?,
        })),
        _ => Ok(None),
    }
}

/// Whether a template begins with the token.
pub fn is_template_head(kind: &TokenKind) -> bool
    ensures { result ≡ is_template_head (Read kind.now) }
{
    match kind {
        TokenKind::Template { first, .. } => *first,
        _ => false,
    }
}

/// The words that begin an operand and are neither identifiers nor literals.
const OPERAND_WORDS: [&[u8]; 5] = [b"this", b"function", b"class", b"new", b"super"];

fn is_operand_word(kind: &TokenKind) -> bool
    ensures { result ≡ is_any_word operand_words (Read kind.now) }
{
    match kind {
        TokenKind::Word(name) => is_among(&OPERAND_WORDS, name.bytes()),
        _ => false,
    }
}

fn is_free_name(kind: &TokenKind) -> bool
    ensures { result ≡ is_some (free_name_in (Read kind.now)) }
{
    match kind {
        TokenKind::Word(name) => is_identifier(name),
        _ => false,
    }
}

/// Whether the token begins an operand (12.2, 12.3).
#[tactic(auto, unfolding(es6_reading::specs::Words::begins_operand))]
pub fn begins_operand(token: &Token) -> bool
    ensures { result ≡ begins_operand (read token.now) }
{
    let kind = &token.kind;
    is_free_name(kind)
        | is_literal(kind)
        | is_operand_word(kind)
        | is_template_head(kind)
        | is_mark(kind, Punctuator::LeftParenthesis)
        | is_mark(kind, Punctuator::LeftBracket)
        | is_mark(kind, Punctuator::LeftBrace)
}

/// Whether the token begins a UnaryExpression (12.5).
#[tactic(auto, unfolding(es6_reading::specs::Words::begins_unary))]
pub fn begins_unary(token: &Token) -> bool
    ensures { result ≡ begins_unary (read token.now) }
{
    begins_operand(token)
        | operators::unary(&token.kind).is_some()
        | operators::before(&token.kind).is_some()
}

/// Whether the token begins an expression.
#[tactic(auto, unfolding(es6_reading::specs::Words::begins_expression))]
pub fn begins_expression(token: &Token, flags: Flags) -> bool
    ensures { result ≡ begins_expression flags (read token.now) }
{
    begins_unary(token) | (flags.has_yield & is_word(&token.kind, b"yield"))
}
