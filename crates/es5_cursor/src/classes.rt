//! What single tokens are.

ghost use Rattle.std.specs.Prelude.{◌≡◌, ◌||◌, codes, IfOk, map};
ghost use Rattle.es5_ast.specs.Grammar.{ends, is_mark, is_word};
ghost use Rattle.es5_reading.specs.Expressions.{accessor_in, accessor_word, any_name_in, begins_expression, begins_operand, free_name_in, key_in, literal_in, literal_word};
ghost use Rattle.es5_ast.specs.Lexical.{is_one_of, reserved_words};
ghost use Rattle.es5_ast.specs.Grammar.{is_identifier};
ghost use Rattle.es5_cursor.specs.Tables.{begins_operand_mark, begins_operand_word};
ghost use Rattle.es5_tokens.specs.Tokens.{kind5, token5};
ghost use Rattle.es5_tokens.specs.Punctuators.{spelling};

use crate::operators;
use es5_ast::{Key5, Literal5};
use es5_tokens::{Punctuator, Token, TokenKind};
use shared_text::Name;
use std::alloc::{AllocError, Global};

pub fn is_mark(kind: &TokenKind, mark: Punctuator) -> bool
    ensures { result ≡ is_mark (spelling mark) (kind5 kind.now) }
{
    match kind {
        TokenKind::Punctuator(other) => *other == mark,
        _ => false,
    }
}

/// Whether it ends a statement (7.9).
#[tactic(auto, using(crate::proofs::Ends::ends_mark))]
pub fn is_end(kind: &TokenKind) -> bool
    ensures { result ≡ ends (kind5 kind.now) }
{
    is_mark(kind, Punctuator::Semicolon)
}

pub fn is_word(kind: &TokenKind, word: &[u8]) -> bool
    ensures { result ≡ is_word word.now (kind5 kind.now) }
{
    match kind {
        TokenKind::Word(name) => name.is(word),
        _ => false,
    }
}

/// The name of an identifier, which is no reserved word.
pub fn free_name(alloc: Global, kind: &TokenKind) -> Result<Option<Name>, AllocError>
    ensures { IfOk result (λ name. name ≡ free_name_in (kind5 kind.now)) }
{
    match kind {
        TokenKind::Word(name) if is_identifier(name) => Ok(Some(name.copy(alloc)?)),
        _ => Ok(None),
    }
}

/// Whether a name is no reserved word of strict code (7.6.1).
pub fn is_identifier(name: &Name) -> bool
    ensures { result ≡ is_identifier name.now }
{
    !is_reserved(name.bytes())
}

fn is_reserved(name: &[u8]) -> bool
    ensures { result ≡ is_one_of name.now reserved_words }
{
    is_one_of(name, &RESERVED_WORDS)
}

/// Whether a name is one of these.
pub fn is_one_of(name: &[u8], words: &[&[u8]]) -> bool
    ensures { result ≡ is_one_of name.now (map (λ w. w.now) words.now) }
{
    for word in words {
        if name == *word {
            return true;
        }
    }
    false
}

/// The name of an identifier or a reserved word.
pub fn any_name(alloc: Global, kind: &TokenKind) -> Result<Option<Name>, AllocError>
    ensures { IfOk result (λ name. name ≡ any_name_in (kind5 kind.now)) }
{
    match kind {
        TokenKind::Word(name) => Ok(Some(name.copy(alloc)?)),
        _ => Ok(None),
    }
}

/// The literal that the token is (7.8).
pub fn literal(alloc: Global, kind: &TokenKind) -> Result<Option<Literal5>, AllocError>
    ensures { IfOk result (λ literal. literal ≡ literal_in (kind5 kind.now)) }
{
    Ok(match kind {
        TokenKind::Word(name) => literal_word(name),
        TokenKind::Integer(value) => Some(Literal5::Integer(*value)),
        TokenKind::Text(units) => Some(Literal5::Text(units.copy(alloc)?)),
        TokenKind::Punctuator(_) => None,
    })
}

fn literal_word(name: &Name) -> Option<Literal5>
    ensures { result ≡ literal_word name.now }
{
    if name.is(b"null") {
        Some(Literal5::Null)
    } else if name.is(b"true") {
        Some(Literal5::Truth(true))
    } else if name.is(b"false") {
        Some(Literal5::Truth(false))
    } else {
        None
    }
}

/// Whether the token is `set`, where it is that or `get`.
pub fn accessor(kind: &TokenKind) -> Option<bool>
    ensures { result ≡ accessor_in (kind5 kind.now) }
{
    match kind {
        TokenKind::Word(name) => accessor_word(name),
        _ => None,
    }
}

fn accessor_word(name: &Name) -> Option<bool>
    ensures { result ≡ accessor_word name.now }
{
    if name.is(b"get") {
        Some(false)
    } else if name.is(b"set") {
        Some(true)
    } else {
        None
    }
}

/// The name of a property that the token is (11.1.5).
pub fn key(alloc: Global, kind: &TokenKind) -> Result<Option<Key5>, AllocError>
    ensures { IfOk result (λ key. key ≡ key_in (kind5 kind.now)) }
{
    Ok(match kind {
        TokenKind::Word(name) => Some(Key5::WordKey(name.copy(alloc)?)),
        TokenKind::Integer(value) => Some(Key5::IntegerKey(*value)),
        TokenKind::Text(units) => Some(Key5::TextKey(units.copy(alloc)?)),
        TokenKind::Punctuator(_) => None,
    })
}

/// Whether the token is `/` or `/=`.
pub fn begins_division(kind: &TokenKind) -> bool
    ensures { result ≡ (is_mark (codes "/") (kind5 kind.now) || is_mark (codes "/=") (kind5 kind.now)) }
{
    is_mark(kind, Punctuator::Slash) || is_mark(kind, Punctuator::SlashAssign)
}

/// Whether the token begins an expression after `new` (11.2).
#[tactic(auto, unfolding(es5_reading::specs::Expressions::begins_operand), using(crate::proofs::Tables::operand_marks))]
pub fn begins_operand(token: &Token) -> bool
    ensures { result ≡ begins_operand (token5 token.now) }
{
    match &token.kind {
        TokenKind::Word(name) => begins_operand_word(name),
        TokenKind::Integer(_) | TokenKind::Text(_) => true,
        TokenKind::Punctuator(punctuator) => begins_operand_mark(*punctuator),
    }
}

fn begins_operand_word(name: &Name) -> bool
    ensures { result ≡ begins_operand_word name.now }
{
    is_identifier(name)
        || literal_word(name).is_some()
        || name.is(b"this")
        || name.is(b"function")
        || name.is(b"new")
}

fn begins_operand_mark(punctuator: Punctuator) -> bool
    ensures { result ≡ begins_operand_mark punctuator }
{
    match punctuator {
        Punctuator::LeftParenthesis | Punctuator::LeftBracket | Punctuator::LeftBrace => true,
        _ => false,
    }
}

/// Whether the token begins an expression.
#[tactic(auto, unfolding(es5_reading::specs::Expressions::begins_expression))]
pub fn begins_expression(token: &Token) -> bool
    ensures { result ≡ begins_expression (token5 token.now) }
{
    begins_operand(token)
        || operators::unary(&token.kind).is_some()
        || operators::before(&token.kind).is_some()
}

/// ReservedWord (7.6.1), with the future reserved words of strict code
const RESERVED_WORDS: [&[u8]; 45] = [
    b"break",
    b"case",
    b"catch",
    b"class",
    b"const",
    b"continue",
    b"debugger",
    b"default",
    b"delete",
    b"do",
    b"else",
    b"enum",
    b"export",
    b"extends",
    b"false",
    b"finally",
    b"for",
    b"function",
    b"if",
    b"implements",
    b"import",
    b"in",
    b"instanceof",
    b"interface",
    b"let",
    b"new",
    b"null",
    b"package",
    b"private",
    b"protected",
    b"public",
    b"return",
    b"static",
    b"super",
    b"switch",
    b"this",
    b"throw",
    b"true",
    b"try",
    b"typeof",
    b"var",
    b"void",
    b"while",
    b"with",
    b"yield",
];
