//! The tokens of a text, one after another.

ghost use Rattle.std.specs.Prelude.{◌≡◌, ◌+◌, ◌<◌, ◌≤◌, ◌^◌, ℕ, List, [], length, take, drop, IfOk, OnOk, IsUtf8};
ghost use Rattle.std.specs.Str.{chars, encode_utf8_all};
ghost use Rattle.es6_lexer.specs.declared.token.TokenKind.TheVariants.{Template, Fault};
ghost use Rattle.es6_lexer.specs.Lexes.{Lexes, opened, offset_after, token_at};

use crate::braces::Braces;
use crate::element::element;
use crate::shape::Element;
use crate::token::{LexicalKind, Punctuator, Token, TokenKind};
use crate::values::kind_of;
use es_text::{Span, chars_of};
use std::alloc::{AllocError, Global};

/// The tokens of a text in UTF-8 of at most 4,194,304 bytes. The list ends with `End`, or with
/// the first lexical fault.
pub fn lex6(alloc: Global, bytes: &[u8]) -> Result<Vec<Token>, AllocError>
    requires utf8 { IsUtf8 bytes.now }
    requires limit { length bytes.now ≤ 4194304 }
    ensures { IfOk result (λ tokens. Lexes (chars bytes.now) tokens.items) }
{
    let Ok(text) = chars_of(alloc, bytes) else {
        return Err(AllocError);
    };
    tokens_of(alloc, bytes, &text)
}

/// No text has two lists of tokens.
pub fn one_token_list()
    ensures { (text : List ℕ) (a b : List Token) → Lexes text a → Lexes text b → a ≡ b }
{}

/// The tokens of characters, of which these are the bytes.
fn tokens_of(alloc: Global, bytes: &[u8], text: &[char]) -> Result<Vec<Token>, AllocError>
    requires same { bytes.now ≡ encode_utf8_all text.now }
    requires limit { length bytes.now < 2 ^ 31 }
    ensures { IfOk result (λ tokens. Lexes text.now tokens.items) }
{
    let mut tokens = Vec::new(alloc);
    let mut braces = Braces::new(alloc);
    let mut newline = false;
    let mut offset: u32 = 0;
    let mut left = bytes;
    let mut rest = text;
    loop {
        match element(braces.closes_template(), rest) {
            Element::Finished => {
                tokens.push(token(TokenKind::End, offset, offset, newline))?;
                return Ok(tokens);
            }
            Element::Stop { kind, at } => {
                tokens.push(fault(kind, at, offset, newline, rest))?;
                return Ok(tokens);
            }
            Element::Skip {
                length,
                newline: line,
            } => {
                let (front, after) = rest.split_at(length);
                let (spelling, others) = split_bytes(left, front);
                offset += spelling.len() as u32;
                left = others;
                rest = after;
                newline = newline | line;
            }
            Element::Take { shape, length } => {
                let (front, after) = rest.split_at(length);
                let (spelling, others) = split_bytes(left, front);
                let kind = kind_of(alloc, shape, spelling, front)?;
                let end = offset + spelling.len() as u32;
                follow(&mut braces, &kind)?;
                tokens.push(token(kind, offset, end, newline))?;
                offset = end;
                left = others;
                rest = after;
                newline = false;
            }
        }
    }
}

/// The token of a fault, which spans the character at which it is reported.
fn fault(kind: LexicalKind, at: usize, offset: u32, newline: bool, rest: &[char]) -> Token
    requires inside { at < length rest.now }
    requires fits { offset + length (encode_utf8_all rest.now) < 2 ^ 32 }
    ensures { result ≡ token_at (Fault kind) (offset_after offset at rest.now) (offset_after offset (at + 1) rest.now) newline }
{
    let begin = offset + utf8_length(&rest[..at]);
    let end = offset + utf8_length(&rest[..at + 1]);
    token(TokenKind::Fault(kind), begin, end, newline)
}

/// Parts bytes behind those of the first characters.
fn split_bytes<'a>(left: &'a [u8], front: &[char]) -> (&'a [u8], &'a [u8])
    requires fits { length (encode_utf8_all front.now) ≤ length left.now }
    requires small { length left.now < 2 ^ 32 }
    ensures front { result.0.now ≡ take (length (encode_utf8_all front.now)) left.now }
    ensures size { length result.0.now ≡ length (encode_utf8_all front.now) }
    ensures others { result.1.now ≡ drop (length (encode_utf8_all front.now)) left.now }
{
    left.split_at(utf8_length(front) as usize)
}

fn token(kind: TokenKind, begin: u32, end: u32, newline: bool) -> Token
    ensures { result ≡ token_at kind begin end newline }
{
    Token {
        kind,
        span: Span { begin, end },
        newline,
    }
}

/// Opens and closes the braces of a token.
fn follow(braces: &mut Braces, kind: &TokenKind) -> Result<(), AllocError>
    ensures { OnOk result (braces.new ≡ opened kind.now braces.old) }
{
    match kind {
        TokenKind::Punctuator(Punctuator::LeftBrace) => braces.enter(false),
        TokenKind::Punctuator(Punctuator::RightBrace) => {
            braces.leave();
            Ok(())
        }
        TokenKind::Template { first, last, .. } => follow_template(braces, *first, *last),
        _ => Ok(()),
    }
}

fn follow_template(braces: &mut Braces, first: bool, last: bool) -> Result<(), AllocError>
    ensures { OnOk result (braces.new ≡ opened (Template [] [] first last) braces.old) }
{
    if first & !last {
        return braces.enter(true);
    }
    if last & !first {
        braces.leave();
    }
    Ok(())
}

/// The bytes of characters.
fn utf8_length(text: &[char]) -> u32
    requires { length (encode_utf8_all text.now) < 2 ^ 32 }
    ensures { result ≡ length (encode_utf8_all text.now) }
{
    let mut total = 0;
    for c in text {
        total += c.len_utf8() as u32;
    }
    total
}
