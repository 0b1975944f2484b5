//! The values of tokens, made from their texts.

ghost use Rattle.std.specs.Prelude.{◌≡◌, ◌+◌, ◌-◌, ◌<◌, ◌≤◌, ◌++◌, length, take, drop, IfOk, OnOk};
ghost use Rattle.std.specs.Str.{encode_utf8_all};
ghost use Rattle.es6_lexer.specs.declared.shape.Shape.TheVariants.{OfTemplate};
ghost use Rattle.es6_lexer.specs.Values.{kind_of, cooked, raw, inside, escape_units, escape_length, character_units, single_escape, code_point, unicode_value};

use crate::classes::{digit_run, is_line_terminator, peek};
use crate::number::value_of;
use crate::quoted::escape;
use crate::shape::{EscapeEnd, Shape};
use crate::token::TokenKind;
use es_text::push_code_point;
use shared_text::{Name, Units};
use std::alloc::{AllocError, Global};

/// The token of a shape and a text, of which these are the bytes.
pub fn kind_of(
    alloc: Global,
    shape: Shape,
    bytes: &[u8],
    text: &[char],
) -> Result<TokenKind, AllocError>
    requires { bytes.now ≡ encode_utf8_all text.now }
    ensures { IfOk result (λ kind. kind ≡ kind_of shape text.now) }
{
    match shape {
        Shape::OfWord => Ok(TokenKind::Word(Name::of_bytes(alloc, bytes)?)),
        Shape::OfPunctuator(punctuator) => Ok(TokenKind::Punctuator(punctuator)),
        Shape::OfNumber(number) => Ok(TokenKind::Number(number)),
        Shape::OfText => Ok(TokenKind::Text(cooked(alloc, inside(1, text))?)),
        Shape::OfTemplate { last } => template(alloc, last, text),
    }
}

/// One stretch of a template.
fn template(alloc: Global, last: bool, text: &[char]) -> Result<TokenKind, AllocError>
    ensures { IfOk result (λ kind. kind ≡ kind_of (OfTemplate last) text.now) }
{
    let stretch = inside(if last { 1 } else { 2 }, text);
    Ok(TokenKind::Template {
        cooked: cooked(alloc, stretch)?,
        raw: raw(alloc, stretch)?,
        first: peek(text, 0) == '`',
        last,
    })
}

/// A text without its first character and its last ones.
fn inside(back: usize, text: &[char]) -> &[char]
    requires { back ≤ 2 }
    ensures { result.now ≡ inside back text.now }
{
    if text.len() < 1 + back {
        &text[..0]
    } else {
        &text[1..text.len() - back]
    }
}

/// The first characters, as far as there are so many.
fn at_most(count: usize, text: &[char]) -> &[char]
    ensures { result.now ≡ take count text.now }
{
    &text[..count.min(text.len())]
}

/// The characters behind so many.
fn after(count: usize, text: &[char]) -> &[char]
    ensures { result.now ≡ drop count text.now }
{
    &text[count.min(text.len())..]
}

/// The units that characters and escapes stand for (the SV of 11.8.4.2, the TV of 11.8.6.1).
fn cooked(alloc: Global, text: &[char]) -> Result<Units, AllocError>
    ensures { IfOk result (λ units. units ≡ cooked text.now) }
{
    let mut units = Vec::with_capacity(alloc, text.len())?;
    let mut at = 0;
    while at < text.len() {
        let c = text[at];
        if c == '\\' {
            push_escape(&mut units, &text[at + 1..])?;
            at += 1 + escape_length(&text[at + 1..]);
        } else {
            push_character(&mut units, c, peek(text, at + 1))?;
            at += 1;
        }
    }
    Ok(Units::of_units(units))
}

/// The units of the characters as they stand (the TRV of 11.8.6.1).
fn raw(alloc: Global, text: &[char]) -> Result<Units, AllocError>
    ensures { IfOk result (λ units. units ≡ raw text.now) }
{
    let mut units = Vec::with_capacity(alloc, text.len())?;
    let mut at = 0;
    while at < text.len() {
        push_character(&mut units, text[at], peek(text, at + 1))?;
        at += 1;
    }
    Ok(Units::of_units(units))
}

/// Adds a character that another one follows: CR LF and CR count as LF.
fn push_character(units: &mut Vec<u16>, c: char, next: char) -> Result<(), AllocError>
    ensures ok { OnOk result (units.new.items ≡ units.old.items ++ character_units c next) }
{
    if c != '\r' {
        push_code_point(units, c as u32)
    } else if next == '\n' {
        Ok(())
    } else {
        push_code_point(units, '\n' as u32)
    }
}

/// How many characters an escape has behind its `\`.
fn escape_length(rest: &[char]) -> usize
    ensures value { result ≡ escape_length rest.now }
    ensures within { result ≤ length rest.now }
{
    match escape(rest) {
        EscapeEnd::Spelled(length) => length,
        _ => 0,
    }
}

/// Adds the units of an escape behind its `\`.
#[tactic(auto, unfolding(crate::specs::Values::escape_units))]
fn push_escape(units: &mut Vec<u16>, rest: &[char]) -> Result<(), AllocError>
    ensures ok { OnOk result (units.new.items ≡ units.old.items ++ escape_units rest.now) }
{
    if rest.is_empty() {
        return Ok(());
    }
    let c = rest[0];
    match c {
        'x' => push_code_point(units, code_point(at_most(2, after(1, rest)))),
        'u' => push_code_point(units, unicode_value(rest)),
        _ => {
            if is_line_terminator(c) {
                Ok(())
            } else {
                push_code_point(units, single_escape(c) as u32)
            }
        }
    }
}

/// The code point of `u` and four digits, or digits in braces.
fn unicode_value(rest: &[char]) -> u32
    ensures value { result ≡ unicode_value rest.now }
    ensures small { result < 0x11_0000 }
{
    if peek(rest, 1) == '{' {
        let digits = after(2, rest);
        code_point(at_most(digit_run(16, digits), digits))
    } else {
        code_point(at_most(4, after(1, rest)))
    }
}

/// The value of hexadecimal digits, which is at most 10FFFF in an escape.
fn code_point(digits: &[char]) -> u32
    ensures value { result ≡ code_point digits.now }
    ensures small { result < 0x11_0000 }
{
    match value_of(16, digits) {
        Some(value) => value.min(0x10_FFFF) as u32,
        None => 0x10_FFFF,
    }
}

/// What a character stands for behind a `\`.
fn single_escape(c: char) -> char
    ensures { result ≡ single_escape c }
{
    match c {
        'b' => '\u{8}',
        't' => '\t',
        'n' => '\n',
        'v' => '\u{B}',
        'f' => '\u{C}',
        'r' => '\r',
        '0' => '\0',
        _ => c,
    }
}
