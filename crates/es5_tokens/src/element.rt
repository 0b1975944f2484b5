//! What stands at the front of a text (ECMA-262, 5.1 edition, 7).

ghost use Rattle.std.specs.Prelude.{◌≡◌, ◌≤◌, true, length, take, IfOk};
ghost use Rattle.std.specs.List.{list_all};
ghost use Rattle.es5_ast.specs.Lexical.{is_identifier_part};
ghost use Rattle.es5_tokens.specs.declared.shape.Element.TheVariants.{Skip};
ghost use Rattle.es5_tokens.specs.Elements.{word_element, slash_element, marked_element, element, IsInside};

use crate::classes::{
    identifier_run, is_identifier_start, is_line_terminator, is_quote, is_white_space, line_run,
    peek,
};
use crate::number::number_element;
use crate::punctuator::punctuator_element;
use crate::quoted::{block_comment, text_element};
use crate::shape::Element;
use crate::token::TokenKind;
use shared_text::Name;
use std::alloc::{AllocError, Global};

/// Reads what stands at the front of a text.
pub fn element(alloc: Global, rest: &[char]) -> Result<Element, AllocError>
    ensures value { IfOk result (λ e. e ≡ element rest.now) }
    ensures within { IfOk result (λ e. IsInside (length rest.now) e) }
{
    if rest.is_empty() {
        return Ok(Element::Finished);
    }
    element_by_character(alloc, rest)
}

/// The same, by the first character.
#[tactic(auto, unfolding(crate::specs::Elements::element))]
fn element_by_character(alloc: Global, rest: &[char]) -> Result<Element, AllocError>
    requires { 1 ≤ length rest.now }
    ensures { IfOk result (λ e. e ≡ element rest.now) }
{
    let c = rest[0];
    if is_identifier_start(c) {
        word_element(alloc, rest)
    } else if is_white_space(c) {
        Ok(skipped(1, false))
    } else if is_line_terminator(c) {
        Ok(skipped(1, true))
    } else if c.is_ascii_digit() {
        Ok(number_element(rest))
    } else if is_quote(c) {
        text_element(alloc, rest)
    } else {
        Ok(marked_element(rest))
    }
}

/// The same at a character that is none of these.
#[tactic(auto, unfolding(crate::specs::Elements::marked_element))]
fn marked_element(rest: &[char]) -> Element
    requires { 1 ≤ length rest.now }
    ensures { result ≡ marked_element rest.now }
{
    let c = rest[0];
    if c == '/' {
        slash_element(rest)
    } else if (c == '.') & peek(rest, 1).is_ascii_digit() {
        number_element(rest)
    } else {
        punctuator_element(rest)
    }
}

fn skipped(length: usize, line: bool) -> Element
    ensures { result ≡ Skip length line }
{
    Element::Skip { length, line }
}

/// The identifier or reserved word at the front.
fn word_element(alloc: Global, rest: &[char]) -> Result<Element, AllocError>
    requires { 1 ≤ length rest.now }
    ensures { IfOk result (λ e. e ≡ word_element rest.now) }
{
    let length = identifier_run(rest);
    Ok(Element::Take {
        kind: TokenKind::Word(name_of(alloc, &rest[..length])?),
        length,
    })
}

/// The name that parts of an identifier spell.
fn name_of(alloc: Global, parts: &[char]) -> Result<Name, AllocError>
    requires { list_all is_identifier_part parts.now ≡ true }
    ensures { IfOk result (λ name. name ≡ parts.now) }
{
    let mut bytes = Vec::with_capacity(alloc, parts.len())?;
    for c in parts {
        bytes.push(*c as u8)?;
    }
    Name::of_bytes(alloc, &bytes)
}

/// The comment at the front, or the punctuator that begins with `/`.
fn slash_element(rest: &[char]) -> Element
    requires { 1 ≤ length rest.now }
    ensures { result ≡ slash_element rest.now }
{
    if peek(rest, 1) == '/' {
        skipped(1 + line_run(&rest[1..]), false)
    } else if peek(rest, 1) == '*' {
        block_comment(rest)
    } else {
        punctuator_element(rest)
    }
}
