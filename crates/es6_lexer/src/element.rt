//! What stands at the front of a text (11).

ghost use Rattle.std.specs.Prelude.{◌≡◌, ◌≤◌, length};
ghost use Rattle.es6_lexer.specs.declared.shape.Element.TheVariants.{Skip};
ghost use Rattle.es6_lexer.specs.Elements.{word_element, slash_element, marked_element, element, IsInside};

use crate::classes::{
    identifier_run, is_decimal_digit, is_identifier_start, is_line_terminator, is_quote,
    is_white_space, line_run, peek,
};
use crate::number::number_element;
use crate::punctuator::punctuator_element;
use crate::quoted::{block_comment, template_element, text_element};
use crate::shape::{Element, Shape};
use crate::token::LexicalKind;

/// Reads what stands at the front of a text, where a `}` may close a `${`.
pub fn element(closes: bool, rest: &[char]) -> Element
    ensures value { result ≡ element closes rest.now }
    ensures within { IsInside (length rest.now) result }
{
    if rest.is_empty() {
        return Element::Finished;
    }
    element_by_character(closes, rest)
}

/// The same, by the first character.
#[tactic(auto, unfolding(crate::specs::Elements::element))]
fn element_by_character(closes: bool, rest: &[char]) -> Element
    requires { 1 ≤ length rest.now }
    ensures { result ≡ element closes rest.now }
{
    let c = rest[0];
    if is_identifier_start(c) {
        word_element(rest)
    } else if is_white_space(c) {
        skipped(1, false)
    } else if is_line_terminator(c) {
        skipped(1, true)
    } else if is_decimal_digit(c) {
        number_element(rest)
    } else if is_quote(c) {
        text_element(rest)
    } else {
        marked_element(closes, rest)
    }
}

/// The same at a character that is none of these.
#[tactic(auto, unfolding(crate::specs::Elements::marked_element))]
fn marked_element(closes: bool, rest: &[char]) -> Element
    requires { 1 ≤ length rest.now }
    ensures { result ≡ marked_element closes rest.now }
{
    let c = rest[0];
    if (c == '`') | (closes & (c == '}')) {
        template_element(rest)
    } else if c == '\\' {
        Element::Stop {
            kind: LexicalKind::IdentifierEscape,
            at: 0,
        }
    } else if c == '/' {
        slash_element(rest)
    } else if (c == '.') & is_decimal_digit(peek(rest, 1)) {
        number_element(rest)
    } else {
        punctuator_element(rest)
    }
}

fn skipped(length: usize, newline: bool) -> Element
    ensures { result ≡ Skip length newline }
{
    Element::Skip { length, newline }
}

/// The identifier or reserved word at the front.
fn word_element(rest: &[char]) -> Element
    requires { 1 ≤ length rest.now }
    ensures { result ≡ word_element rest.now }
{
    let length = 1 + identifier_run(&rest[1..]);
    if peek(rest, length) == '\\' {
        return Element::Stop {
            kind: LexicalKind::IdentifierEscape,
            at: length,
        };
    }
    Element::Take {
        shape: Shape::OfWord,
        length,
    }
}

/// The comment at the front, or the punctuator that begins with `/`.
fn slash_element(rest: &[char]) -> Element
    requires { 1 ≤ length rest.now }
    ensures { result ≡ slash_element rest.now }
{
    if peek(rest, 1) == '/' {
        skipped(1 + line_run(&rest[1..]), false)
    } else if peek(rest, 1) == '*' {
        block_comment(rest)
    } else {
        punctuator_element(rest)
    }
}
