//! String literals (11.8.4), the stretches of templates (11.8.6), and the escapes of both.

ghost use Rattle.std.specs.Prelude.{◌≡◌, ◌<◌, ◌≤◌, length, drop};
ghost use Rattle.es6_lexer.specs.declared.shape.Element.TheVariants.{Take, Stop};
ghost use Rattle.es6_lexer.specs.declared.shape.Shape.TheVariants.{OfTemplate};
ghost use Rattle.es6_lexer.specs.Quoted.{escape, digit_escape, hexadecimal_escape, unicode_escape, braced_escape, is_code_point, line_continuation, text_element, template_element, block_comment, IsWithin};

use crate::classes::{digit_run, is_decimal_digit, is_digit_of, is_line_terminator, peek};
use crate::number::value_of;
use crate::shape::{Element, EscapeEnd, Shape};
use crate::token::LexicalKind;

/// Reads an escape or a line continuation behind its `\`.
#[tactic(auto, unfolding(crate::specs::Quoted::escape))]
pub fn escape(rest: &[char]) -> EscapeEnd
    ensures value { result ≡ escape rest.now }
    ensures within { IsWithin (length rest.now) result }
{
    if rest.is_empty() {
        return EscapeEnd::Cut;
    }
    let c = rest[0];
    if is_decimal_digit(c) {
        return digit_escape(rest);
    }
    match c {
        'x' => hexadecimal_escape(rest),
        'u' => unicode_escape(rest),
        '\r' => line_continuation(rest),
        _ => EscapeEnd::Spelled(1),
    }
}

/// `0` that no digit follows.
fn digit_escape(rest: &[char]) -> EscapeEnd
    requires { 0 < length rest.now }
    ensures value { result ≡ digit_escape rest.now }
    ensures within { IsWithin (length rest.now) result }
{
    if (peek(rest, 0) == '0') & !is_decimal_digit(peek(rest, 1)) {
        EscapeEnd::Spelled(1)
    } else {
        EscapeEnd::Wrong(LexicalKind::LegacyOctal)
    }
}

/// `x` and two digits.
fn hexadecimal_escape(rest: &[char]) -> EscapeEnd
    ensures value { result ≡ hexadecimal_escape rest.now }
    ensures within { IsWithin (length rest.now) result }
{
    if is_digit_of(16, peek(rest, 1)) & is_digit_of(16, peek(rest, 2)) {
        EscapeEnd::Spelled(3)
    } else {
        EscapeEnd::Wrong(LexicalKind::BadEscape)
    }
}

/// `u` and four digits, or digits in braces.
fn unicode_escape(rest: &[char]) -> EscapeEnd
    requires { 0 < length rest.now }
    ensures value { result ≡ unicode_escape rest.now }
    ensures within { IsWithin (length rest.now) result }
{
    if peek(rest, 1) == '{' {
        return braced_escape(rest);
    }
    let front = is_digit_of(16, peek(rest, 1)) & is_digit_of(16, peek(rest, 2));
    if front & is_digit_of(16, peek(rest, 3)) & is_digit_of(16, peek(rest, 4)) {
        EscapeEnd::Spelled(5)
    } else {
        EscapeEnd::Wrong(LexicalKind::BadEscape)
    }
}

/// `u`, and digits of a code point in braces.
#[tactic(auto, unfolding(crate::specs::Quoted::braced_escape))]
fn braced_escape(rest: &[char]) -> EscapeEnd
    requires { 1 < length rest.now }
    ensures value { result ≡ braced_escape rest.now }
    ensures within { IsWithin (length rest.now) result }
{
    let digits = digit_run(16, &rest[2..]);
    if (0 < digits) & is_code_point(&rest[2..2 + digits]) & (peek(rest, 2 + digits) == '}') {
        EscapeEnd::Spelled(digits + 3)
    } else {
        EscapeEnd::Wrong(LexicalKind::BadEscape)
    }
}

/// Whether hexadecimal digits have a value of at most 10FFFF.
fn is_code_point(digits: &[char]) -> bool
    ensures { result ≡ is_code_point digits.now }
{
    match value_of(16, digits) {
        Some(value) => value <= 0x10_FFFF,
        None => false,
    }
}

/// CR LF is one line terminator.
fn line_continuation(rest: &[char]) -> EscapeEnd
    requires { 0 < length rest.now }
    ensures value { result ≡ line_continuation rest.now }
    ensures within { IsWithin (length rest.now) result }
{
    if peek(rest, 1) == '\n' {
        EscapeEnd::Spelled(2)
    } else {
        EscapeEnd::Spelled(1)
    }
}

fn fault(kind: LexicalKind, at: usize) -> Element
    ensures { result ≡ Stop kind at }
{
    Element::Stop { kind, at }
}

/// The string literal at the front, which begins with a quote.
pub fn text_element(rest: &[char]) -> Element
    requires { 0 < length rest.now }
    ensures { result ≡ text_element rest.now }
{
    let quote = rest[0];
    let mut at = 1;
    while at < rest.len() {
        let c = rest[at];
        if c == quote {
            return Element::Take {
                shape: Shape::OfText,
                length: at + 1,
            };
        }
        if c == '\\' {
            match escape(&rest[at + 1..]) {
                EscapeEnd::Cut => return fault(LexicalKind::OpenString, 0),
                EscapeEnd::Wrong(kind) => return fault(kind, at),
                EscapeEnd::Spelled(length) => at += 1 + length,
            }
        } else if is_line_terminator(c) {
            return fault(LexicalKind::OpenString, 0);
        } else {
            at += 1;
        }
    }
    fault(LexicalKind::OpenString, 0)
}

/// The stretch of a template at the front, which begins with `` ` `` or `}`.
pub fn template_element(rest: &[char]) -> Element
    requires { 0 < length rest.now }
    ensures { result ≡ template_element rest.now }
{
    let mut at = 1;
    while at < rest.len() {
        let c = rest[at];
        if c == '`' {
            return template(true, at + 1);
        }
        if c == '\\' {
            match escape(&rest[at + 1..]) {
                EscapeEnd::Cut => return fault(LexicalKind::OpenTemplate, 0),
                EscapeEnd::Wrong(kind) => return fault(kind, at),
                EscapeEnd::Spelled(length) => at += 1 + length,
            }
        } else if (c == '$') & (peek(rest, at + 1) == '{') {
            return template(false, at + 2);
        } else {
            at += 1;
        }
    }
    fault(LexicalKind::OpenTemplate, 0)
}

fn template(last: bool, length: usize) -> Element
    ensures { result ≡ Take (OfTemplate last) length }
{
    Element::Take {
        shape: Shape::OfTemplate { last },
        length,
    }
}

/// The comment at the front, which begins with `/*`.
pub fn block_comment(rest: &[char]) -> Element
    requires { 2 ≤ length rest.now }
    ensures { result ≡ block_comment rest.now }
{
    let mut newline = false;
    let mut at = 2;
    while at < rest.len() {
        let c = rest[at];
        if (c == '*') & (peek(rest, at + 1) == '/') {
            return Element::Skip {
                length: at + 2,
                newline,
            };
        }
        newline = newline | is_line_terminator(c);
        at += 1;
    }
    fault(LexicalKind::OpenComment, 0)
}
