//! String literals (ECMA-262, 5.1 edition, 7.8.4) and comments (7.4).

ghost use Rattle.std.specs.Prelude.{◌≡◌, ◌++◌, ◌<◌, ◌≤◌, length, IfOk, OnOk};
ghost use Rattle.es5_ast.specs.Lexical.{units_of};
ghost use Rattle.es5_tokens.specs.declared.shape.Element.TheVariants.{Stop};
ghost use Rattle.es5_tokens.specs.declared.token.TokenFault.TheVariants.{Lexical};
ghost use Rattle.es5_tokens.specs.Quoted.{escape, digit_escape, hexadecimal_escape, unicode_escape, plain_escape, escaped, text_element, block_comment, IsWithin};

use crate::classes::{digit_value, is_line_terminator, peek};
use crate::shape::{Element, Escape};
use crate::token::{TokenFault, TokenKind};
use shared_text::Units;
use std::alloc::{AllocError, Global};

/// Reads an escape or a line continuation behind its `\`.
#[tactic(auto, unfolding(crate::specs::Quoted::escape))]
fn escape(rest: &[char]) -> Escape
    ensures value { result ≡ escape rest.now }
    ensures within { IsWithin (length rest.now) result }
{
    if rest.is_empty() {
        return Escape::Cut;
    }
    let c = rest[0];
    if c.is_ascii_digit() {
        return digit_escape(rest);
    }
    match c {
        'x' => hexadecimal_escape(rest),
        'u' => unicode_escape(rest),
        _ => plain_escape(rest),
    }
}

/// An escape that is neither of these: a line continuation, where CR LF is one line terminator, or one character.
#[tactic(auto, unfolding(crate::specs::Quoted::plain_escape))]
fn plain_escape(rest: &[char]) -> Escape
    requires { 1 ≤ length rest.now }
    ensures value { result ≡ plain_escape rest.now }
    ensures within { IsWithin (length rest.now) result }
{
    let c = rest[0];
    if (c == '\r') & (peek(rest, 1) == '\n') {
        Escape::Continues { length: 2 }
    } else if is_line_terminator(c) {
        Escape::Continues { length: 1 }
    } else {
        Escape::Stands {
            code: escaped(c) as u32,
            length: 1,
        }
    }
}

/// `0` that no digit follows.
#[tactic(auto, unfolding(crate::specs::Quoted::digit_escape))]
fn digit_escape(rest: &[char]) -> Escape
    requires { 1 ≤ length rest.now }
    ensures value { result ≡ digit_escape rest.now }
    ensures within { IsWithin (length rest.now) result }
{
    if (peek(rest, 0) == '0') & !peek(rest, 1).is_ascii_digit() {
        Escape::Stands { code: 0, length: 1 }
    } else {
        Escape::Wrong
    }
}

/// `x` and two digits.
#[tactic(auto, unfolding(crate::specs::Quoted::hexadecimal_escape))]
fn hexadecimal_escape(rest: &[char]) -> Escape
    requires { 1 ≤ length rest.now }
    ensures value { result ≡ hexadecimal_escape rest.now }
    ensures within { IsWithin (length rest.now) result }
{
    let a = peek(rest, 1);
    let b = peek(rest, 2);
    if a.is_ascii_hexdigit() & b.is_ascii_hexdigit() {
        Escape::Stands {
            code: 16 * digit_value(a) + digit_value(b),
            length: 3,
        }
    } else {
        Escape::Wrong
    }
}

/// `u` and four digits.
#[tactic(auto, unfolding(crate::specs::Quoted::unicode_escape))]
fn unicode_escape(rest: &[char]) -> Escape
    requires { 1 ≤ length rest.now }
    ensures value { result ≡ unicode_escape rest.now }
    ensures within { IsWithin (length rest.now) result }
{
    let a = peek(rest, 1);
    let b = peek(rest, 2);
    let c = peek(rest, 3);
    let d = peek(rest, 4);
    let front = a.is_ascii_hexdigit() & b.is_ascii_hexdigit();
    if front & c.is_ascii_hexdigit() & d.is_ascii_hexdigit() {
        let high = 16 * digit_value(a) + digit_value(b);
        Escape::Stands {
            code: 16 * (16 * high + digit_value(c)) + digit_value(d),
            length: 5,
        }
    } else {
        Escape::Wrong
    }
}

/// What a character stands for behind a `\`.
fn escaped(c: char) -> char
    ensures { result ≡ escaped c }
{
    match c {
        'b' => '\u{8}',
        't' => '\t',
        'n' => '\n',
        'v' => '\u{B}',
        'f' => '\u{C}',
        'r' => '\r',
        _ => c,
    }
}

/// Adds the one or two units of a code point (6).
fn push_units(units: &mut Vec<u16>, code: u32) -> Result<(), AllocError>
    requires { code < 0x11_0000 }
    ensures { OnOk result (units.new.items ≡ units.old.items ++ units_of code) }
{
    if code <= 0xFFFF {
        units.push(code as u16)?;
    } else {
        let over = code - 0x1_0000;
        units.push((0xD800 + over / 0x400) as u16)?;
        units.push((0xDC00 + over % 0x400) as u16)?;
    }
    Ok(())
}

fn fault(at: usize) -> Element
    ensures { result ≡ Stop Lexical at }
{
    Element::Stop {
        fault: TokenFault::Lexical,
        at,
    }
}

/// The string literal at the front, which begins with a quote. A fault stands at the quote where no quote ends it, and at
/// the `\` of what is no escape.
pub fn text_element(alloc: Global, rest: &[char]) -> Result<Element, AllocError>
    requires { 0 < length rest.now }
    ensures { IfOk result (λ e. e ≡ text_element rest.now) }
{
    let quote = rest[0];
    let mut units = Vec::new(alloc);
    let mut at = 1;
    while at < rest.len() {
        let c = rest[at];
        if c == quote {
            return Ok(Element::Take {
                kind: TokenKind::Text(Units::of_units(units)),
                length: at + 1,
            });
        }
        if c == '\\' {
            match escape(&rest[at + 1..]) {
                Escape::Cut => return Ok(fault(0)),
                Escape::Wrong => return Ok(fault(at)),
                Escape::Stands { code, length } => {
                    push_units(&mut units, code)?;
                    at += 1 + length;
                }
                Escape::Continues { length } => at += 1 + length,
            }
        } else if is_line_terminator(c) {
            return Ok(fault(0));
        } else {
            push_units(&mut units, c as u32)?;
            at += 1;
        }
    }
    Ok(fault(0))
}

/// The comment at the front, which begins with `/*`. A fault stands there where no `*/` ends it.
pub fn block_comment(rest: &[char]) -> Element
    requires { 2 ≤ length rest.now }
    ensures { result ≡ block_comment rest.now }
{
    let mut line = false;
    let mut at = 2;
    while at < rest.len() {
        let c = rest[at];
        if (c == '*') & (peek(rest, at + 1) == '/') {
            return Element::Skip {
                length: at + 2,
                line,
            };
        }
        line = line | is_line_terminator(c);
        at += 1;
    }
    fault(0)
}
