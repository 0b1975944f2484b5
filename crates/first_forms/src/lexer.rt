//! Bytes to tokens, in one pass (ECMA-262, 6th edition, 11).
ghost use Rattle.std.specs.Prelude.{◌≡◌, ◌+◌, ◌^◌, ◌<◌, ◌≤◌, min, length, drop, slice_index, IfOk};
ghost use Rattle.std.specs.List.{prefix_len, take_while};
ghost use Rattle.std.specs.Char.{is_ascii_digit};
ghost use Rattle.first_forms.specs.Names.{is_name_start, is_name_part};
ghost use Rattle.first_forms.specs.WellFormed.{is_text_unit, max_integer};
ghost use Rattle.first_forms.specs.Modules.{IsClosed};
ghost use Rattle.first_forms.specs.Lexing.{is_gap, decimal, name_at, integer_of, text_at, punctuator, element_at, tokens_of};

use crate::token::{Token, TokenKind};
use shared_text::{Name, Units};
use sqlite_items::Items;
use std::alloc::{AllocError, Global};

/// The greatest safe integer, 2^53 - 1.
pub const MAX_INTEGER: u64 = 9007199254740991;

/// What begins with a byte that no token before it has.
#[derive(Drop)]
enum Element {
    /// A space or a line feed.
    Gap,
    /// A token, and of how many bytes it is.
    Token(TokenKind, usize),
    /// No token.
    Bad,
}

/// All tokens of a text, up to the end or to the first byte that begins none.
pub fn tokens(alloc: Global, bytes: &[u8]) -> Result<Items<Token>, AllocError>
    requires { length bytes.now < 2 ^ 32 }
    ensures exact { IfOk result (λ ts. ts ≡ tokens_of bytes.now) }
    ensures closed { IfOk result IsClosed }
{
    let mut tokens = Items::new(alloc);
    let mut place = 0;
    while place < bytes.len() {
        let at = place as u32;
        match next_element(alloc, &bytes[place..])? {
            Element::Gap => place += 1,
            Element::Token(kind, len) => {
                tokens.push(Token { at, kind })?;
                place += len;
            }
            Element::Bad => {
                tokens.push(Token {
                    at,
                    kind: TokenKind::Bad,
                })?;
                return Ok(tokens);
            }
        }
    }
    tokens.push(Token {
        at: place as u32,
        kind: TokenKind::End,
    })?;
    Ok(tokens)
}

fn is_gap(b: u8) -> bool
    ensures { result ≡ is_gap b }
{
    b == b' ' || b == b'\n'
}

/// What begins with the first byte.
#[tactic(auto, unfolding(crate::specs::Lexing::element_at))]
fn next_element(alloc: Global, bytes: &[u8]) -> Result<Element, AllocError>
    requires { 0 < length bytes.now }
    ensures { IfOk result (λ e. e ≡ element_at bytes.now) }
{
    let first = bytes[0];
    if is_gap(first) {
        Ok(Element::Gap)
    } else if is_name_start(first) {
        name_element(alloc, bytes)
    } else if first.is_ascii_digit() {
        Ok(integer_element(&bytes[..digit_count(bytes)]))
    } else if first == b'"' {
        text_element(alloc, &bytes[1..])
    } else {
        Ok(punctuator_element(first))
    }
}

pub fn is_name_start(b: u8) -> bool
    ensures { result ≡ is_name_start b }
{
    b.is_ascii_alphabetic() || b == b'_' || b == b'$'
}

pub fn is_name_part(b: u8) -> bool
    ensures { result ≡ is_name_part b }
{
    is_name_start(b) || b.is_ascii_digit()
}

fn name_len(bytes: &[u8]) -> usize
    ensures value { result ≡ prefix_len is_name_part bytes.now }
    ensures within { result ≤ length bytes.now }
{
    bytes.iter().take_while(|b| is_name_part(**b)).count()
}

fn digit_count(bytes: &[u8]) -> usize
    ensures value { result ≡ prefix_len is_ascii_digit bytes.now }
    ensures within { result ≤ length bytes.now }
{
    bytes.iter().take_while(|b| b.is_ascii_digit()).count()
}

fn text_len(bytes: &[u8]) -> usize
    ensures value { result ≡ prefix_len is_text_unit bytes.now }
    ensures within { result ≤ length bytes.now }
{
    bytes
        .iter()
        .take_while(|b| is_text_unit(u16::from(**b)))
        .count()
}

/// Whether a text may have this unit: printable ASCII but for `"` and `\`.
pub fn is_text_unit(unit: u16) -> bool
    ensures { result ≡ is_text_unit unit }
{
    0x20 <= unit && unit <= 0x7e && unit != 34 && unit != 92
}

fn name_element(alloc: Global, bytes: &[u8]) -> Result<Element, AllocError>
    ensures { IfOk result (λ e. e ≡ name_at bytes.now) }
{
    let len = name_len(bytes);
    let name = Name::of_bytes(alloc, &bytes[..len])?;
    Ok(Element::Token(TokenKind::Name(name), len))
}

/// The value of the digits, or one more than the greatest that is allowed where it is above that.
fn decimal(digits: &[u8]) -> u64
    ensures { result ≡ min (decimal digits.now) (max_integer + 1) }
{
    let mut value = 0;
    for digit in digits {
        let next = 10 * value + u64::from(digit.saturating_sub(b'0'));
        value = next.min(MAX_INTEGER + 1);
    }
    value
}

fn integer_element(digits: &[u8]) -> Element
    ensures { result ≡ integer_of digits.now }
{
    let value = decimal(digits);
    let has_zero = digits.len() > 1 && digits[0] == b'0';
    if has_zero || value > MAX_INTEGER {
        Element::Bad
    } else {
        Element::Token(TokenKind::Integer(value), digits.len())
    }
}

/// The text behind a `"`.
fn text_element(alloc: Global, bytes: &[u8]) -> Result<Element, AllocError>
    ensures { IfOk result (λ e. e ≡ text_at bytes.now) }
{
    let len = text_len(bytes);
    if len == bytes.len() || bytes[len] != b'"' {
        return Ok(Element::Bad);
    }
    let units = bytes[..len].iter().map(|b| u16::from(*b)).collect(alloc)?;
    Ok(Element::Token(TokenKind::Text(Units::of_units(units)), len + 2))
}

fn punctuator_element(b: u8) -> Element
    ensures { result ≡ punctuator b }
{
    let kind = match b {
        b'{' => TokenKind::LeftBrace,
        b'}' => TokenKind::RightBrace,
        b'(' => TokenKind::LeftParen,
        b')' => TokenKind::RightParen,
        b',' => TokenKind::Comma,
        b';' => TokenKind::Semicolon,
        b'+' => TokenKind::Plus,
        b'=' => TokenKind::Equals,
        _ => return Element::Bad,
    };
    Element::Token(kind, 1)
}
