//! Punctuators (ECMA-262, 5.1 edition, 7.7), the longest match.

ghost use Rattle.std.specs.Prelude.{◌≡◌, ◌<◌, length, drop};
ghost use Rattle.es5_tokens.specs.Punctuators.{single, extended, with_equals, taken, grown, punctuator_element};

use crate::shape::Element;
use crate::token::{Punctuator, TokenFault, TokenKind};

/// The punctuator that one character spells.
fn single(c: char) -> Option<Punctuator>
    ensures { result ≡ single c }
{
    match c {
        '{' => Some(Punctuator::LeftBrace),
        '}' => Some(Punctuator::RightBrace),
        '(' => Some(Punctuator::LeftParenthesis),
        ')' => Some(Punctuator::RightParenthesis),
        '[' => Some(Punctuator::LeftBracket),
        ']' => Some(Punctuator::RightBracket),
        '.' => Some(Punctuator::Dot),
        ';' => Some(Punctuator::Semicolon),
        ',' => Some(Punctuator::Comma),
        '<' => Some(Punctuator::LessThan),
        '>' => Some(Punctuator::GreaterThan),
        '=' => Some(Punctuator::Assign),
        '+' => Some(Punctuator::Plus),
        '-' => Some(Punctuator::Minus),
        '*' => Some(Punctuator::Star),
        '/' => Some(Punctuator::Slash),
        '%' => Some(Punctuator::Percent),
        '&' => Some(Punctuator::Ampersand),
        '|' => Some(Punctuator::Bar),
        '^' => Some(Punctuator::Caret),
        '!' => Some(Punctuator::Exclamation),
        '~' => Some(Punctuator::Tilde),
        '?' => Some(Punctuator::Question),
        ':' => Some(Punctuator::Colon),
        _ => None,
    }
}

/// The punctuator that a punctuator and one more character spell.
fn extended(punctuator: Punctuator, c: char) -> Option<Punctuator>
    ensures { result ≡ extended punctuator c }
{
    match punctuator {
        Punctuator::LessThan => match c {
            '=' => Some(Punctuator::LessOrEqual),
            '<' => Some(Punctuator::ShiftLeft),
            _ => None,
        },
        Punctuator::GreaterThan => match c {
            '=' => Some(Punctuator::GreaterOrEqual),
            '>' => Some(Punctuator::ShiftRight),
            _ => None,
        },
        Punctuator::Plus => match c {
            '+' => Some(Punctuator::PlusPlus),
            '=' => Some(Punctuator::PlusAssign),
            _ => None,
        },
        Punctuator::Minus => match c {
            '-' => Some(Punctuator::MinusMinus),
            '=' => Some(Punctuator::MinusAssign),
            _ => None,
        },
        Punctuator::Ampersand => match c {
            '&' => Some(Punctuator::AmpersandAmpersand),
            '=' => Some(Punctuator::AmpersandAssign),
            _ => None,
        },
        Punctuator::Bar => match c {
            '|' => Some(Punctuator::BarBar),
            '=' => Some(Punctuator::BarAssign),
            _ => None,
        },
        Punctuator::ShiftRight => match c {
            '>' => Some(Punctuator::ShiftRightUnsigned),
            '=' => Some(Punctuator::ShiftRightAssign),
            _ => None,
        },
        Punctuator::Assign
        | Punctuator::Star
        | Punctuator::Slash
        | Punctuator::Percent
        | Punctuator::Caret
        | Punctuator::Exclamation
        | Punctuator::Equals
        | Punctuator::NotEquals
        | Punctuator::ShiftLeft
        | Punctuator::ShiftRightUnsigned => {
            if c == '=' {
                with_equals(punctuator)
            } else {
                None
            }
        }
        _ => None,
    }
}

/// The punctuator that one of these and `=` spell.
fn with_equals(punctuator: Punctuator) -> Option<Punctuator>
    ensures { result ≡ with_equals punctuator }
{
    match punctuator {
        Punctuator::Assign => Some(Punctuator::Equals),
        Punctuator::Star => Some(Punctuator::StarAssign),
        Punctuator::Slash => Some(Punctuator::SlashAssign),
        Punctuator::Percent => Some(Punctuator::PercentAssign),
        Punctuator::Caret => Some(Punctuator::CaretAssign),
        Punctuator::Exclamation => Some(Punctuator::NotEquals),
        Punctuator::Equals => Some(Punctuator::StrictEquals),
        Punctuator::NotEquals => Some(Punctuator::StrictNotEquals),
        Punctuator::ShiftLeft => Some(Punctuator::ShiftLeftAssign),
        Punctuator::ShiftRightUnsigned => Some(Punctuator::ShiftRightUnsignedAssign),
        _ => None,
    }
}

fn taken(punctuator: Punctuator, length: usize) -> Element
    ensures { result ≡ taken punctuator length }
{
    Element::Take {
        kind: TokenKind::Punctuator(punctuator),
        length,
    }
}

/// The longest punctuator that begins with one of one character.
fn longest(first: Punctuator, rest: &[char]) -> Element
    requires { 0 < length rest.now }
    ensures { result ≡ grown first 1 (drop 1 rest.now) }
{
    let mut punctuator = first;
    let mut length = 1;
    for c in &rest[1..] {
        match extended(punctuator, *c) {
            Some(longer) => {
                punctuator = longer;
                length += 1;
            }
            None => return taken(punctuator, length),
        }
    }
    taken(punctuator, length)
}

/// The punctuator at the front, or the fault that none begins with its character.
pub fn punctuator_element(rest: &[char]) -> Element
    requires { 0 < length rest.now }
    ensures { result ≡ punctuator_element rest.now }
{
    match single(rest[0]) {
        Some(first) => longest(first, rest),
        None => Element::Stop {
            fault: TokenFault::Lexical,
            at: 0,
        },
    }
}
