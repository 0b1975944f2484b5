//! Punctuators (11.7), the longest match.

ghost use Rattle.std.specs.Prelude.{◌≡◌, ◌<◌, length, drop};
ghost use Rattle.es6_lexer.specs.Punctuators.{single, extended, with_equals, taken, grown, punctuator_element};

use crate::classes::peek;
use crate::shape::{Element, Shape};
use crate::token::{LexicalKind, Punctuator};

/// The punctuator that one character spells.
fn single(c: char) -> Option<Punctuator>
    ensures { result ≡ single c }
{
    match c {
        '{' => Some(Punctuator::LeftBrace),
        '}' => Some(Punctuator::RightBrace),
        '(' => Some(Punctuator::LeftParenthesis),
        ')' => Some(Punctuator::RightParenthesis),
        '[' => Some(Punctuator::LeftBracket),
        ']' => Some(Punctuator::RightBracket),
        '.' => Some(Punctuator::Dot),
        ';' => Some(Punctuator::Semicolon),
        ',' => Some(Punctuator::Comma),
        '<' => Some(Punctuator::LessThan),
        '>' => Some(Punctuator::GreaterThan),
        '=' => Some(Punctuator::Assign),
        '+' => Some(Punctuator::Plus),
        '-' => Some(Punctuator::Minus),
        '*' => Some(Punctuator::Star),
        '/' => Some(Punctuator::Slash),
        '%' => Some(Punctuator::Percent),
        '&' => Some(Punctuator::Ampersand),
        '|' => Some(Punctuator::Bar),
        '^' => Some(Punctuator::Caret),
        '!' => Some(Punctuator::Exclamation),
        '~' => Some(Punctuator::Tilde),
        '?' => Some(Punctuator::Question),
        ':' => Some(Punctuator::Colon),
        _ => None,
    }
}

/// The punctuator that a punctuator and one more character spell.
fn extended(punctuator: Punctuator, c: char) -> Option<Punctuator>
    ensures { result ≡ extended punctuator c }
{
    match (punctuator, c) {
        (Punctuator::LessThan, '=') => Some(Punctuator::LessOrEqual),
        (Punctuator::LessThan, '<') => Some(Punctuator::ShiftLeft),
        (Punctuator::GreaterThan, '=') => Some(Punctuator::GreaterOrEqual),
        (Punctuator::GreaterThan, '>') => Some(Punctuator::ShiftRight),
        (Punctuator::Assign, '=') => Some(Punctuator::Equals),
        (Punctuator::Assign, '>') => Some(Punctuator::Arrow),
        (Punctuator::Plus, '+') => Some(Punctuator::PlusPlus),
        (Punctuator::Plus, '=') => Some(Punctuator::PlusAssign),
        (Punctuator::Minus, '-') => Some(Punctuator::MinusMinus),
        (Punctuator::Minus, '=') => Some(Punctuator::MinusAssign),
        (Punctuator::Star, '*') => Some(Punctuator::StarStar),
        (Punctuator::Star, '=') => Some(Punctuator::StarAssign),
        (Punctuator::Ampersand, '&') => Some(Punctuator::AmpersandAmpersand),
        (Punctuator::Ampersand, '=') => Some(Punctuator::AmpersandAssign),
        (Punctuator::Bar, '|') => Some(Punctuator::BarBar),
        (Punctuator::Bar, '=') => Some(Punctuator::BarAssign),
        (Punctuator::ShiftRight, '>') => Some(Punctuator::ShiftRightUnsigned),
        (Punctuator::ShiftRight, '=') => Some(Punctuator::ShiftRightAssign),
        (_, '=') => with_equals(punctuator),
        _ => None,
    }
}

/// The punctuator that one of these and `=` spell.
fn with_equals(punctuator: Punctuator) -> Option<Punctuator>
    ensures { result ≡ with_equals punctuator }
{
    match punctuator {
        Punctuator::Slash => Some(Punctuator::SlashAssign),
        Punctuator::Percent => Some(Punctuator::PercentAssign),
        Punctuator::Caret => Some(Punctuator::CaretAssign),
        Punctuator::Exclamation => Some(Punctuator::NotEquals),
        Punctuator::Equals => Some(Punctuator::StrictEquals),
        Punctuator::NotEquals => Some(Punctuator::StrictNotEquals),
        Punctuator::StarStar => Some(Punctuator::StarStarAssign),
        Punctuator::ShiftLeft => Some(Punctuator::ShiftLeftAssign),
        Punctuator::ShiftRightUnsigned => Some(Punctuator::ShiftRightUnsignedAssign),
        _ => None,
    }
}

fn taken(punctuator: Punctuator, length: usize) -> Element
    ensures { result ≡ taken punctuator length }
{
    Element::Take {
        shape: Shape::OfPunctuator(punctuator),
        length,
    }
}

/// The longest punctuator that begins with one of one character.
fn longest(first: Punctuator, rest: &[char]) -> Element
    requires { 0 < length rest.now }
    ensures { result ≡ grown first 1 (drop 1 rest.now) }
{
    let mut punctuator = first;
    let mut length = 1;
    for c in &rest[1..] {
        match extended(punctuator, *c) {
            Some(longer) => {
                punctuator = longer;
                length += 1;
            }
            None => return taken(punctuator, length),
        }
    }
    taken(punctuator, length)
}

/// The punctuator at the front, or the fault that none begins with its character.
pub fn punctuator_element(rest: &[char]) -> Element
    requires { 0 < length rest.now }
    ensures { result ≡ punctuator_element rest.now }
{
    if (rest[0] == '.') & (peek(rest, 1) == '.') & (peek(rest, 2) == '.') {
        return taken(Punctuator::Ellipsis, 3);
    }
    match single(rest[0]) {
        Some(first) => longest(first, rest),
        None => Element::Stop {
            kind: LexicalKind::BadCharacter,
            at: 0,
        },
    }
}
