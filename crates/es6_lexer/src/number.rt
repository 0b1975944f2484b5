//! Numeric literals (11.8.3), without legacy octals.

ghost use Rattle.std.specs.Prelude.{◌≡◌, ◌<◌, ◌≤◌, length, MatchOption};
ghost use Rattle.es6_lexer.specs.declared.shape.Element.TheVariants.{Stop};
ghost use Rattle.es6_lexer.specs.declared.token.LexicalKind.TheVariants.{BadNumber};
ghost use Rattle.es6_lexer.specs.Numbers.{digits_value, digits_from, whole, ended, prefixed, radix_of, fraction_length, exponent_length, decimal, number_element};

use crate::classes::{digit_run, digit_value, is_decimal_digit, is_identifier_part, peek};
use crate::shape::{Element, Shape};
use crate::token::{LexicalKind, NumberToken};

/// The greatest whole number of the profile.
const GREATEST: u64 = 9007199254740991;

/// The value of digits of a radix of at most 16, or `None` above 9007199254740991.
pub fn value_of(radix: u32, digits: &[char]) -> Option<u64>
    requires least { 2 ≤ radix }
    requires most { radix ≤ 16 }
    ensures { MatchOption result (9007199254740991 < digits_value radix digits.now) (λ v. (v ≡ digits_value radix digits.now) × (v ≤ 9007199254740991)) }
{
    let mut value: u64 = 0;
    for c in digits {
        value = value * radix as u64 + digit_value(*c) as u64;
        if value > GREATEST {
            return None;
        }
    }
    Some(value)
}

/// A whole number, or that it is too large.
fn whole(radix: u32, digits: &[char]) -> NumberToken
    requires least { 2 ≤ radix }
    requires most { radix ≤ 16 }
    ensures { result ≡ whole (digits_value radix digits.now) }
{
    match value_of(radix, digits) {
        Some(value) => NumberToken::Whole(value as i64),
        None => NumberToken::TooLarge,
    }
}

/// A number that ends behind so many characters, unless what follows belongs to it.
fn ended(value: NumberToken, length: usize, rest: &[char]) -> Element
    ensures { result ≡ ended value length rest.now }
{
    if length < rest.len() && is_identifier_part(rest[length]) {
        return bad_number();
    }
    Element::Take {
        shape: Shape::OfNumber(value),
        length,
    }
}

fn bad_number() -> Element
    ensures { result ≡ Stop BadNumber 0 }
{
    Element::Stop {
        kind: LexicalKind::BadNumber,
        at: 0,
    }
}

/// The radix of the prefix at the front, or 10.
fn radix_of(rest: &[char]) -> u32
    ensures value { result ≡ radix_of rest.now }
    ensures least { 2 ≤ result }
    ensures most { result ≤ 16 }
{
    if peek(rest, 0) != '0' {
        return 10;
    }
    match peek(rest, 1) {
        'x' | 'X' => 16,
        'o' | 'O' => 8,
        'b' | 'B' => 2,
        _ => 10,
    }
}

/// A number with a prefix of two characters.
#[tactic(auto, unfolding(crate::specs::Numbers::prefixed))]
fn prefixed(radix: u32, rest: &[char]) -> Element
    requires long { 2 ≤ length rest.now }
    requires least { 2 ≤ radix }
    requires most { radix ≤ 16 }
    ensures { result ≡ prefixed radix rest.now }
{
    let digits = digit_run(radix, &rest[2..]);
    if digits == 0 {
        return bad_number();
    }
    ended(whole(radix, &rest[2..2 + digits]), 2 + digits, rest)
}

/// How many characters a point and the digits behind it have.
fn fraction_length(rest: &[char]) -> usize
    ensures value { result ≡ fraction_length rest.now }
    ensures within { result ≤ length rest.now }
{
    if peek(rest, 0) == '.' {
        1 + digit_run(10, &rest[1..])
    } else {
        0
    }
}

/// How many characters an exponent has.
#[tactic(auto, unfolding(crate::specs::Numbers::exponent_length))]
fn exponent_length(rest: &[char]) -> usize
    ensures value { result ≡ exponent_length rest.now }
    ensures within { result ≤ length rest.now }
{
    if (peek(rest, 0) != 'e') & (peek(rest, 0) != 'E') {
        return 0;
    }
    let digits = if (peek(rest, 1) == '+') | (peek(rest, 1) == '-') {
        2
    } else {
        1
    };
    if is_decimal_digit(peek(rest, digits)) {
        digits + digit_run(10, &rest[digits..])
    } else {
        0
    }
}

/// A decimal number.
#[tactic(auto, unfolding(crate::specs::Numbers::decimal))]
fn decimal(rest: &[char]) -> Element
    ensures { result ≡ decimal rest.now }
{
    let digits = digit_run(10, rest);
    if (peek(rest, 0) == '0') & (1 < digits) {
        return Element::Stop {
            kind: LexicalKind::LegacyOctal,
            at: 0,
        };
    }
    let point = digits + fraction_length(&rest[digits..]);
    let end = point + exponent_length(&rest[point..]);
    if end == digits {
        ended(whole(10, &rest[..digits]), digits, rest)
    } else {
        ended(NumberToken::Marked, end, rest)
    }
}

/// The number at the front, which begins with a digit, or with a point and a digit.
pub fn number_element(rest: &[char]) -> Element
    ensures { result ≡ number_element rest.now }
{
    let radix = radix_of(rest);
    if radix == 10 {
        decimal(rest)
    } else {
        prefixed(radix, rest)
    }
}
