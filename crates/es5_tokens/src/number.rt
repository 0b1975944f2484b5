//! Numeric literals (ECMA-262, 5.1 edition, 7.8.3), without legacy octals.

ghost use Rattle.std.specs.Prelude.{◌≡◌, ◌<◌, ◌≤◌, length, MatchOption};
ghost use Rattle.es5_tokens.specs.declared.shape.Element.TheVariants.{Stop};
ghost use Rattle.es5_tokens.specs.Numbers.{digits_value, ended, has_prefix, hexadecimal, fraction_length, exponent_length, decimal, number_element};

use crate::classes::{digit_run, digit_value, hexadecimal_run, part_follows, peek};
use crate::shape::Element;
use crate::token::{TokenFault, TokenKind};

/// The greatest whole number of the profile.
const GREATEST: u64 = 9007199254740991;

/// The value of digits of a radix of at most 16, or `None` above 9007199254740991.
fn value_of(radix: u32, digits: &[char]) -> Option<u64>
    requires least { 1 ≤ radix }
    requires most { radix ≤ 16 }
    ensures { MatchOption result (9007199254740991 < digits_value radix digits.now) (λ v. (v ≡ digits_value radix digits.now) × (v ≤ 9007199254740991)) }
{
    let mut value: u64 = 0;
    for c in digits {
        value = radix as u64 * value + digit_value(*c) as u64;
        if value > GREATEST {
            return None;
        }
    }
    Some(value)
}

/// A number that ends behind so many characters, the last of which are these digits, unless what follows belongs to it.
fn ended(rest: &[char], count: usize, radix: u32, digits: &[char]) -> Element
    requires inside { count ≤ length rest.now }
    requires least { 1 ≤ radix }
    requires most { radix ≤ 16 }
    ensures { result ≡ ended rest.now count (digits_value radix digits.now) }
{
    if part_follows(rest, count) {
        return fault(TokenFault::Lexical);
    }
    match value_of(radix, digits) {
        Some(value) => Element::Take {
            kind: TokenKind::Integer(value),
            length: count,
        },
        None => fault(TokenFault::Number),
    }
}

fn fault(fault: TokenFault) -> Element
    ensures { result ≡ Stop fault 0 }
{
    Element::Stop { fault, at: 0 }
}

/// Whether the prefix of a hexadecimal number stands in front.
fn has_prefix(rest: &[char]) -> bool
    ensures { result ≡ has_prefix rest.now }
{
    (peek(rest, 0) == '0') & ((peek(rest, 1) == 'x') | (peek(rest, 1) == 'X'))
}

/// A number with a prefix of two characters.
#[tactic(auto, unfolding(crate::specs::Numbers::hexadecimal))]
fn hexadecimal(rest: &[char]) -> Element
    requires { 2 ≤ length rest.now }
    ensures { result ≡ hexadecimal rest.now }
{
    let digits = hexadecimal_run(&rest[2..]);
    if digits == 0 {
        return fault(TokenFault::Lexical);
    }
    ended(rest, 2 + digits, 16, &rest[2..2 + digits])
}

/// How many characters a point and the digits behind it have.
fn fraction_length(rest: &[char]) -> usize
    ensures value { result ≡ fraction_length rest.now }
    ensures within { result ≤ length rest.now }
{
    if peek(rest, 0) == '.' {
        1 + digit_run(&rest[1..])
    } else {
        0
    }
}

/// How many characters an exponent has.
#[tactic(auto, unfolding(crate::specs::Numbers::exponent_length))]
fn exponent_length(rest: &[char]) -> usize
    ensures value { result ≡ exponent_length rest.now }
    ensures within { result ≤ length rest.now }
{
    if (peek(rest, 0) != 'e') & (peek(rest, 0) != 'E') {
        return 0;
    }
    let digits = if (peek(rest, 1) == '+') | (peek(rest, 1) == '-') {
        2
    } else {
        1
    };
    if peek(rest, digits).is_ascii_digit() {
        digits + digit_run(&rest[digits..])
    } else {
        0
    }
}

/// A decimal number.
#[tactic(auto, unfolding(crate::specs::Numbers::decimal))]
fn decimal(rest: &[char]) -> Element
    ensures { result ≡ decimal rest.now }
{
    let digits = digit_run(rest);
    if (peek(rest, 0) == '0') & (1 < digits) {
        return fault(TokenFault::Lexical);
    }
    let point = digits + fraction_length(&rest[digits..]);
    let end = point + exponent_length(&rest[point..]);
    if end == digits {
        return ended(rest, digits, 10, &rest[..digits]);
    }
    if part_follows(rest, end) {
        fault(TokenFault::Lexical)
    } else {
        fault(TokenFault::Number)
    }
}

/// The number at the front, which begins with a digit, or with a point and a digit.
pub fn number_element(rest: &[char]) -> Element
    ensures { result ≡ number_element rest.now }
{
    if has_prefix(rest) {
        hexadecimal(rest)
    } else {
        decimal(rest)
    }
}
