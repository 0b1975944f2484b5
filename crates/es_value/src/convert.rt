//! ToNumber and ToString of primitive values.
ghost use Rattle.std.specs.Prelude.{◌≡◌, ◌&&◌, false, true, IfOk, IsTrue, min, MatchOption, pos, neg_ℤ, string_bytes};
ghost use Rattle.std.specs.List.{list_all};
ghost use Rattle.std.specs.Fmt.{signed_decimal};
ghost use Rattle.std.specs.Prelude.{if◌then◌else◌};
ghost use Rattle.es_value.specs.Convert.{signed_digits, is_white, is_space_separator, skip_white, skip_white_back, trim, is_digit, digits_value, number_of_trimmed, number_of, text_of};
ghost use Rattle.unicode.specs.GeneralCategory.{general_category};
ghost use Rattle.es_value.specs.Arithmetic.{whole};

use crate::arithmetic::{Exit, whole};
use crate::text::Str;
use crate::value::Value;
use std::alloc::{AllocError, Global};
use unicode::properties::GeneralCategory;

/// A number above each safe one; what digits spell is counted no further.
const TOO_LARGE: u64 = 9007199254740992;

/// Whether the unit is white space or a line terminator (11.2 and 11.3).
fn is_white(unit: u16) -> bool
    ensures { result ≡ is_white unit }
{
    match unit {
        9..=13 | 0x2028 | 0x2029 | 0xFEFF => true,
        _ => match char::from_u32(u32::from(unit)) {
            Some(character) => is_space_separator(character),
            None => false,
        },
    }
}

fn is_space_separator(character: char) -> bool
    ensures { result ≡ is_space_separator (general_category character) }
{
    matches!(
        GeneralCategory::for_char(character),
        GeneralCategory::SpaceSeparator
    )
}

/// The units from the first one on that isn't white.
fn skip_white(units: &[u16]) -> &[u16]
    ensures { result.now ≡ skip_white units.now }
{
    let mut rest = units;
    while let Some((first, others)) = rest.split_first() {
        if !is_white(*first) {
            break;
        }
        rest = others;
    }
    rest
}

/// The units up to the last one that isn't white.
fn skip_white_back(units: &[u16]) -> &[u16]
    ensures { result.now ≡ skip_white_back units.now }
{
    let mut front = units;
    while let Some((last, others)) = front.split_last() {
        if !is_white(*last) {
            break;
        }
        front = others;
    }
    front
}

/// The number that decimal digits spell, or `TOO_LARGE` from there on; None where a unit is no digit.
fn digits_value(units: &[u16]) -> Option<u64>
    ensures { MatchOption result (list_all is_digit units.now ≡ false) (λ n. (list_all is_digit units.now ≡ true) × (n ≡ min (digits_value units.now) TOO_LARGE)) }
{
    let mut value = 0u64;
    for unit in units {
        if *unit < 48 || *unit > 57 {
            return None;
        }
        value = (value * 10 + u64::from(*unit - 48)).min(TOO_LARGE);
    }
    Some(value)
}

/// ToNumber of a text without white space round it (7.1.3.1).
fn number_of_trimmed(units: &[u16]) -> Result<i64, Exit>
    ensures { result ≡ number_of_trimmed units.now }
{
    match units.split_first() {
        None => Ok(0),
        Some((43, digits)) => signed_digits(digits, false),
        Some((45, digits)) => signed_digits(digits, true),
        Some(_) => signed_digits(units, false),
    }
}

fn signed_digits(units: &[u16], negative: bool) -> Result<i64, Exit>
    ensures { result ≡ signed_digits (if negative then (λ n. neg_ℤ (pos n)) else pos) units.now }
{
    if units.is_empty() {
        return Err(Exit::X2);
    }
    match digits_value(units) {
        None => Err(Exit::X2),
        Some(value) => {
            let number = value as i64;
            whole(if negative { -number } else { number })
        }
    }
}

/// ToNumber of a primitive (7.1.3): X1 for undefined and for digits beyond the safe numbers, X2 for a text that, cut of white
/// space and line terminators at both ends, is neither empty nor an optional sign with decimal digits. An object is to be
/// converted to a primitive first; one that isn't gives X1.
pub fn to_number(value: &Value) -> Result<i64, Exit>
    ensures { result ≡ number_of value.now }
{
    match value {
        Value::Undefined | Value::Object(_) => Err(Exit::X1),
        Value::Null | Value::Bool(false) => Ok(0),
        Value::Bool(true) => Ok(1),
        Value::Number(number) => Ok(*number),
        Value::Text(text) => number_of_trimmed(skip_white_back(skip_white(text.units()))),
    }
}

/// ToString of a primitive (7.1.12). An object is to be converted to a primitive first; one that isn't gives the empty text.
pub fn to_text(alloc: Global, value: &Value) -> Result<Str, AllocError>
    ensures { IfOk result (λ text. text ≡ text_of value.now) }
{
    match value {
        Value::Undefined => Str::of_bytes(alloc, b"undefined"),
        Value::Null => Str::of_bytes(alloc, b"null"),
        Value::Bool(true) => Str::of_bytes(alloc, b"true"),
        Value::Bool(false) => Str::of_bytes(alloc, b"false"),
        Value::Number(number) => Str::of_bytes(alloc, format!(in alloc; "{number}")?.as_bytes()),
        Value::Text(text) => text.share(),
        Value::Object(_) => Str::of(alloc, &[]),
    }
}
