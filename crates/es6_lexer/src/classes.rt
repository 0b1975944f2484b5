//! Classes of characters.

ghost use Rattle.std.specs.Prelude.{◌≡◌, ◌+◌, ◌≤◌, length, slice_index};
ghost use Rattle.es6_lexer.specs.Classes.{is_white_space, is_line_terminator, is_identifier_start, is_identifier_part, is_decimal_digit, is_quote, is_not_line_terminator, is_digit_of, digit_value, run_of};

use unicode::ident::{is_xid_continue, is_xid_start};
use unicode::properties::GeneralCategory;

/// White space (11.2): a few characters, and the category Zs.
pub fn is_white_space(c: char) -> bool
    ensures { result ≡ is_white_space c }
{
    match c {
        '\t' | '\u{B}' | '\u{C}' | ' ' | '\u{A0}' | '\u{FEFF}' => true,
        _ => matches!(
            GeneralCategory::for_char(c),
            GeneralCategory::SpaceSeparator
        ),
    }
}

/// Line terminators (11.3).
pub fn is_line_terminator(c: char) -> bool
    ensures { result ≡ is_line_terminator c }
{
    matches!(c, '\n' | '\r' | '\u{2028}' | '\u{2029}')
}

/// What an identifier begins with, by the profile.
pub fn is_identifier_start(c: char) -> bool
    ensures { result ≡ is_identifier_start c }
{
    c == '$' || c == '_' || is_xid_start(c)
}

/// What an identifier goes on with, by the profile.
pub fn is_identifier_part(c: char) -> bool
    ensures { result ≡ is_identifier_part c }
{
    c == '$' || c == '\u{200C}' || c == '\u{200D}' || is_xid_continue(c)
}

pub fn is_decimal_digit(c: char) -> bool
    ensures { result ≡ is_decimal_digit c }
{
    '0' <= c && c <= '9'
}

pub fn is_quote(c: char) -> bool
    ensures { result ≡ is_quote c }
{
    c == '"' || c == '\''
}

/// Whether a character is a digit of a radix of 2, 8, 10 or 16.
pub fn is_digit_of(radix: u32, c: char) -> bool
    requires { radix ≤ 16 }
    ensures { result ≡ is_digit_of radix c }
{
    digit_value(c) < radix
}

/// The value of a digit of a radix of at most 16, and 16 of another character.
pub fn digit_value(c: char) -> u32
    ensures { result ≡ digit_value c }
{
    if '0' <= c && c <= '9' {
        c as u32 - '0' as u32
    } else if 'a' <= c && c <= 'f' {
        c as u32 - 'a' as u32 + 10
    } else if 'A' <= c && c <= 'F' {
        c as u32 - 'A' as u32 + 10
    } else {
        16
    }
}

/// The character at an index, or U+0000 past the end.
pub fn peek(rest: &[char], index: usize) -> char
    ensures { result ≡ slice_index rest.now index }
{
    if index < rest.len() {
        rest[index]
    } else {
        '\0'
    }
}

/// How many characters at the front are parts of an identifier.
pub fn identifier_run(rest: &[char]) -> usize
    ensures value { result ≡ run_of is_identifier_part rest.now }
    ensures within { result ≤ length rest.now }
{
    for (i, c) in rest.iter().enumerate() {
        if !is_identifier_part(*c) {
            return i;
        }
    }
    rest.len()
}

/// How many characters at the front are no line terminators.
pub fn line_run(rest: &[char]) -> usize
    ensures value { result ≡ run_of is_not_line_terminator rest.now }
    ensures within { result ≤ length rest.now }
{
    for (i, c) in rest.iter().enumerate() {
        if is_line_terminator(*c) {
            return i;
        }
    }
    rest.len()
}

/// How many characters at the front are digits of a radix.
pub fn digit_run(radix: u32, rest: &[char]) -> usize
    requires { radix ≤ 16 }
    ensures value { result ≡ run_of (is_digit_of radix) rest.now }
    ensures within { result ≤ length rest.now }
{
    for (i, c) in rest.iter().enumerate() {
        if !is_digit_of(radix, *c) {
            return i;
        }
    }
    rest.len()
}
