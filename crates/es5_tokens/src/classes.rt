//! Classes of characters, and runs of one class.

ghost use Rattle.std.specs.Prelude.{◌≡◌, ◌≤◌, length, slice_index, not, drop};
ghost use Rattle.std.specs.Char.{digit_value, is_ascii_digit, is_ascii_hexdigit};
ghost use Rattle.std.specs.List.{prefix_len};
ghost use Rattle.es5_ast.specs.Lexical.{is_white_space, is_line_terminator, is_identifier_start, is_identifier_part, next_is};
ghost use Rattle.es5_tokens.specs.Quoted.{is_quote};

/// White space (ECMA-262, 5.1 edition, 7.2): a few characters, and the category Zs.
pub fn is_white_space(c: char) -> bool
    ensures { result ≡ is_white_space c }
{
    match c {
        '\t' | '\u{B}' | '\u{C}' | ' ' | '\u{A0}' | '\u{FEFF}' => true,
        '\u{1680}' | '\u{2000}'..='\u{200A}' | '\u{202F}' | '\u{205F}' | '\u{3000}' => true,
        _ => false,
    }
}

/// Line terminators (7.3).
pub fn is_line_terminator(c: char) -> bool
    ensures { result ≡ is_line_terminator c }
{
    matches!(c, '\n' | '\r' | '\u{2028}' | '\u{2029}')
}

/// What an identifier begins with (7.6), by the profile.
pub fn is_identifier_start(c: char) -> bool
    ensures { result ≡ is_identifier_start c }
{
    c.is_ascii_alphabetic() || c == '_' || c == '$'
}

/// What an identifier goes on with (7.6), by the profile.
pub fn is_identifier_part(c: char) -> bool
    ensures { result ≡ is_identifier_part c }
{
    is_identifier_start(c) || c.is_ascii_digit()
}

pub fn is_quote(c: char) -> bool
    ensures { result ≡ is_quote c }
{
    c == '"' || c == '\''
}

/// The value of a digit of a radix of at most 36, and 36 of another character.
pub fn digit_value(c: char) -> u32
    ensures value { result ≡ digit_value c }
    ensures bound { result ≤ 36 }
{
    c.to_digit(36).unwrap_or(36)
}

/// The character at an index, or U+0000 past the end.
pub fn peek(rest: &[char], index: usize) -> char
    ensures { result ≡ slice_index rest.now index }
{
    if index < rest.len() {
        rest[index]
    } else {
        '\0'
    }
}

/// Whether a part of an identifier stands behind so many characters.
pub fn part_follows(rest: &[char], index: usize) -> bool
    requires { index ≤ length rest.now }
    ensures { result ≡ next_is is_identifier_part (drop index rest.now) }
{
    index < rest.len() && is_identifier_part(rest[index])
}

/// How many characters at the front are parts of an identifier.
pub fn identifier_run(rest: &[char]) -> usize
    ensures value { result ≡ prefix_len is_identifier_part rest.now }
    ensures within { result ≤ length rest.now }
{
    for (i, c) in rest.iter().enumerate() {
        if !is_identifier_part(*c) {
            return i;
        }
    }
    rest.len()
}

/// How many characters at the front are no line terminators.
pub fn line_run(rest: &[char]) -> usize
    ensures value { result ≡ prefix_len (λ c. not (is_line_terminator c)) rest.now }
    ensures within { result ≤ length rest.now }
{
    for (i, c) in rest.iter().enumerate() {
        if is_line_terminator(*c) {
            return i;
        }
    }
    rest.len()
}

/// How many characters at the front are decimal digits.
pub fn digit_run(rest: &[char]) -> usize
    ensures value { result ≡ prefix_len is_ascii_digit rest.now }
    ensures within { result ≤ length rest.now }
{
    for (i, c) in rest.iter().enumerate() {
        if !c.is_ascii_digit() {
            return i;
        }
    }
    rest.len()
}

/// How many characters at the front are hexadecimal digits.
pub fn hexadecimal_run(rest: &[char]) -> usize
    ensures value { result ≡ prefix_len is_ascii_hexdigit rest.now }
    ensures within { result ≤ length rest.now }
{
    for (i, c) in rest.iter().enumerate() {
        if !c.is_ascii_hexdigit() {
            return i;
        }
    }
    rest.len()
}
