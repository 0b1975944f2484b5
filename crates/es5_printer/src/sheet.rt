//! The text under way, token by token: spaces, lines and marks.

ghost use Rattle.std.specs.Prelude.{◌≡◌, ◌∷◌, ◌++◌, List, OnOk, ◌<◌};
ghost use Rattle.es5_ast.specs.Lexical.{Integer, Text};
ghost use Rattle.es5_printer.specs.Pieces.{Piece, Lexeme, Begins, LineEnd, word, mark};
ghost use Rattle.es5_printer.specs.Layout.{Written, gap, is_closer, is_follower, last_of_mark, first_of, is_plain_unit, hex_digit, escaped, unit_text, units_text, with_token, with_line, written, blank};

use crate::mark::{Last, Mark};
use es_outside::Site;
use es_text::Place;
use shared_text::Units;
use std::alloc::{AllocError, Global};
use std::marker::Model;

/// No mark stands beyond this column.
const LIMIT: usize = 100;

/// A text under way.
#[derive(Drop)]
pub(crate) struct Sheet {
    alloc: Global,
    bytes: Vec<u8>,
    marks: Vec<Mark>,
    line: u64,
    start: usize,
    last: Last,
}

impl Model for Sheet {
    ghost use Rattle.std.specs.Prelude.{◌≤◌, length};
    ghost use Rattle.es5_printer.specs.Layout.{Written};

    ghost Value = { Written };

    ghost view = { λ s. record { bytes = s.bytes.items; line = s.line; start = s.start; last = s.last; marks = s.marks.items } };

    ghost invariant = { λ s. (s.line ≤ s.start) × (s.start ≤ length s.bytes.items) };
}

#[tactic(auto, unfolding(crate::specs::Layout::written))]
impl Sheet {
    pub(crate) fn new(alloc: Global) -> Sheet
        ensures { result ≡ blank }
    {
        Sheet {
            alloc,
            bytes: Vec::new(alloc),
            marks: Vec::new(alloc),
            line: 0,
            start: 0,
            last: Last::Space,
        }
    }

    /// The bytes and the marks.
    pub(crate) fn into_parts(self) -> (Vec<u8>, Vec<Mark>)
        ensures bytes { result.0.items ≡ self.bytes }
        ensures marks { result.1.items ≡ self.marks }
    {
        let Sheet {
            alloc: _,
            bytes,
            marks,
            line: _,
            start: _,
            last: _,
        } = self;
        (bytes, marks)
    }

    /// Writes a token, after a space where one is needed.
    fn token(&mut self, text: &[u8], after: Last) -> Result<(), AllocError>
        ensures { OnOk result (self.new ≡ with_token self.old text.now after) }
    {
        if needs_gap(self.last, first_of(text)) {
            self.bytes.push(b' ')?;
        }
        self.bytes.extend_from_slice(text)?;
        self.last = after;
        Ok(())
    }

    /// Writes an identifier name.
    pub(crate) fn word(&mut self, name: &[u8]) -> Result<(), AllocError>
        ensures { OnOk result ((rest : List Piece) → written self.new rest ≡ written self.old (word name.now rest)) }
    {
        self.token(name, Last::Word)
    }

    /// Writes a punctuator.
    pub(crate) fn mark(&mut self, sign: &[u8]) -> Result<(), AllocError>
        ensures { OnOk result ((rest : List Piece) → written self.new rest ≡ written self.old (mark sign.now rest)) }
    {
        self.token(sign, last_of_mark(first_of(sign)))
    }

    /// Writes an integer in decimal digits.
    pub(crate) fn integer(&mut self, value: u64) -> Result<(), AllocError>
        ensures { OnOk result ((rest : List Piece) → written self.new rest ≡ written self.old (Lexeme (Integer value) ∷ rest)) }
    {
        let digits = format!(in self.alloc; "{value}")?;
        self.token(digits.as_bytes(), Last::Number)
    }

    /// Writes a text between quotes (7.8.4).
    pub(crate) fn text(&mut self, text: &Units) -> Result<(), AllocError>
        ensures { OnOk result ((rest : List Piece) → written self.new rest ≡ written self.old (Lexeme (Text text.now) ∷ rest)) }
    {
        let mut quoted = Vec::new(self.alloc);
        quoted.push(b'"')?;
        push_units(&mut quoted, text.units())?;
        quoted.push(b'"')?;
        self.token(quoted.as_slice(), Last::Word)
    }

    /// Ends the line.
    pub(crate) fn line_end(&mut self) -> Result<(), AllocError>
        ensures { OnOk result ((rest : List Piece) → written self.new rest ≡ written self.old (LineEnd ∷ rest)) }
    {
        self.new_line()
    }

    fn new_line(&mut self) -> Result<(), AllocError>
        ensures { OnOk result (self.new ≡ with_line self.old) }
    {
        self.bytes.push(b'\n')?;
        self.line += 1;
        self.start = self.bytes.len();
        self.last = Last::Space;
        Ok(())
    }

    /// Marks the next token as the first of a call with this site, on a new line where it would stand too far right.
    pub(crate) fn begins(&mut self, site: Site) -> Result<(), AllocError>
        ensures { OnOk result ((rest : List Piece) → written self.new rest ≡ written self.old (Begins site ∷ rest)) }
    {
        if self.bytes.len() - self.start >= LIMIT {
            self.new_line()?;
        } else {
            self.token(b"", Last::Space)?;
        }
        let column = (self.bytes.len() - self.start) as u64;
        let generated = Place {
            line: self.line,
            column,
        };
        self.marks.push(Mark { generated, site })?;
        Ok(())
    }
}

/// The first byte of a token, or 0 where there is none.
fn first_of(text: &[u8]) -> u8
    ensures { result ≡ first_of text.now }
{
    match text.first() {
        None => 0,
        Some(first) => *first,
    }
}

fn is_closer(first: u8) -> bool
    ensures { result ≡ is_closer first }
{
    first == b')' || first == b']' || first == b';' || first == b','
}

fn is_follower(first: u8) -> bool
    ensures { result ≡ is_follower first }
{
    first == b'(' || first == b'[' || first == b'.' || first == b':'
}

/// Whether a space stands before a token that begins with this byte.
fn needs_gap(last: Last, first: u8) -> bool
    ensures { result ≡ gap last first }
{
    match last {
        Last::Space => false,
        Last::Point => !(first.is_ascii_alphabetic() || first == b'_' || first == b'$'),
        Last::Word => !(is_closer(first) || is_follower(first)),
        Last::Number | Last::Sign => !is_closer(first),
    }
}

/// What a punctuator that begins with this byte is to what follows.
fn last_of_mark(first: u8) -> Last
    ensures { result ≡ last_of_mark first }
{
    if first == b'(' || first == b'[' {
        return Last::Space;
    }
    if first == b'.' {
        return Last::Point;
    }
    if first == b')' || first == b']' || first == b'}' {
        return Last::Word;
    }
    Last::Sign
}

/// Writes the units of a text.
fn push_units(bytes: &mut Vec<u8>, units: &[u16]) -> Result<(), AllocError>
    ensures { OnOk result (bytes.new.items ≡ bytes.old.items ++ units_text units.now) }
{
    for unit in units {
        push_unit(bytes, *unit)?;
    }
    Ok(())
}

fn push_unit(bytes: &mut Vec<u8>, unit: u16) -> Result<(), AllocError>
    ensures { OnOk result (bytes.new.items ≡ bytes.old.items ++ unit_text unit) }
{
    if is_plain(unit) {
        bytes.push(unit as u8)?;
        Ok(())
    } else {
        bytes.extend_from_slice(&escaped(unit))
    }
}

/// Whether a unit stands for itself in a text.
fn is_plain(unit: u16) -> bool
    ensures { result ≡ is_plain_unit unit }
{
    32 <= unit && unit <= 126 && unit != 34 && unit != 92 && unit != 60 && unit != 62
}

fn hex_digit(digit: u16) -> u8
    requires { digit < 16 }
    ensures { result ≡ hex_digit digit }
{
    if digit < 10 {
        b'0' + digit as u8
    } else {
        b'a' + (digit as u8 - 10)
    }
}

/// The escape of a unit.
fn escaped(unit: u16) -> [u8; 6]
    ensures { result ≡ escaped unit }
{
    let first = hex_digit(unit / 4096 % 16);
    let second = hex_digit(unit / 256 % 16);
    let third = hex_digit(unit / 16 % 16);
    let last = hex_digit(unit % 16);
    [b'\\', b'u', first, second, third, last]
}
