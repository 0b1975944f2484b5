//! The lines of nodes, and of what has no parts.

ghost use Rattle.std.specs.Prelude.{◌<◌};

use es_text::Span;
use es6_ast::{Identifier, Literal, Specifier, Stretch};
use itoa::{Buffer, Integer};
use std::alloc::{AllocError, Global};

/// Text under way. What memory is wanting for is left out, and `into_bytes` says so: no function has to stop for it.
#[derive(Drop)]
pub(crate) struct Text {
    alloc: Global,
    bytes: Vec<u8>,
    is_whole: bool,
}

impl Text {
    /// No text.
    pub(crate) fn new(alloc: Global) -> Text {
        Text {
            alloc,
            bytes: Vec::new(alloc),
            is_whole: true,
        }
    }

    /// The bytes, where memory sufficed for all of them.
    pub(crate) fn into_bytes(self) -> Result<Vec<u8>, AllocError> {
        let Text {
            alloc: _,
            bytes,
            is_whole,
        } = self;
        if is_whole { Ok(bytes) } else { Err(AllocError) }
    }

    /// How many bytes there are.
    pub(crate) fn len(&self) -> usize {
        self.bytes.len()
    }

    /// Whether memory sufficed for all of them.
    pub(crate) fn is_whole(&self) -> bool {
        self.is_whole
    }

    /// Notes whether memory sufficed.
    pub(crate) fn note(&mut self, sufficed: bool) {
        self.is_whole = self.is_whole && sufficed;
    }

    /// Takes the bytes from the offset on.
    pub(crate) fn take_from(&mut self, at: usize) -> Vec<u8> {
        if at <= self.bytes.len() {
            if let Ok(behind) = self.bytes.split_off(at) {
                return behind;
            }
        }
        self.is_whole = false;
        Vec::new(self.alloc)
    }

    /// Adds bytes.
    pub(crate) fn add(&mut self, bytes: &[u8]) {
        let sufficed = self.bytes.extend_from_slice(bytes).is_ok();
        self.note(sufficed);
    }

    fn number<I: Integer>(&mut self, number: I) {
        let mut buffer = Buffer::new();
        self.add(buffer.format(number).as_bytes());
    }

    /// What a node's line begins with: its kind, and where it begins and ends.
    fn head(&mut self, kind: &str, span: Span) {
        self.add(kind.as_bytes());
        self.add(b" ");
        self.number(span.begin);
        self.add(b" ");
        self.number(span.end);
    }

    /// Units as hexadecimal numbers of four digits.
    fn units(&mut self, units: &[u16]) {
        for unit in units {
            self.add(&hexadecimal(*unit));
        }
    }

    /// A line of one word.
    pub(crate) fn word(&mut self, word: &str) {
        self.add(word.as_bytes());
        self.add(b"\n");
    }

    /// The line of an operator between two operands.
    pub(crate) fn operator(&mut self, word: &str) {
        self.add(b"Operand ");
        self.word(word);
    }

    /// The line of a node that has nothing beside its parts.
    pub(crate) fn node(&mut self, kind: &str, span: Span) {
        self.head(kind, span);
        self.add(b"\n");
    }

    /// The line of a node with a word of its own.
    pub(crate) fn node_with(&mut self, kind: &str, span: Span, word: &str) {
        self.node_named(kind, span, word.as_bytes());
    }

    /// The line of a node with a name of its own.
    pub(crate) fn node_named(&mut self, kind: &str, span: Span, name: &[u8]) {
        self.head(kind, span);
        self.add(b" ");
        self.add(name);
        self.add(b"\n");
    }

    /// The line of a node with a number of its own.
    pub(crate) fn node_of_number<I: Integer>(&mut self, kind: &str, span: Span, number: I) {
        self.head(kind, span);
        self.add(b" ");
        self.number(number);
        self.add(b"\n");
    }

    /// The line of a node with another stretch of the text.
    pub(crate) fn node_of_span(&mut self, kind: &str, span: Span, other: Span) {
        self.head(kind, span);
        self.add(b" ");
        self.number(other.begin);
        self.add(b" ");
        self.number(other.end);
        self.add(b"\n");
    }

    /// The line of a node with units of its own.
    pub(crate) fn node_of_units(&mut self, kind: &str, span: Span, units: &[u16]) {
        self.head(kind, span);
        self.add(b" ");
        self.units(units);
        self.add(b"\n");
    }

    /// A name.
    pub(crate) fn identifier(&mut self, identifier: &Identifier) {
        self.node_named("Identifier", identifier.span, identifier.name.bytes());
    }

    /// A name, if there is one.
    pub(crate) fn name(&mut self, name: &Option<Identifier>) {
        match name {
            None => (),
            Some(name) => self.identifier(name),
        }
    }

    /// A stretch of a template, with its value and its raw text.
    pub(crate) fn stretch(&mut self, stretch: &Stretch) {
        self.head("Stretch", stretch.span);
        self.add(b" ");
        self.units(stretch.cooked.units());
        self.add(b" ");
        self.units(stretch.raw.units());
        self.add(b"\n");
    }

    /// The module that an import or an export names.
    pub(crate) fn specifier(&mut self, specifier: &Specifier) {
        self.node_of_units("Specifier", specifier.span, specifier.text.units());
    }

    /// A literal.
    pub(crate) fn literal(&mut self, span: Span, literal: &Literal) {
        match literal {
            Literal::Null => self.node_with("Literal", span, "null"),
            Literal::Truth(true) => self.node_with("Literal", span, "true"),
            Literal::Truth(false) => self.node_with("Literal", span, "false"),
            Literal::Integer(value) => self.node_of_number("Literal", span, *value),
            Literal::Text(text) => {
                self.head("Literal", span);
                self.add(b" text ");
                self.units(text.units());
                self.add(b"\n");
            }
        }
    }
}

fn hexadecimal_digit(digit: u16) -> u8
    requires { digit < 16 }
{
    if digit < 10 {
        b'0' + digit as u8
    } else {
        b'a' + (digit as u8 - 10)
    }
}

fn hexadecimal(unit: u16) -> [u8; 4] {
    let first = hexadecimal_digit(unit / 4096 % 16);
    let second = hexadecimal_digit(unit / 256 % 16);
    let third = hexadecimal_digit(unit / 16 % 16);
    let last = hexadecimal_digit(unit % 16);
    [first, second, third, last]
}
