//! Source texts and the places in them, which every later crate's spans and faults speak of.
//!
//! A text is UTF-8; what the language sees of it are its code points, and what it counts
//! columns in are 16-bit units (ECMA-262, 6th edition, 10.1).
#![tactic(auto)]

mod lines;
mod units;

pub use lines::{Lines, offsets_and_places};
pub use units::{TextFault, chars_of, push_code_point, units_of};

/// A stretch of a text, in bytes from 0: the offset of its first byte, and that after its last one.
#[derive(Clone, Copy, Debug, PartialEq, Eq)]
pub struct Span {
    pub begin: u32,
    pub end: u32,
}

/// A place of a text: its line, and its column in UTF-16 units, both from 0.
#[derive(Clone, Copy, Debug, PartialEq, Eq)]
pub struct Place {
    pub line: u64,
    pub column: u64,
}
