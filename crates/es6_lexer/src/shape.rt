//! What stands at the front of a text, before its values are made.

use crate::token::{LexicalKind, NumberToken, Punctuator};

/// What is read at the front of a text, with its length in characters.
#[derive(Clone, Copy, Debug)]
pub enum Element {
    /// The text is at its end.
    Finished,
    /// White space, a line terminator or a comment, and whether a line terminator is in it.
    Skip { length: usize, newline: bool },
    /// A token.
    Take { shape: Shape, length: usize },
    /// A fault, and the index of the character at which it is reported.
    Stop { kind: LexicalKind, at: usize },
}

/// A token without its text.
#[derive(Clone, Copy, Debug)]
pub enum Shape {
    OfWord,
    OfPunctuator(Punctuator),
    OfNumber(NumberToken),
    OfText,
    OfTemplate { last: bool },
}

/// What follows the `\` of an escape.
#[derive(Clone, Copy, Debug)]
pub enum EscapeEnd {
    /// The end of the text.
    Cut,
    /// So many characters, which are those of an escape.
    Spelled(usize),
    /// No escape.
    Wrong(LexicalKind),
}
