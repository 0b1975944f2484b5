//! What stands at the front of a text.

use crate::token::{TokenFault, TokenKind};

/// What is read at the front of a text, with its length in characters.
#[derive(Debug, Drop)]
pub enum Element {
    /// The text is at its end.
    Finished,
    /// White space, a line terminator or a comment, and whether a line terminator is in it.
    Skip { length: usize, line: bool },
    /// A token.
    Take { kind: TokenKind, length: usize },
    /// A fault, and the index of the character at which it stands.
    Stop { fault: TokenFault, at: usize },
}

/// What follows the `\` of an escape.
#[derive(Clone, Copy, Debug)]
pub enum Escape {
    /// The end of the text.
    Cut,
    /// No escape.
    Wrong,
    /// So many characters that stand for a code point.
    Stands { code: u32, length: usize },
    /// So many characters of a line continuation, which stands for nothing.
    Continues { length: usize },
}
