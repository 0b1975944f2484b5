//! Where calls stand in a printed script.

use es_outside::Site;
use es_text::Place;

/// Where the first token of a call stands in the printed script, and the place of the source that the call came from.
#[derive(Clone, Copy, Debug, PartialEq, Eq)]
pub struct Mark {
    pub generated: Place,
    pub site: Site,
}

/// What was written last, as far as it decides whether a space stands before the next token.
#[derive(Clone, Copy, Debug, PartialEq, Eq)]
pub(crate) enum Last {
    /// nothing, a space, the end of a line, or an opening parenthesis or bracket
    Space,
    /// the point of a property access
    Point,
    /// a word, a text, or a closing parenthesis, bracket or brace
    Word,
    Number,
    /// any other punctuator
    Sign,
}
