//! What tokens are.

use shared_text::{Name, Units};

/// The tokens of a text up to `end`, an offset in bytes: the end of the text, or the fault that stands there.
#[derive(Debug, Drop)]
pub struct Tokens {
    pub list: Vec<Token>,
    pub end: u32,
    pub fault: Option<TokenFault>,
}

/// A token, the offsets in bytes of its begin and its end, and whether a line terminator stands between it and the token
/// before.
#[derive(Debug, Drop)]
pub struct Token {
    pub kind: TokenKind,
    pub begin: u32,
    pub end: u32,
    pub after_line: bool,
}

/// What a token is (ECMA-262, 5.1 edition, 7.5).
#[derive(Debug, Drop)]
pub enum TokenKind {
    /// An identifier or a reserved word (7.6).
    Word(Name),
    /// A numeric literal (7.8.3): a whole number of at most 9007199254740991.
    Integer(u64),
    /// The value of a string literal (7.8.4).
    Text(Units),
    /// A punctuator (7.7).
    Punctuator(Punctuator),
}

/// Why no token of the profile begins at a place.
#[derive(Clone, Copy, Debug, PartialEq, Eq)]
pub enum TokenFault {
    /// No token is spelled there.
    Lexical,
    /// A number has a point or an exponent, or is above 9007199254740991.
    Number,
}

/// The punctuators (7.7).
#[derive(Clone, Copy, Debug, PartialEq, Eq)]
pub enum Punctuator {
    LeftBrace,
    RightBrace,
    LeftParenthesis,
    RightParenthesis,
    LeftBracket,
    RightBracket,
    Dot,
    Semicolon,
    Comma,
    LessThan,
    GreaterThan,
    LessOrEqual,
    GreaterOrEqual,
    Equals,
    NotEquals,
    StrictEquals,
    StrictNotEquals,
    Plus,
    Minus,
    Star,
    Percent,
    PlusPlus,
    MinusMinus,
    ShiftLeft,
    ShiftRight,
    ShiftRightUnsigned,
    Ampersand,
    Bar,
    Caret,
    Exclamation,
    Tilde,
    AmpersandAmpersand,
    BarBar,
    Question,
    Colon,
    Assign,
    PlusAssign,
    MinusAssign,
    StarAssign,
    PercentAssign,
    ShiftLeftAssign,
    ShiftRightAssign,
    ShiftRightUnsignedAssign,
    AmpersandAssign,
    BarAssign,
    CaretAssign,
    Slash,
    SlashAssign,
}
