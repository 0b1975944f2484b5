//! What tokens are.

use es_text::Span;
use shared_text::{Name, Units};

/// A token, and where it stands.
#[derive(Debug, Drop)]
pub struct Token {
    pub kind: TokenKind,
    /// Its bytes; of a fault, those of the character at which it is reported.
    pub span: Span,
    /// Whether a line terminator stands between the token before it and this one.
    pub newline: bool,
}

/// What a token is (11.5).
#[derive(Debug, Drop)]
pub enum TokenKind {
    /// An identifier or a reserved word (11.6).
    Word(Name),
    /// A punctuator (11.7).
    Punctuator(Punctuator),
    /// A numeric literal (11.8.3).
    Number(NumberToken),
    /// The value of a string literal (11.8.4).
    Text(Units),
    /// One stretch of a template's characters (11.8.6): its value and its raw text, and whether
    /// the template begins or ends with it.
    Template {
        cooked: Units,
        raw: Units,
        first: bool,
        last: bool,
    },
    /// The first lexical fault of the text, after which nothing is read.
    Fault(LexicalKind),
    /// The end of the text.
    End,
}

/// The value of a numeric literal, as far as the profile has it.
#[derive(Clone, Copy, Debug, PartialEq, Eq)]
pub enum NumberToken {
    /// A whole number of at most 9007199254740991.
    Whole(i64),
    /// A whole number above that.
    TooLarge,
    /// A literal with a point or an exponent.
    Marked,
}

/// The kinds of lexical fault.
#[derive(Clone, Copy, Debug, PartialEq, Eq)]
pub enum LexicalKind {
    /// No token begins with the character.
    BadCharacter,
    /// A `\\` stands where a token begins or inside an identifier.
    IdentifierEscape,
    /// A string literal meets a line terminator or the end.
    OpenString,
    /// A template's characters meet the end.
    OpenTemplate,
    /// A `/*` has no `*/`.
    OpenComment,
    /// An escape is malformed or above 10FFFF.
    BadEscape,
    /// A digit follows a leading zero, or a digit escape is no `\\0`.
    LegacyOctal,
    /// A prefix has no digits, or an identifier character follows a number.
    BadNumber,
}

/// The punctuators (11.7, and `**` and `**=` of the 7th edition).
#[derive(Clone, Copy, Debug, PartialEq, Eq)]
pub enum Punctuator {
    LeftBrace,
    RightBrace,
    LeftParenthesis,
    RightParenthesis,
    LeftBracket,
    RightBracket,
    Dot,
    Ellipsis,
    Semicolon,
    Comma,
    LessThan,
    GreaterThan,
    LessOrEqual,
    GreaterOrEqual,
    Equals,
    NotEquals,
    StrictEquals,
    StrictNotEquals,
    Plus,
    Minus,
    Star,
    Slash,
    Percent,
    StarStar,
    PlusPlus,
    MinusMinus,
    ShiftLeft,
    ShiftRight,
    ShiftRightUnsigned,
    Ampersand,
    Bar,
    Caret,
    Exclamation,
    Tilde,
    AmpersandAmpersand,
    BarBar,
    Question,
    Colon,
    Assign,
    PlusAssign,
    MinusAssign,
    StarAssign,
    SlashAssign,
    PercentAssign,
    StarStarAssign,
    ShiftLeftAssign,
    ShiftRightAssign,
    ShiftRightUnsignedAssign,
    AmpersandAssign,
    BarAssign,
    CaretAssign,
    Arrow,
}
