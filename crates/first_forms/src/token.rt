use shared_text::{Name, Units};

/// A token, and where it begins, as an offset in bytes from 0.
#[derive(Debug, Drop)]
pub struct Token {
    pub at: u32,
    pub kind: TokenKind,
}

/// What a token is (ECMA-262, 6th edition, 11).
#[derive(Debug, Drop)]
pub enum TokenKind {
    /// An IdentifierName, the reserved words among them (11.6).
    Name(Name),
    /// A DecimalIntegerLiteral (11.8.3).
    Integer(u64),
    /// What stands between the quotes of a StringLiteral (11.8.4).
    Text(Units),
    LeftBrace,
    RightBrace,
    LeftParen,
    RightParen,
    Comma,
    Semicolon,
    Plus,
    Equals,
    /// No token begins here. Nothing after it is read.
    Bad,
    /// The end of the text.
    End,
}
