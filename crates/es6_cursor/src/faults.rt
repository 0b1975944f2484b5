//! What stops a reader at the next token.

ghost use Rattle.std.specs.Prelude.{◌≡◌};
ghost use Rattle.es6_ast.specs.Tokens.{Read};
ghost use Rattle.es6_reading.specs.Parser.{expression_stop_in, no_expression, no_number, number_stop_in, refused, stop_at, stop_in};
ghost use Rattle.es6_cursor.specs.Reads.{Reads};

use crate::cursor::Cursor;
use crate::halt::Halt;
use es6_ast::Stop;
use es6_lexer::{NumberToken, Punctuator, TokenKind};

fn stop_in(kind: &TokenKind) -> Stop
    ensures { result ≡ stop_in (Read kind.now) }
{
    match kind {
        TokenKind::Fault(fault) => Stop::Lexical(*fault),
        _ => Stop::Syntax,
    }
}

/// Where a number may stand: one above 9007199254740991, and one with a point or an exponent, is outside the profile.
fn number_stop_in(kind: &TokenKind) -> Stop
    ensures { result ≡ number_stop_in (Read kind.now) }
{
    match kind {
        TokenKind::Number(NumberToken::TooLarge) => Stop::Outside(4),
        TokenKind::Number(NumberToken::Marked) => Stop::Outside(3),
        _ => stop_in(kind),
    }
}

/// Where an expression may begin: a regular expression is outside the profile.
fn expression_stop_in(kind: &TokenKind) -> Stop
    ensures { result ≡ expression_stop_in (Read kind.now) }
{
    match kind {
        TokenKind::Punctuator(Punctuator::Slash | Punctuator::SlashAssign) => Stop::Outside(2),
        _ => number_stop_in(kind),
    }
}

impl<'a> Cursor<'a> {
    /// Why nothing goes on with the next token.
    pub fn refused(&self) -> Stop
        ensures { result ≡ stop_at stop_in self.now.tokens }
    {
        match self.rest().first() {
            Some(token) => stop_in(&token.kind),
            None => Stop::Syntax,
        }
    }

    /// Why nothing goes on with the next token, where a number may stand.
    pub fn no_number(&self) -> Stop
        ensures { result ≡ stop_at number_stop_in self.now.tokens }
    {
        match self.rest().first() {
            Some(token) => number_stop_in(&token.kind),
            None => Stop::Syntax,
        }
    }

    /// Why nothing goes on with the next token, where an expression may begin.
    pub fn no_expression(&self) -> Stop
        ensures { result ≡ stop_at expression_stop_in self.now.tokens }
    {
        match self.rest().first() {
            Some(token) => expression_stop_in(&token.kind),
            None => Stop::Syntax,
        }
    }

    /// Nothing goes on with the next token.
    #[tactic(auto, unfolding(es6_reading::specs::Parser::refused))]
    pub fn refuse<A>(&self) -> Result<A, Halt>
        ensures { Reads (refused self.now) result self.now }
    {
        Err(Halt::Stopped(self.refused()))
    }

    /// The same where a number may stand.
    #[tactic(auto, unfolding(es6_reading::specs::Parser::no_number))]
    pub fn refuse_number<A>(&self) -> Result<A, Halt>
        ensures { Reads (no_number self.now) result self.now }
    {
        Err(Halt::Stopped(self.no_number()))
    }

    /// The same where an expression may begin.
    #[tactic(auto, unfolding(es6_reading::specs::Parser::no_expression))]
    pub fn refuse_expression<A>(&self) -> Result<A, Halt>
        ensures { Reads (no_expression self.now) result self.now }
    {
        Err(Halt::Stopped(self.no_expression()))
    }
}
