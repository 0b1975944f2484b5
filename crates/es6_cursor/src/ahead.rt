//! Tests of the next token, which is not taken.

ghost use Rattle.std.specs.Prelude.{◌≡◌, ◌||◌, false, is_some, not, true};
ghost use Rattle.es6_lexer.specs.declared.token.Punctuator.TheVariants as marks;
ghost use Rattle.es6_ast.specs.Tokens.{Read, read};
ghost use Rattle.es6_reading.specs.Parser.{is_insertable, next_is, next_mark};
ghost use Rattle.es6_reading.specs.Words.{begins_expression, begins_operand, begins_unary, is_arrow, stretch_at, text_at};
ghost use Rattle.es6_reading.specs.Parts.{begins_class_tail};
ghost use Rattle.es6_reading.specs.Expressions.{ends_name, ends_value, ends_yield};
ghost use Rattle.es6_reading.specs.Statements.{begins_declaration, begins_line, ends_case, goes_on};
ghost use Rattle.es6_reading.specs.Modules.{begins_names, is_end};
ghost use Rattle.es6_cursor.specs.Readers.{ended, ended_do_while};
ghost use Rattle.es6_cursor.specs.Reads.{Reads};

use crate::classes::{self, ends_block, is_end, is_mark, is_text, is_word};
use crate::cursor::Cursor;
use crate::halt::Halt;
use es6_ast::Flags;
use es6_lexer::{Punctuator, Token, TokenKind};

/// The first stretch of a template with values (11.8.6).
fn opens_template(token: &Token) -> bool
    ensures { result ≡ is_some (stretch_at true false (read token.now)) }
{
    match &token.kind {
        TokenKind::Template { first, last, .. } => *first & !*last,
        _ => false,
    }
}

/// What follows the name of a property, and no `get` or `set` before another name (12.2.6).
fn ends_name(token: &Token) -> bool
    ensures { result ≡ ends_name (read token.now) }
{
    let kind = &token.kind;
    is_mark(kind, Punctuator::Colon)
        | is_mark(kind, Punctuator::LeftParenthesis)
        | is_mark(kind, Punctuator::Comma)
        | is_mark(kind, Punctuator::RightBrace)
        | is_mark(kind, Punctuator::Assign)
}

/// What no value of a `yield` before it begins with (14.4).
fn ends_value(kind: &TokenKind) -> bool
    ensures { result ≡ ends_value (Read kind.now) }
{
    match kind {
        TokenKind::End => true,
        TokenKind::Template { first, .. } => !*first,
        _ => {
            is_mark(kind, Punctuator::RightParenthesis)
                | is_mark(kind, Punctuator::RightBracket)
                | is_mark(kind, Punctuator::RightBrace)
                | is_mark(kind, Punctuator::Comma)
                | is_mark(kind, Punctuator::Semicolon)
                | is_mark(kind, Punctuator::Colon)
        }
    }
}

/// What may follow a `yield` that has no value (14.4).
#[tactic(auto, unfolding(es6_reading::specs::Expressions::ends_yield))]
fn ends_yield(token: &Token) -> bool
    ensures { result ≡ ends_yield (read token.now) }
{
    token.newline | ends_value(&token.kind)
}

fn ends_case(token: &Token) -> bool
    ensures { result ≡ ends_case (read token.now) }
{
    let kind = &token.kind;
    is_word(kind, b"case") | is_word(kind, b"default") | is_mark(kind, Punctuator::RightBrace)
}

impl<'a> Cursor<'a> {
    /// Whether there is a next token.
    pub fn has_next(&self) -> bool
        ensures { result ≡ next_is (λ t. true) self.now.tokens }
    {
        self.rest().first().is_some()
    }

    /// Whether the next token is the end of the text.
    pub fn next_is_end(&self) -> bool
        ensures { result ≡ next_is is_end self.now.tokens }
    {
        match self.rest().first() {
            Some(token) => matches!(&token.kind, TokenKind::End),
            None => false,
        }
    }

    /// Whether `=>` is next, on the line of the token before it (14.2).
    pub fn next_is_arrow(&self) -> bool
        ensures { result ≡ next_is is_arrow self.now.tokens }
    {
        match self.rest().first() {
            Some(token) => is_mark(&token.kind, Punctuator::Arrow) & !token.newline,
            None => false,
        }
    }

    /// Whether a string literal is next.
    pub fn next_is_text(&self) -> bool
        ensures { result ≡ next_is (λ t. is_some (text_at t)) self.now.tokens }
    {
        match self.rest().first() {
            Some(token) => is_text(&token.kind),
            None => false,
        }
    }

    /// Whether the next token begins a template with values (11.8.6).
    pub fn next_opens_template(&self) -> bool
        ensures { result ≡ next_is (λ t. is_some (stretch_at true false t)) self.now.tokens }
    {
        match self.rest().first() {
            Some(token) => opens_template(token),
            None => false,
        }
    }

    /// Whether the next token begins an operand (12.2, 12.3).
    pub fn next_begins_operand(&self) -> bool
        ensures { result ≡ next_is begins_operand self.now.tokens }
    {
        match self.rest().first() {
            Some(token) => classes::begins_operand(token),
            None => false,
        }
    }

    /// Whether the next token begins a UnaryExpression (12.5).
    pub fn next_begins_unary(&self) -> bool
        ensures { result ≡ next_is begins_unary self.now.tokens }
    {
        match self.rest().first() {
            Some(token) => classes::begins_unary(token),
            None => false,
        }
    }

    /// Whether the next token begins an expression.
    pub fn next_begins_expression(&self, flags: Flags) -> bool
        ensures { result ≡ next_is (begins_expression flags) self.now.tokens }
    {
        match self.rest().first() {
            Some(token) => classes::begins_expression(token, flags),
            None => false,
        }
    }

    /// Whether the next token follows the `class` of a class with no name (14.5).
    pub fn next_begins_class_tail(&self) -> bool
        ensures { result ≡ next_is begins_class_tail self.now.tokens }
    {
        self.next_is_mark(Punctuator::LeftBrace) | self.next_is_word(b"extends")
    }

    /// Whether the next token follows the name of a property, and no `get` or `set` before another name (12.2.6).
    pub fn next_ends_name(&self) -> bool
        ensures { result ≡ next_is ends_name self.now.tokens }
    {
        match self.rest().first() {
            Some(token) => ends_name(token),
            None => false,
        }
    }

    /// Whether `:` or `(` is next.
    pub fn next_ends_key(&self) -> bool
        ensures { result ≡ next_is (λ t. next_mark marks.Colon t || next_mark marks.LeftParenthesis t) self.now.tokens }
    {
        self.next_is_mark(Punctuator::Colon) | self.next_is_mark(Punctuator::LeftParenthesis)
    }

    /// Whether the next token begins the value of a `yield` before it (14.4).
    pub fn next_begins_yielded(&self) -> bool
        ensures { result ≡ next_is (λ t. not (ends_yield t)) self.now.tokens }
    {
        match self.rest().first() {
            Some(token) => !ends_yield(token),
            None => false,
        }
    }

    /// Whether a line terminator stands before the next token.
    pub fn next_begins_line(&self) -> bool
        ensures { result ≡ next_is begins_line self.now.tokens }
    {
        match self.rest().first() {
            Some(token) => token.newline,
            None => false,
        }
    }

    /// Whether the next token may begin the value of a `return` before it (13.10).
    pub fn next_goes_on(&self) -> bool
        ensures { result ≡ next_is goes_on self.now.tokens }
    {
        match self.rest().first() {
            Some(token) => !(token.newline | is_end(&token.kind) | ends_block(&token.kind)),
            None => false,
        }
    }

    /// Whether the next token ends the statements of a clause (13.12).
    pub fn next_ends_case(&self) -> bool
        ensures { result ≡ next_is ends_case self.now.tokens }
    {
        match self.rest().first() {
            Some(token) => ends_case(token),
            None => false,
        }
    }

    /// Whether the next token begins no expression statement, but a function or a class (13.5).
    pub fn next_begins_declaration(&self) -> bool
        ensures { result ≡ next_is begins_declaration self.now.tokens }
    {
        self.next_is_word(b"function") | self.next_is_word(b"class")
    }

    /// Whether the next token begins the names of an import (15.2.2).
    pub fn next_begins_names(&self) -> bool
        ensures { result ≡ next_is begins_names self.now.tokens }
    {
        self.next_is_mark(Punctuator::Star) | self.next_is_mark(Punctuator::LeftBrace)
    }

    /// Whether a semicolon may be inserted before the next token (11.9.1).
    pub fn is_insertable(&self) -> bool
        ensures { result ≡ is_insertable self.now.tokens }
    {
        match self.rest().first() {
            Some(token) => token.newline | ends_block(&token.kind),
            None => false,
        }
    }

    /// Takes the semicolon that ends a statement, or nothing where one is inserted (11.9).
    #[tactic(auto, using(crate::proofs::Choices::choices), unfolding(crate::specs::Readers::ended))]
    pub fn semicolon(&mut self) -> Result<(), Halt>
        ensures { Reads (ended self.old) result self.new }
    {
        if self.take_end(false) {
            return Ok(());
        }
        if self.is_insertable() {
            return Ok(());
        }
        self.refuse()
    }

    /// The same at the end of a do-while, where one is inserted before any token (11.9.1).
    #[tactic(auto, using(crate::proofs::Choices::choices), unfolding(crate::specs::Readers::ended_do_while))]
    pub fn semicolon_of_do_while(&mut self) -> Result<(), Halt>
        ensures { Reads (ended_do_while self.old) result self.new }
    {
        if self.take_end(true) {
            return Ok(());
        }
        if self.has_next() {
            return Ok(());
        }
        self.refuse()
    }
}
