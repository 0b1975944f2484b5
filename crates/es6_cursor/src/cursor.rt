//! A cursor over tokens, which contracts see as the tokens that are left and the end of the last one that was taken.

ghost use Rattle.std.specs.Prelude.{◌≡◌, map, true, false};
ghost use Rattle.es_text.specs.declared.Span.{Span};
ghost use Rattle.es6_ast.specs.Tokens.{begin_of, read};
ghost use Rattle.es6_ast.specs.Grammar.{ends};
ghost use Rattle.es6_reading.specs.Parser.{mark, next_is, next_mark, next_word, take_as, word};
ghost use Rattle.es6_cursor.specs.Takes.{Takes, TakesAs, passed, place_of};
ghost use Rattle.es6_cursor.specs.Reads.{Reads, Skips};

use crate::classes::{is_end, is_mark, is_word};
use crate::halt::Halt;
use es_text::Span;
use es6_lexer::{Punctuator, Token};
use std::alloc::Global;
use std::marker::Model;

#[derive(Drop)]
pub struct Cursor<'a> {
    alloc: Global,
    rest: &'a [Token],
    last: u32,
}

impl<'a> Model for Cursor<'a> {
    ghost use Rattle.std.specs.Prelude.{map};
    ghost use Rattle.es6_ast.specs.Tokens.{read};
    ghost use Rattle.es6_reading.specs.Parser.{Input};

    ghost Value = { Input };

    ghost view = { λ c. record { tokens = map read c.rest.now; last = c.last } };
}

impl<'a> Cursor<'a> {
    /// A cursor before the first of these tokens.
    pub fn new(alloc: Global, tokens: &'a [Token]) -> Cursor<'a>
        ensures { result ≡ record { tokens = map read tokens.now; last = 0 } }
    {
        Cursor {
            alloc,
            rest: tokens,
            last: 0,
        }
    }

    pub fn alloc(&self) -> Global {
        self.alloc
    }

    /// The tokens that are left.
    pub fn rest(&self) -> &'a [Token]
        ensures { map read result.now ≡ self.now.tokens }
    {
        self.rest
    }

    /// The offset of the next token, or 0 at the end.
    pub fn begin(&self) -> u32
        ensures { result ≡ begin_of self.now.tokens }
    {
        match self.rest.first() {
            Some(token) => token.span.begin,
            None => 0,
        }
    }

    /// The end of the last token that was taken.
    pub fn last_end(&self) -> u32
        ensures { result ≡ self.now.last }
    {
        self.last
    }

    /// The span from an offset to the end of the last token that was taken.
    pub fn span_from(&self, begin: u32) -> Span
        ensures { result ≡ record { begin = begin; end = self.now.last } }
    {
        Span {
            begin,
            end: self.last,
        }
    }

    /// Whether the next token is the mark.
    pub fn next_is_mark(&self, punctuator: Punctuator) -> bool
        ensures { result ≡ next_is (next_mark punctuator) self.now.tokens }
    {
        match self.rest.first() {
            Some(token) => is_mark(&token.kind, punctuator),
            None => false,
        }
    }

    /// Whether the next token is the word.
    pub fn next_is_word(&self, name: &[u8]) -> bool
        ensures { result ≡ next_is (next_word name.now) self.now.tokens }
    {
        match self.rest.first() {
            Some(token) => is_word(&token.kind, name),
            None => false,
        }
    }

    /// Takes the next token if it is the mark.
    pub fn take_mark(&mut self, punctuator: Punctuator) -> bool
        ensures { Takes (next_mark punctuator) self.old result self.new }
    {
        let found = self.next_is_mark(punctuator);
        self.skip_if(found);
        found
    }

    /// Takes the next token if it is the word.
    pub fn take_word(&mut self, name: &[u8]) -> bool
        ensures { Takes (next_word name.now) self.old result self.new }
    {
        let found = self.next_is_word(name);
        self.skip_if(found);
        found
    }

    /// Takes the next token if it is the mark, and says where it stands.
    pub fn take_mark_at(&mut self, punctuator: Punctuator) -> Option<Span>
        ensures { TakesAs (place_of (next_mark punctuator)) self.old result self.new }
    {
        let answer = match self.rest.first() {
            Some(token) if is_mark(&token.kind, punctuator) => Some(token.span),
            _ => None,
        };
        self.skip_if(answer.is_some());
        answer
    }

    /// Takes the next token if it is the word, and says where it stands.
    pub fn take_word_at(&mut self, name: &[u8]) -> Option<Span>
        ensures { TakesAs (place_of (next_word name.now)) self.old result self.new }
    {
        let answer = match self.rest.first() {
            Some(token) if is_word(&token.kind, name) => Some(token.span),
            _ => None,
        };
        self.skip_if(answer.is_some());
        answer
    }

    /// Takes the semicolon that ends a statement, if it is next (11.9).
    pub fn take_end(&mut self, do_while: bool) -> bool
        ensures { Takes (λ t. ends do_while t.kind) self.old result self.new }
    {
        let found = match self.rest.first() {
            Some(token) => is_end(&token.kind),
            None => false,
        };
        self.skip_if(found);
        found
    }

    /// Takes the mark.
    pub fn expect_mark(&mut self, punctuator: Punctuator) -> Result<(), Halt>
        ensures { Skips (take_as (mark punctuator) self.old) result self.new }
    {
        if self.take_mark(punctuator) {
            Ok(())
        } else {
            Err(Halt::Stopped(self.refused()))
        }
    }

    /// Takes the word.
    pub fn expect_word(&mut self, name: &[u8]) -> Result<(), Halt>
        ensures { Skips (take_as (word name.now) self.old) result self.new }
    {
        if self.take_word(name) {
            Ok(())
        } else {
            Err(Halt::Stopped(self.refused()))
        }
    }

    /// Takes the next token, if there is one.
    pub fn take(&mut self)
        ensures { self.new ≡ passed true self.old }
    {
        self.skip_if(true);
    }

    pub(crate) fn skip_if(&mut self, found: bool)
        ensures { self.new ≡ passed found self.old }
    {
        if found && let Some((token, rest)) = self.rest.split_first() {
            self.last = token.span.end;
            self.rest = rest;
        }
    }
}
