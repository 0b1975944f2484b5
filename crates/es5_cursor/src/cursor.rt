//! A cursor over tokens, which contracts see as the tokens that are left and the end of the last one that was taken.

ghost use Rattle.std.specs.Prelude.{◌≡◌, map, true, IfOk};
ghost use Rattle.es5_ast.specs.Grammar.{begin_of, ends};
ghost use Rattle.es5_tokens.specs.Tokens.{token5};
ghost use Rattle.es5_tokens.specs.Punctuators.{spelling};
ghost use Rattle.es5_reading.specs.Parser.{next_is, next_mark, next_word, mark, word, take_as};
ghost use Rattle.es5_reading.specs.Expressions.{accessor_at, after_at, any_name, assign_at, before_at, begins_division, begins_expression, begins_operand, free_name, key_at, literal_at, unary_at};
ghost use Rattle.es5_cursor.specs.Takes.{Takes, TakesAs, known_as, next_binary, passed};
ghost use Rattle.es5_cursor.specs.Reads.{Reads, Skips};

use crate::classes::{is_mark, is_word};
use crate::halt::{Halt, Stop};
use crate::{classes, operators};
use es_text::Span;
use es5_ast::{AssignOperator5, BinaryOperator5, Key5, Literal5, UnaryOperator5, UpdateOperator5};
use es5_tokens::{Punctuator, Token};
use shared_text::Name;
use std::alloc::{AllocError, Global};
use std::marker::Model;

#[derive(Drop)]
pub struct Cursor<'a> {
    alloc: Global,
    rest: &'a [Token],
    last: u32,
}

impl<'a> Model for Cursor<'a> {
    ghost use Rattle.std.specs.Prelude.{map};
    ghost use Rattle.es5_tokens.specs.Tokens.{token5};
    ghost use Rattle.es5_reading.specs.Parser.{Input5};

    ghost Value = { Input5 };

    ghost view = { λ c. record { tokens = map token5 c.rest.now; last = c.last } };
}

impl<'a> Cursor<'a> {
    /// A cursor before the first of these tokens.
    pub fn new(alloc: Global, tokens: &'a [Token]) -> Cursor<'a>
        ensures { result ≡ record { tokens = map token5 tokens.now; last = 0 } }
    {
        Cursor {
            alloc,
            rest: tokens,
            last: 0,
        }
    }

    pub fn alloc(&self) -> Global {
        self.alloc
    }

    /// The tokens that are left.
    pub fn rest(&self) -> &'a [Token]
        ensures { map token5 result.now ≡ self.now.tokens }
    {
        self.rest
    }

    /// The offset of the next token, or 0 at the end.
    pub fn begin(&self) -> u32
        ensures { result ≡ begin_of self.now.tokens }
    {
        match self.rest.first() {
            Some(token) => token.begin,
            None => 0,
        }
    }

    /// The span from an offset to the end of the last token that was taken.
    pub fn span_from(&self, begin: u32) -> Span
        ensures { result ≡ record { begin = begin; end = self.now.last } }
    {
        Span {
            begin,
            end: self.last,
        }
    }

    /// Whether the next token is the mark.
    pub fn next_is_mark(&self, punctuator: Punctuator) -> bool
        ensures { result ≡ next_is (next_mark (spelling punctuator)) self.now.tokens }
    {
        match self.rest.first() {
            Some(token) => is_mark(&token.kind, punctuator),
            None => false,
        }
    }

    /// Whether the next token is the word.
    #[inline(never)]
    pub fn next_is_word(&self, name: &[u8]) -> bool
        ensures { result ≡ next_is (next_word name.now) self.now.tokens }
    {
        match self.rest.first() {
            Some(token) => is_word(&token.kind, name),
            None => false,
        }
    }

    /// Whether the next token is `/` or `/=`.
    pub fn next_is_division(&self) -> bool
        ensures { result ≡ next_is begins_division self.now.tokens }
    {
        match self.rest.first() {
            Some(token) => classes::begins_division(&token.kind),
            None => false,
        }
    }

    /// Whether the next token begins an expression after `new` (11.2).
    pub fn next_begins_operand(&self) -> bool
        ensures { result ≡ next_is begins_operand self.now.tokens }
    {
        match self.rest.first() {
            Some(token) => classes::begins_operand(token),
            None => false,
        }
    }

    /// Whether the next token begins an expression.
    pub fn next_begins_expression(&self) -> bool
        ensures { result ≡ next_is begins_expression self.now.tokens }
    {
        match self.rest.first() {
            Some(token) => classes::begins_expression(token),
            None => false,
        }
    }

    /// Takes the next token if it is the mark.
    pub fn take_mark(&mut self, punctuator: Punctuator) -> bool
        ensures { Takes (next_mark (spelling punctuator)) self.old result self.new }
    {
        let found = self.next_is_mark(punctuator);
        self.skip_if(found);
        found
    }

    /// Takes the next token if it is the word.
    #[inline(never)]
    pub fn take_word(&mut self, name: &[u8]) -> bool
        ensures { Takes (next_word name.now) self.old result self.new }
    {
        let found = self.next_is_word(name);
        self.skip_if(found);
        found
    }

    /// Takes the semicolon that ends a statement, if it is next (7.9).
    pub fn take_end(&mut self) -> bool
        ensures { Takes (λ t. ends t.kind) self.old result self.new }
    {
        let found = match self.rest.first() {
            Some(token) => classes::is_end(&token.kind),
            None => false,
        };
        self.skip_if(found);
        found
    }

    /// Takes the mark.
    #[inline(never)]
    pub fn expect_mark(&mut self, punctuator: Punctuator) -> Result<(), Halt>
        ensures { Skips (take_as (mark (spelling punctuator)) self.old) result self.new }
    {
        if self.take_mark(punctuator) {
            Ok(())
        } else {
            Err(Halt::Stopped(Stop::Syntax))
        }
    }

    /// Takes the word.
    #[inline(never)]
    pub fn expect_word(&mut self, name: &[u8]) -> Result<(), Halt>
        ensures { Skips (take_as (word name.now) self.old) result self.new }
    {
        if self.take_word(name) {
            Ok(())
        } else {
            Err(Halt::Stopped(Stop::Syntax))
        }
    }

    /// The operator between two operands that is next, if one is (11.5 to 11.11). Where no `in` may stand bare, that is none.
    pub fn next_binary(&self, no_in: bool) -> Option<BinaryOperator5>
        ensures { result ≡ known_as (next_binary no_in) self.now.tokens }
    {
        match self.rest.first() {
            Some(token) => operators::next_binary(&token.kind, no_in),
            None => None,
        }
    }

    /// Takes the next token, if there is one.
    pub fn take(&mut self)
        ensures { self.new ≡ passed true self.old }
    {
        self.skip_if(true);
    }

    /// Takes the next token, if there is one.
    pub fn skip(&mut self)
        ensures { self.new ≡ passed true self.old }
    {
        self.skip_if(true);
    }

    fn skip_if(&mut self, found: bool)
        ensures { self.new ≡ passed found self.old }
    {
        if found && let Some((token, rest)) = self.rest.split_first() {
            self.last = token.end;
            self.rest = rest;
        }
    }

    /// Takes an identifier, if one is next (7.6).
    #[inline(never)]
    pub fn take_free_name(&mut self) -> Result<Option<Name>, AllocError>
        ensures { IfOk result (λ answer. TakesAs free_name self.old answer self.new) }
    {
        let answer = match self.rest.first() {
            Some(token) => classes::free_name(self.alloc, &token.kind)?,
            None => None,
        };
        self.skip_if(answer.is_some());
        Ok(answer)
    }

    /// Takes an identifier (7.6).
    #[inline(never)]
    pub fn expect_free_name(&mut self) -> Result<Name, Halt>
        ensures { Reads (take_as free_name self.old) result self.new }
    {
        match self.take_free_name()? {
            Some(found) => Ok(found),
            None => Err(Halt::Stopped(Stop::Syntax)),
        }
    }

    /// Takes an identifier or a reserved word, if one is next (7.6).
    pub fn take_any_name(&mut self) -> Result<Option<Name>, AllocError>
        ensures { IfOk result (λ answer. TakesAs any_name self.old answer self.new) }
    {
        let answer = match self.rest.first() {
            Some(token) => classes::any_name(self.alloc, &token.kind)?,
            None => None,
        };
        self.skip_if(answer.is_some());
        Ok(answer)
    }

    /// Takes an identifier or a reserved word (7.6).
    #[inline(never)]
    pub fn expect_any_name(&mut self) -> Result<Name, Halt>
        ensures { Reads (take_as any_name self.old) result self.new }
    {
        match self.take_any_name()? {
            Some(found) => Ok(found),
            None => Err(Halt::Stopped(Stop::Syntax)),
        }
    }

    /// Takes the name of a property, if one is next (11.1.5).
    pub fn take_key(&mut self) -> Result<Option<Key5>, AllocError>
        ensures { IfOk result (λ answer. TakesAs key_at self.old answer self.new) }
    {
        let answer = match self.rest.first() {
            Some(token) => classes::key(self.alloc, &token.kind)?,
            None => None,
        };
        self.skip_if(answer.is_some());
        Ok(answer)
    }

    /// Takes the name of a property (11.1.5).
    #[inline(never)]
    pub fn expect_key(&mut self) -> Result<Key5, Halt>
        ensures { Reads (take_as key_at self.old) result self.new }
    {
        match self.take_key()? {
            Some(found) => Ok(found),
            None => Err(Halt::Stopped(Stop::Syntax)),
        }
    }

    /// Takes a literal, if one is next (7.8).
    #[inline(never)]
    pub fn take_literal(&mut self) -> Result<Option<Literal5>, AllocError>
        ensures { IfOk result (λ answer. TakesAs literal_at self.old answer self.new) }
    {
        let answer = match self.rest.first() {
            Some(token) => classes::literal(self.alloc, &token.kind)?,
            None => None,
        };
        self.skip_if(answer.is_some());
        Ok(answer)
    }

    /// Takes `get` or `set`, if one is next (11.1.5). The answer says which: `set` is true.
    pub fn take_accessor(&mut self) -> Option<bool>
        ensures { TakesAs accessor_at self.old result self.new }
    {
        let answer = match self.rest.first() {
            Some(token) => classes::accessor(&token.kind),
            None => None,
        };
        self.skip_if(answer.is_some());
        answer
    }

    /// Takes an operator that stands before its operand, if one is next, but not `++` or `--` (11.4).
    pub fn take_unary(&mut self) -> Option<UnaryOperator5>
        ensures { TakesAs unary_at self.old result self.new }
    {
        let answer = match self.rest.first() {
            Some(token) => operators::unary(&token.kind),
            None => None,
        };
        self.skip_if(answer.is_some());
        answer
    }

    /// Takes `++` or `--`, if it is next and stands before its operand (11.4.4, 11.4.5).
    pub fn take_before(&mut self) -> Option<UpdateOperator5>
        ensures { TakesAs before_at self.old result self.new }
    {
        let answer = match self.rest.first() {
            Some(token) => operators::before(&token.kind),
            None => None,
        };
        self.skip_if(answer.is_some());
        answer
    }

    /// Takes `++` or `--`, if it is next, on the line of its operand before it (11.3).
    pub fn take_after(&mut self) -> Option<UpdateOperator5>
        ensures { TakesAs after_at self.old result self.new }
    {
        let answer = match self.rest.first() {
            Some(token) => operators::after(token),
            None => None,
        };
        self.skip_if(answer.is_some());
        answer
    }

    /// Takes an assignment operator, if one is next (11.13).
    pub fn take_assign(&mut self) -> Option<AssignOperator5>
        ensures { TakesAs assign_at self.old result self.new }
    {
        let answer = match self.rest.first() {
            Some(token) => operators::assign(&token.kind),
            None => None,
        };
        self.skip_if(answer.is_some());
        answer
    }
}
