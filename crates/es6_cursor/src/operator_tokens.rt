//! Operators, taken where they are next (ECMA-262, 6th edition, 12).

ghost use Rattle.std.specs.Prelude.{◌≡◌, ◌&&◌, not};
ghost use Rattle.es6_lexer.specs.declared.token.Punctuator.TheVariants as marks;
ghost use Rattle.es6_reading.specs.Parser.{is_mark};
ghost use Rattle.es6_reading.specs.Words.{after_at, assign_at, before_at, is_arrow, unary_at};
ghost use Rattle.es6_cursor.specs.Takes.{Takes, TakesAs, known_as, next_binary};

use crate::classes::is_mark;
use crate::cursor::Cursor;
use crate::operators;
use es6_ast::{AssignOperator, BinaryOperator, Flags, UnaryOperator, UpdateOperator};
use es6_lexer::Punctuator;

impl<'a> Cursor<'a> {
    /// Takes an operator that stands before its operand, if one is next, but not `++` or `--` (12.5).
    pub fn take_unary(&mut self) -> Option<UnaryOperator>
        ensures { TakesAs unary_at self.old result self.new }
    {
        let answer = match self.rest().first() {
            Some(token) => operators::unary(&token.kind),
            None => None,
        };
        self.skip_if(answer.is_some());
        answer
    }

    /// Takes `++` or `--`, if it is next and stands before its operand (12.5.7, 12.5.8).
    pub fn take_before(&mut self) -> Option<UpdateOperator>
        ensures { TakesAs before_at self.old result self.new }
    {
        let answer = match self.rest().first() {
            Some(token) => operators::before(&token.kind),
            None => None,
        };
        self.skip_if(answer.is_some());
        answer
    }

    /// Takes `++` or `--`, if it is next, on the line of its operand before it (12.4).
    pub fn take_after(&mut self) -> Option<UpdateOperator>
        ensures { TakesAs after_at self.old result self.new }
    {
        let answer = match self.rest().first() {
            Some(token) => operators::after(token),
            None => None,
        };
        self.skip_if(answer.is_some());
        answer
    }

    /// Takes an assignment operator, if one is next (12.14).
    pub fn take_assign(&mut self) -> Option<AssignOperator>
        ensures { TakesAs assign_at self.old result self.new }
    {
        let answer = match self.rest().first() {
            Some(token) => operators::assign(&token.kind),
            None => None,
        };
        self.skip_if(answer.is_some());
        answer
    }

    /// The operator between two operands that is next, if one is (12.6 to 12.12). Where the expression has no `in`, that is
    /// none.
    pub fn next_binary(&self, flags: Flags) -> Option<BinaryOperator>
        ensures { result ≡ known_as (next_binary flags) self.now.tokens }
    {
        match self.rest().first() {
            Some(token) => operators::next_binary(&token.kind, flags),
            None => None,
        }
    }

    /// Takes `=>`, if it is next, on the line of the token before it (14.2).
    pub fn take_arrow(&mut self) -> bool
        ensures { Takes is_arrow self.old result self.new }
    {
        let found = match self.rest().first() {
            Some(token) => is_mark(&token.kind, Punctuator::Arrow) & !token.newline,
            None => false,
        };
        self.skip_if(found);
        found
    }

    /// Takes `*`, if it is next, on the line of the token before it (14.4).
    pub fn take_star_on_line(&mut self) -> bool
        ensures { Takes (λ t. is_mark marks.Star t.kind && not t.newline) self.old result self.new }
    {
        let found = match self.rest().first() {
            Some(token) => is_mark(&token.kind, Punctuator::Star) & !token.newline,
            None => false,
        };
        self.skip_if(found);
        found
    }
}
