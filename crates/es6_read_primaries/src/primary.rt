//! Primary expressions (ECMA-262, 6th edition, 12.2).

ghost use Rattle.es6_cursor.specs.Readers.{inner};
ghost use Rattle.es6_cursor.specs.Reads.{ReadsAs};
ghost use Rattle.es6_read_parts.specs.Handed.{HasExpressions, HasStatements};
ghost use Rattle.es6_read_primaries.specs.Composed.{array, class_of, function_of, held_or_bracketed, held_or_template, object};
ghost use Rattle.es6_reading.specs.Expressions.{bracketed, composed, no_operand, primary};

use crate::readers::Primaries;
use es6_cursor::{Cursor, Flags, Halt, Nested, Role, Stand, open};
use es6_lexer::Punctuator;
use es6_makers::{
    MakesClasses, MakesElements, MakesExpressions, MakesFunctions, MakesObjects, MakesReadings,
};
use es6_read_parts::{class_after_word, function_after_word};

/// Where no operand begins: a regular expression is reported only where an operator might stand.
#[tactic(auto, unfolding(es6_reading::specs::Parser::no_expression, es6_reading::specs::Parser::no_number))]
fn no_operand<G: MakesReadings>(cursor: &Cursor, role: Role) -> Result<G::Reading, Halt>
    ensures { ReadsAs G.seen (no_operand role cursor.now) result cursor.now }
{
    match role {
        Role::Leading | Role::Among => Err(Halt::Stopped(cursor.no_expression())),
        Role::Heritage | Role::Callee => Err(Halt::Stopped(cursor.no_number())),
    }
}

impl<
    G: MakesElements,
    E: Fn(&mut Cursor, u16, Flags, Nested) -> Result<G::Reading, Halt>,
    S,
> Primaries<'_, G, E, S> {
    /// The elements of an array literal, which begins at the offset (12.2.5).
    #[tactic(auto, using(es6_cursor::proofs::Rules::groups), unfolding(crate::specs::Composed::array))]
    fn array(&self, cursor: &mut Cursor, begin: u32) -> Result<G::Reading, Halt>
        requires expressions { HasExpressions G.seen E.pre E.post self.now.here }
        ensures { ReadsAs G.seen (array (inner self.now.here.room) self.now.here.flags begin cursor.old) result cursor.new }
    {
        let listing = self.elements(cursor)?;
        Ok(G::array(
            cursor.span_from(begin),
            listing.elements,
            listing.ends_in_comma,
        ))
    }
}

impl<
    G: MakesObjects,
    E: Fn(&mut Cursor, u16, Flags, Nested) -> Result<G::Reading, Halt>,
    S: Fn(&mut Cursor, u16, Flags, Stand) -> Result<G::Statement, Halt>,
> Primaries<'_, G, E, S> {
    /// The properties of an object literal, which begins at the offset (12.2.6).
    #[tactic(auto, using(es6_cursor::proofs::Rules::groups), unfolding(crate::specs::Composed::object))]
    fn object(&self, cursor: &mut Cursor, begin: u32) -> Result<G::Reading, Halt>
        requires expressions { HasExpressions G.seen E.pre E.post self.now.here }
        requires statements { HasStatements G.seen_statement S.pre S.post self.now.here }
        ensures { ReadsAs G.seen (object (inner self.now.here.room) self.now.here.flags begin cursor.old) result cursor.new }
    {
        let properties = self.properties(cursor)?;
        Ok(G::object(cursor.span_from(begin), properties))
    }
}

impl<
    G: MakesExpressions,
    E: Fn(&mut Cursor, u16, Flags, Nested) -> Result<G::Reading, Halt>,
    S: Fn(&mut Cursor, u16, Flags, Stand) -> Result<G::Statement, Halt>,
> Primaries<'_, G, E, S> {
    #[tactic(auto, using(es6_cursor::proofs::Rules::groups), unfolding(es6_reading::specs::Expressions::bracketed, crate::specs::Composed::array, crate::specs::Composed::object))]
    fn bracketed(&self, cursor: &mut Cursor, role: Role, begin: u32) -> Result<G::Reading, Halt>
        requires expressions { HasExpressions G.seen E.pre E.post self.now.here }
        requires statements { HasStatements G.seen_statement S.pre S.post self.now.here }
        ensures { ReadsAs G.seen (bracketed (inner self.now.here.room) self.now.here.flags role begin cursor.old) result cursor.new }
    {
        if open(cursor, self.here.room, Punctuator::LeftBracket)? {
            return self.array(cursor, begin);
        }
        if open(cursor, self.here.room, Punctuator::LeftBrace)? {
            return self.object(cursor, begin);
        }
        no_operand::<G>(cursor, role)
    }

    /// What parentheses, brackets and braces hold.
    #[tactic(auto, using(es6_cursor::proofs::Rules::groups), unfolding(crate::specs::Composed::held_or_bracketed))]
    fn held_or_bracketed(
        &self,
        cursor: &mut Cursor,
        role: Role,
        begin: u32,
    ) -> Result<G::Reading, Halt>
        requires expressions { HasExpressions G.seen E.pre E.post self.now.here }
        requires statements { HasStatements G.seen_statement S.pre S.post self.now.here }
        ensures { ReadsAs G.seen (held_or_bracketed (inner self.now.here.room) self.now.here.flags role begin cursor.old) result cursor.new }
    {
        if open(cursor, self.here.room, Punctuator::LeftParenthesis)? {
            return self.grouped(cursor, role, begin);
        }
        self.bracketed(cursor, role, begin)
    }

    #[tactic(auto, using(crate::proofs::Composed::no_template))]
    fn held_or_template(
        &self,
        cursor: &mut Cursor,
        role: Role,
        begin: u32,
    ) -> Result<G::Reading, Halt>
        requires expressions { HasExpressions G.seen E.pre E.post self.now.here }
        requires statements { HasStatements G.seen_statement S.pre S.post self.now.here }
        ensures { ReadsAs G.seen (held_or_template (inner self.now.here.room) self.now.here.flags role begin cursor.old) result cursor.new }
    {
        if let Some(template) = self.template(cursor, begin)? {
            return Ok(G::template_expression(template));
        }
        self.held_or_bracketed(cursor, role, begin)
    }
}

impl<
    G: MakesFunctions,
    E: Fn(&mut Cursor, u16, Flags, Nested) -> Result<G::Reading, Halt>,
    S: Fn(&mut Cursor, u16, Flags, Stand) -> Result<G::Statement, Halt>,
> Primaries<'_, G, E, S> {
    /// What follows `function`, which begins at the offset (14.1).
    #[tactic(auto, using(es6_cursor::proofs::Rules::groups), unfolding(crate::specs::Composed::function_of))]
    fn function(&self, cursor: &mut Cursor, begin: u32) -> Result<G::Reading, Halt>
        requires expressions { HasExpressions G.seen E.pre E.post self.now.here }
        requires statements { HasStatements G.seen_statement S.pre S.post self.now.here }
        ensures { ReadsAs G.seen (function_of (inner self.now.here.room) begin cursor.old) result cursor.new }
    {
        let function = function_after_word::<G, E, S>(
            cursor,
            self.here.room,
            true,
            begin,
            self.here.expression,
            self.here.statement,
        )?;
        Ok(G::function_expression(cursor.alloc(), function)?)
    }
}

impl<
    G: MakesClasses,
    E: Fn(&mut Cursor, u16, Flags, Nested) -> Result<G::Reading, Halt>,
    S: Fn(&mut Cursor, u16, Flags, Stand) -> Result<G::Statement, Halt>,
> Primaries<'_, G, E, S> {
    /// What follows `class`, which begins at the offset (14.5).
    #[tactic(auto, using(es6_cursor::proofs::Rules::groups), unfolding(crate::specs::Composed::class_of))]
    fn class(&self, cursor: &mut Cursor, begin: u32) -> Result<G::Reading, Halt>
        requires expressions { HasExpressions G.seen E.pre E.post self.now.here }
        requires statements { HasStatements G.seen_statement S.pre S.post self.now.here }
        ensures { ReadsAs G.seen (class_of (inner self.now.here.room) self.now.here.flags begin cursor.old) result cursor.new }
    {
        let class = class_after_word::<G, E, S>(
            cursor,
            self.here.room,
            self.here.flags,
            true,
            begin,
            self.here.expression,
            self.here.statement,
        )?;
        Ok(G::class_expression(cursor.alloc(), class)?)
    }
}

impl<
    G: MakesExpressions,
    E: Fn(&mut Cursor, u16, Flags, Nested) -> Result<G::Reading, Halt>,
    S: Fn(&mut Cursor, u16, Flags, Stand) -> Result<G::Statement, Halt>,
> Primaries<'_, G, E, S> {
    /// Functions, classes and templates, and what parentheses, brackets and braces hold.
    #[tactic(auto, using(es6_cursor::proofs::Choices::choices, crate::proofs::Composed::composed_is))]
    fn composed(&self, cursor: &mut Cursor, role: Role, begin: u32) -> Result<G::Reading, Halt>
        requires expressions { HasExpressions G.seen E.pre E.post self.now.here }
        requires statements { HasStatements G.seen_statement S.pre S.post self.now.here }
        ensures { ReadsAs G.seen (composed (inner self.now.here.room) self.now.here.flags role begin cursor.old) result cursor.new }
    {
        if cursor.take_word(b"function") {
            return self.function(cursor, begin);
        }
        if cursor.take_word(b"class") {
            return self.class(cursor, begin);
        }
        self.held_or_template(cursor, role, begin)
    }

    /// A primary expression, which begins at the offset.
    #[tactic(auto, using(es6_cursor::proofs::Choices::choices), unfolding(es6_reading::specs::Expressions::primary))]
    pub fn primary(&self, cursor: &mut Cursor, role: Role, begin: u32) -> Result<G::Reading, Halt>
        requires expressions { HasExpressions G.seen E.pre E.post self.now.here }
        requires statements { HasStatements G.seen_statement S.pre S.post self.now.here }
        ensures { ReadsAs G.seen (primary (inner self.now.here.room) self.now.here.flags role begin cursor.old) result cursor.new }
    {
        if cursor.take_word(b"this") {
            return Ok(G::this(cursor.span_from(begin)));
        }
        if let Some(name) = cursor.take_free_name()? {
            return Ok(G::name(cursor.span_from(begin), name));
        }
        if let Some(literal) = cursor.take_literal()? {
            return Ok(G::literal(cursor.span_from(begin), literal));
        }
        self.composed(cursor, role, begin)
    }
}
