//! Loops (ECMA-262, 6th edition, 13.7).

ghost use Rattle.es6_cursor.specs.Readers.{inner};
ghost use Rattle.es6_cursor.specs.Reads.{ReadsAs};
ghost use Rattle.es6_read_parts.specs.Handed.{HasExpressions, HasStatements};
ghost use Rattle.es6_read_statements.specs.Enclosed.{enclosed_header};
ghost use Rattle.es6_read_statements.specs.Variables.{header_of};
ghost use Rattle.es6_reading.specs.Parser.{mark};
ghost use Rattle.es6_reading.specs.Statements.{after_bare_variable, after_first_variable, assigned_in_turn, do_statement, first_expression, first_variables, for_expression, for_header, for_statement, for_variables, loop_of, optional, rest_of_for, rest_of_of, while_statement};
ghost use Rattle.std.specs.Prelude.{◌≡◌, IfOk};

use crate::readers::Statements;
use es_text::Span;
use es6_ast::{AssignOperator, VariableKind};
use es6_cursor::{Cursor, Flags, Halt, Nested, Stand, Stop, enter};
use es6_lexer::Punctuator;
use es6_makers::{
    MakesExpressionStatements, MakesForAssignments, MakesForHeaders, MakesForStatements,
    MakesForVariables, MakesLoops, MakesOptionals,
};
use es6_read_parts::{Here, inner_variable};
use std::alloc::{AllocError, Global};

impl<
    G: MakesExpressionStatements,
    E: Fn(&mut Cursor, u16, Flags, Nested) -> Result<G::Reading, Halt>,
    S: Fn(&mut Cursor, u16, Flags, Stand) -> Result<G::Statement, Halt>,
> Statements<'_, G, E, S> {
    /// What follows the word `do` (13.7.2).
    #[tactic(auto, using(es6_cursor::proofs::Rules::statements), unfolding(es6_reading::specs::Statements::do_statement))]
    #[inline(never)]
    pub fn do_statement(&self, cursor: &mut Cursor, begin: u32) -> Result<G::Statement, Halt>
        requires expressions { HasExpressions G.seen E.pre E.post self.now.here }
        requires statements { HasStatements G.seen_statement S.pre S.post self.now.here }
        ensures { ReadsAs G.seen_statement (do_statement (inner self.now.here.room) self.now.here.flags begin cursor.old) result cursor.new }
    {
        let body = self.under(cursor)?;
        cursor.expect_word(b"while")?;
        let test = self.parenthesized(cursor)?;
        cursor.semicolon_of_do_while()?;
        let span = cursor.span_from(begin);
        Ok(G::do_while(cursor.alloc(), span, body, test)?)
    }

    /// What follows the word `while` (13.7.3).
    #[tactic(auto, unfolding(es6_reading::specs::Statements::while_statement))]
    #[inline(never)]
    pub fn while_statement(&self, cursor: &mut Cursor, begin: u32) -> Result<G::Statement, Halt>
        requires expressions { HasExpressions G.seen E.pre E.post self.now.here }
        requires statements { HasStatements G.seen_statement S.pre S.post self.now.here }
        ensures { ReadsAs G.seen_statement (while_statement (inner self.now.here.room) self.now.here.flags begin cursor.old) result cursor.new }
    {
        let test = self.parenthesized(cursor)?;
        let body = self.under(cursor)?;
        let span = cursor.span_from(begin);
        Ok(G::while_statement(cursor.alloc(), span, test, body)?)
    }
}

/// What stands in the parentheses of a for statement (13.7.4), or of a for-of statement (13.7.5).
#[derive(Drop)]
pub enum Header<F: Drop, O: Drop, T: Drop, R: Drop> {
    ForHeader { first: F, test: O, update: O },
    OfHeader { target: T, subject: R },
}

impl<
    G: MakesOptionals,
    E: Fn(&mut Cursor, u16, Flags, Nested) -> Result<G::Reading, Halt>,
    S,
> Statements<'_, G, E, S> {
    /// An expression, if there is one, and the mark behind it.
    #[tactic(auto, using(es6_cursor::proofs::Rules::groups), unfolding(es6_reading::specs::Statements::optional))]
    fn optional(&self, cursor: &mut Cursor, punctuator: Punctuator) -> Result<G::Optional, Halt>
        requires expressions { HasExpressions G.seen E.pre E.post self.now.here }
        ensures { ReadsAs G.seen_optional (optional (inner self.now.here.room) self.now.here.flags (mark punctuator) cursor.old) result cursor.new }
    {
        if cursor.take_mark(punctuator) {
            return Ok(G::absent());
        }
        let value = (self.here.expression)(
            cursor,
            self.here.room,
            self.here.flags.with_in(),
            Nested::Sequence,
        )?;
        cursor.expect_mark(punctuator)?;
        Ok(G::present(value))
    }
}

impl<
    G: MakesForHeaders,
    E: Fn(&mut Cursor, u16, Flags, Nested) -> Result<G::Reading, Halt>,
    S,
> Statements<'_, G, E, S> {
    /// What follows the first semicolon.
    #[tactic(auto, unfolding(es6_reading::specs::Statements::rest_of_for))]
    fn rest_of_for(
        &self,
        cursor: &mut Cursor,
        first: G::ForFirst,
    ) -> Result<Header<G::ForFirst, G::Optional, G::ForTarget, G::Reading>, Halt>
        requires expressions { HasExpressions G.seen E.pre E.post self.now.here }
        ensures { ReadsAs (header_of G.seen_first G.seen_optional G.seen_target G.seen) (rest_of_for (inner self.now.here.room) self.now.here.flags (G.seen_first first) cursor.old) result cursor.new }
    {
        let test = self.optional(cursor, Punctuator::Semicolon)?;
        let update = self.optional(cursor, Punctuator::RightParenthesis)?;
        Ok(Header::ForHeader {
            first,
            test,
            update,
        })
    }

    /// What follows `of`.
    #[tactic(auto, using(es6_cursor::proofs::Rules::groups), unfolding(es6_reading::specs::Statements::rest_of_of))]
    fn rest_of_of(
        &self,
        cursor: &mut Cursor,
        target: G::ForTarget,
    ) -> Result<Header<G::ForFirst, G::Optional, G::ForTarget, G::Reading>, Halt>
        requires expressions { HasExpressions G.seen E.pre E.post self.now.here }
        ensures { ReadsAs (header_of G.seen_first G.seen_optional G.seen_target G.seen) (rest_of_of (inner self.now.here.room) self.now.here.flags (G.seen_target target) cursor.old) result cursor.new }
    {
        let subject = (self.here.expression)(
            cursor,
            self.here.room,
            self.here.flags.with_in(),
            Nested::Assignment,
        )?;
        cursor.expect_mark(Punctuator::RightParenthesis)?;
        Ok(Header::OfHeader { target, subject })
    }
}

impl<
    G: MakesForVariables,
    E: Fn(&mut Cursor, u16, Flags, Nested) -> Result<G::Reading, Halt>,
    S,
> Statements<'_, G, E, S> {
    /// The first semicolon, behind these variables.
    #[tactic(auto, using(es6_cursor::proofs::Rules::groups), unfolding(es6_reading::specs::Statements::first_variables))]
    fn first_variables(
        &self,
        cursor: &mut Cursor,
        begin: u32,
        kind: VariableKind,
        parts: G::Parts,
    ) -> Result<Header<G::ForFirst, G::Optional, G::ForTarget, G::Reading>, Halt>
        requires expressions { HasExpressions G.seen E.pre E.post self.now.here }
        ensures { ReadsAs (header_of G.seen_first G.seen_optional G.seen_target G.seen) (first_variables (inner self.now.here.room) self.now.here.flags begin kind (G.seen_parts parts) cursor.old) result cursor.new }
    {
        let span = cursor.span_from(begin);
        cursor.expect_mark(Punctuator::Semicolon)?;
        let first = G::first_variables(span, kind, parts);
        self.rest_of_for(cursor, first)
    }

    /// The variables behind the first.
    #[tactic(auto, using(es6_cursor::proofs::Rules::groups), unfolding(es6_reading::specs::Statements::after_first_variable, es6_reading::specs::Parser::refused))]
    fn after_first_variable(
        &self,
        cursor: &mut Cursor,
        begin: u32,
        kind: VariableKind,
        first: G::Part,
    ) -> Result<Header<G::ForFirst, G::Optional, G::ForTarget, G::Reading>, Halt>
        requires expressions { HasExpressions G.seen E.pre E.post self.now.here }
        ensures { ReadsAs (header_of G.seen_first G.seen_optional G.seen_target G.seen) (after_first_variable (inner self.now.here.room) self.now.here.flags begin kind (G.seen_part first) cursor.old) result cursor.new }
    {
        if !G::is_whole(&first) {
            return Err(Halt::Stopped(cursor.refused()));
        }
        let mut parts = G::no_parts(cursor.alloc());
        G::push_part(&mut parts, first)?;
        if !cursor.take_mark(Punctuator::Comma) {
            return self.first_variables(cursor, begin, kind, parts);
        }
        let here = Here {
            flags: self.here.flags.without_in(),
            ..self.here
        };
        let more = Statements { here }.more_variables(cursor)?;
        G::append_parts(&mut parts, more)?;
        self.first_variables(cursor, begin, kind, parts)
    }

    /// What follows a variable with no initializer: `of`, or more variables. An `in` is outside the profile.
    #[tactic(auto, using(es6_cursor::proofs::Rules::groups), unfolding(es6_reading::specs::Statements::after_bare_variable))]
    fn after_bare_variable(
        &self,
        cursor: &mut Cursor,
        begin: u32,
        kind: VariableKind,
        first: G::Part,
    ) -> Result<Header<G::ForFirst, G::Optional, G::ForTarget, G::Reading>, Halt>
        requires expressions { HasExpressions G.seen E.pre E.post self.now.here }
        ensures { ReadsAs (header_of G.seen_first G.seen_optional G.seen_target G.seen) (after_bare_variable (inner self.now.here.room) self.now.here.flags begin kind (G.seen_part first) cursor.old) result cursor.new }
    {
        if cursor.next_is_word(b"in") {
            return Err(Halt::Stopped(Stop::Outside(1)));
        }
        if !cursor.next_is_word(b"of") {
            return self.after_first_variable(cursor, begin, kind, first);
        }
        let span = cursor.span_from(begin);
        cursor.expect_word(b"of")?;
        let target = G::declared(span, kind, G::into_pattern(first));
        self.rest_of_of(cursor, target)
    }

    /// What follows the word that declares variables.
    #[tactic(auto, using(es6_cursor::proofs::Rules::groups), unfolding(es6_reading::specs::Statements::for_variables))]
    fn for_variables(
        &self,
        cursor: &mut Cursor,
        begin: u32,
        kind: VariableKind,
    ) -> Result<Header<G::ForFirst, G::Optional, G::ForTarget, G::Reading>, Halt>
        requires expressions { HasExpressions G.seen E.pre E.post self.now.here }
        ensures { ReadsAs (header_of G.seen_first G.seen_optional G.seen_target G.seen) (for_variables (inner self.now.here.room) self.now.here.flags begin kind cursor.old) result cursor.new }
    {
        let first = inner_variable::<G, E>(
            cursor,
            self.here.room,
            self.here.flags.without_in(),
            self.here.expression,
        )?;
        if G::has_default(&first) {
            return self.after_first_variable(cursor, begin, kind, first);
        }
        self.after_bare_variable(cursor, begin, kind, first)
    }
}

impl<
    G: MakesForHeaders,
    E: Fn(&mut Cursor, u16, Flags, Nested) -> Result<G::Reading, Halt>,
    S,
> Statements<'_, G, E, S> {
    #[tactic(auto, using(es6_cursor::proofs::Rules::groups), unfolding(es6_reading::specs::Statements::first_expression))]
    fn first_expression(
        &self,
        cursor: &mut Cursor,
        first: G::Reading,
    ) -> Result<Header<G::ForFirst, G::Optional, G::ForTarget, G::Reading>, Halt>
        requires expressions { HasExpressions G.seen E.pre E.post self.now.here }
        ensures { ReadsAs (header_of G.seen_first G.seen_optional G.seen_target G.seen) (first_expression (inner self.now.here.room) self.now.here.flags (G.seen first).value cursor.old) result cursor.new }
    {
        cursor.expect_mark(Punctuator::Semicolon)?;
        let first = G::first_expression(first);
        self.rest_of_for(cursor, first)
    }
}

impl<
    G: MakesForAssignments,
    E: Fn(&mut Cursor, u16, Flags, Nested) -> Result<G::Reading, Halt>,
    S,
> Statements<'_, G, E, S> {
    /// What follows the `of` behind what is assigned in turn.
    #[tactic(auto, using(es6_cursor::proofs::Rules::groups, es6_cursor::proofs::Rooms::fuel_turns), unfolding(es6_reading::specs::Statements::assigned_in_turn))]
    fn assigned_in_turn(
        &self,
        cursor: &mut Cursor,
        target: G::Reading,
    ) -> Result<Header<G::ForFirst, G::Optional, G::ForTarget, G::Reading>, Halt>
        requires expressions { HasExpressions G.seen E.pre E.post self.now.here }
        ensures { ReadsAs (header_of G.seen_first G.seen_optional G.seen_target G.seen) (assigned_in_turn (inner self.now.here.room) self.now.here.flags (G.seen target).value cursor.old) result cursor.new }
    {
        let target = G::assigned_target(cursor, AssignOperator::Assign, target)?;
        self.rest_of_of(cursor, G::assigned(target))
    }

    /// The header that begins with an expression. An `in` behind a left-hand-side expression is outside the profile.
    #[tactic(auto, using(es6_cursor::proofs::Rules::groups), unfolding(es6_reading::specs::Statements::for_expression))]
    fn for_expression(
        &self,
        cursor: &mut Cursor,
    ) -> Result<Header<G::ForFirst, G::Optional, G::ForTarget, G::Reading>, Halt>
        requires expressions { HasExpressions G.seen E.pre E.post self.now.here }
        ensures { ReadsAs (header_of G.seen_first G.seen_optional G.seen_target G.seen) (for_expression (inner self.now.here.room) self.now.here.flags cursor.old) result cursor.new }
    {
        let first = (self.here.expression)(
            cursor,
            self.here.room,
            self.here.flags.without_in(),
            Nested::Sequence,
        )?;
        if !G::is_left(&first) {
            return self.first_expression(cursor, first);
        }
        if cursor.next_is_word(b"in") {
            return Err(Halt::Stopped(Stop::Outside(1)));
        }
        if cursor.take_word(b"of") {
            return self.assigned_in_turn(cursor, first);
        }
        self.first_expression(cursor, first)
    }
}

impl<
    G: MakesForStatements,
    E: Fn(&mut Cursor, u16, Flags, Nested) -> Result<G::Reading, Halt>,
    S,
> Statements<'_, G, E, S> {
    #[tactic(auto, using(es6_cursor::proofs::Rules::groups), unfolding(es6_reading::specs::Statements::for_header))]
    fn for_header(
        &self,
        cursor: &mut Cursor,
    ) -> Result<Header<G::ForFirst, G::Optional, G::ForTarget, G::Reading>, Halt>
        requires expressions { HasExpressions G.seen E.pre E.post self.now.here }
        ensures { ReadsAs (header_of G.seen_first G.seen_optional G.seen_target G.seen) (for_header (inner self.now.here.room) self.now.here.flags cursor.old) result cursor.new }
    {
        let begin = cursor.begin();
        if cursor.take_mark(Punctuator::Semicolon) {
            return self.rest_of_for(cursor, G::no_first());
        }
        if let Some(kind) = cursor.take_kind() {
            return self.for_variables(cursor, begin, kind);
        }
        self.for_expression(cursor)
    }
}

fn loop_of<G: MakesLoops>(
    alloc: Global,
    span: Span,
    header: Header<G::ForFirst, G::Optional, G::ForTarget, G::Reading>,
    body: G::Statement,
) -> Result<G::Statement, AllocError>
    ensures { IfOk result (λ made. G.seen_statement made ≡ loop_of (header_of G.seen_first G.seen_optional G.seen_target G.seen header) (G.seen_statement body) span) }
{
    match header {
        Header::ForHeader {
            first,
            test,
            update,
        } => G::for_statement(alloc, span, first, test, update, body),
        Header::OfHeader { target, subject } => G::for_of(alloc, span, target, subject, body),
    }
}

impl<
    G: MakesForStatements,
    E: Fn(&mut Cursor, u16, Flags, Nested) -> Result<G::Reading, Halt>,
    S,
> Statements<'_, G, E, S> {
    /// The header in its parentheses.
    #[tactic(auto, using(crate::proofs::Enclosed::in_header, crate::proofs::Enclosed::no_header))]
    fn enclosed_header(
        &self,
        cursor: &mut Cursor,
    ) -> Result<Header<G::ForFirst, G::Optional, G::ForTarget, G::Reading>, Halt>
        requires expressions { HasExpressions G.seen E.pre E.post self.now.here }
        ensures { ReadsAs (header_of G.seen_first G.seen_optional G.seen_target G.seen) (enclosed_header (inner self.now.here.room) self.now.here.flags cursor.old) result cursor.new }
    {
        enter(cursor, self.here.room, Punctuator::LeftParenthesis)?;
        self.for_header(cursor)
    }
}

impl<
    G: MakesForStatements,
    E: Fn(&mut Cursor, u16, Flags, Nested) -> Result<G::Reading, Halt>,
    S: Fn(&mut Cursor, u16, Flags, Stand) -> Result<G::Statement, Halt>,
> Statements<'_, G, E, S> {
    /// What follows the word `for`.
    #[tactic(auto, unfolding(es6_reading::specs::Statements::for_statement, crate::specs::Enclosed::enclosed_header))]
    #[inline(never)]
    pub fn for_statement(&self, cursor: &mut Cursor, begin: u32) -> Result<G::Statement, Halt>
        requires expressions { HasExpressions G.seen E.pre E.post self.now.here }
        requires statements { HasStatements G.seen_statement S.pre S.post self.now.here }
        ensures { ReadsAs G.seen_statement (for_statement (inner self.now.here.room) self.now.here.flags begin cursor.old) result cursor.new }
    {
        let header = self.enclosed_header(cursor)?;
        let body = self.under(cursor)?;
        let span = cursor.span_from(begin);
        Ok(loop_of::<G>(cursor.alloc(), span, header, body)?)
    }
}
