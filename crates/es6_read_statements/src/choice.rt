//! Statements, each by its first token (ECMA-262, 6th edition, 13).

ghost use Rattle.es6_ast.specs.declared.tree.Expression.TheVariants as expr;
ghost use Rattle.es6_cursor.specs.Readers.{inner};
ghost use Rattle.es6_cursor.specs.Reads.{ReadsAs};
ghost use Rattle.es6_read_parts.specs.Handed.{HasOuterExpressions, HasStatements};
ghost use Rattle.es6_read_statements.specs.Variables.{return_or_more};
ghost use Rattle.es6_reading.specs.Statements.{block_statement, compound_statement, expression_end, expression_statement, jump_statement, label_or_end, labelled, on_declaration, on_more, plain_statement, statement as any_statement};
ghost use Rattle.std.specs.Prelude.{Some, ◌<◌};

use crate::jumps::{break_statement, continue_statement, debugger_statement};
use crate::readers::Statements;
use es6_ast::{Identifier, VariableKind};
use es6_cursor::{Cursor, Flags, Halt, Nested, Stand, Stop};
use es6_lexer::Punctuator;
use es6_makers::{
    MakesBlocks, MakesDeclarations, MakesExpressionStatements, MakesSimpleStatements,
    MakesStatements,
};
use es6_read_parts::block;

impl<
    G: MakesBlocks,
    E,
    S: Fn(&mut Cursor, u16, Flags, Stand) -> Result<G::Statement, Halt>,
> Statements<'_, G, E, S> {
    #[tactic(auto, unfolding(es6_reading::specs::Statements::block_statement))]
    #[inline(never)]
    fn block_statement(&self, cursor: &mut Cursor) -> Result<G::Statement, Halt>
        requires statements { HasStatements G.seen_statement S.pre S.post self.now.here }
        ensures { ReadsAs G.seen_statement (block_statement (inner self.now.here.room) self.now.here.flags cursor.old) result cursor.new }
    {
        Ok(G::block_statement(block::<G, S>(
            cursor,
            self.here.room,
            self.here.flags,
            self.here.statement,
        )?))
    }
}

/// The end of an expression as a statement (13.5).
#[tactic(auto, using(es6_cursor::proofs::Rules::statements), unfolding(es6_reading::specs::Statements::expression_end))]
#[inline(never)]
fn expression_end<G: MakesExpressionStatements>(
    cursor: &mut Cursor,
    room: u16,
    begin: u32,
    value: G::Reading,
) -> Result<G::Statement, Halt>
    ensures { ReadsAs G.seen_statement (expression_end (inner room) begin (G.seen value).value cursor.old) result cursor.new }
{
    cursor.semicolon()?;
    Ok(G::expression_statement(cursor.span_from(begin), value))
}

/// The end of a name as a statement (13.5).
#[tactic(auto, using(es6_cursor::proofs::Rules::statements), unfolding(es6_reading::specs::Statements::expression_end))]
#[inline(never)]
fn name_end<G: MakesSimpleStatements>(
    cursor: &mut Cursor,
    room: u16,
    begin: u32,
    name: Identifier,
) -> Result<G::Statement, Halt>
    ensures { ReadsAs G.seen_statement (expression_end (inner room) begin (expr.Name name.span name.name) cursor.old) result cursor.new }
{
    cursor.semicolon()?;
    Ok(G::name_statement(cursor.span_from(begin), name))
}

impl<
    G: MakesSimpleStatements,
    E,
    S: Fn(&mut Cursor, u16, Flags, Stand) -> Result<G::Statement, Halt>,
> Statements<'_, G, E, S> {
    /// The statement behind a label and its colon (13.13).
    #[tactic(auto, unfolding(es6_reading::specs::Statements::labelled))]
    #[inline(never)]
    fn labelled(
        &self,
        cursor: &mut Cursor,
        begin: u32,
        label: Identifier,
    ) -> Result<G::Statement, Halt>
        requires statements { HasStatements G.seen_statement S.pre S.post self.now.here }
        ensures { ReadsAs G.seen_statement (labelled (inner self.now.here.room) self.now.here.flags begin label cursor.old) result cursor.new }
    {
        let statement = (self.here.statement)(
            cursor,
            self.here.room,
            self.here.flags,
            Stand::Labelled,
        )?;
        let span = cursor.span_from(begin);
        Ok(G::labelled(cursor.alloc(), span, label, statement)?)
    }

    /// What follows an identifier that is the whole of an expression: it may be a label.
    #[tactic(auto, using(es6_cursor::proofs::Rules::groups))]
    fn label_or_end(
        &self,
        cursor: &mut Cursor,
        begin: u32,
        label: Identifier,
    ) -> Result<G::Statement, Halt>
        requires statements { HasStatements G.seen_statement S.pre S.post self.now.here }
        ensures { ReadsAs G.seen_statement (label_or_end (inner self.now.here.room) self.now.here.flags begin (Some label) (expr.Name label.span label.name) cursor.old) result cursor.new }
    {
        if cursor.take_mark(Punctuator::Colon) {
            return self.labelled(cursor, begin, label);
        }
        name_end::<G>(cursor, self.here.room, begin, label)
    }
}

impl<
    G: MakesExpressionStatements,
    E: Fn(&mut Cursor, u16, Flags, Nested) -> Result<G::Reading, Halt>,
    S: Fn(&mut Cursor, u16, Flags, Stand) -> Result<G::Statement, Halt>,
> Statements<'_, G, E, S> {
    /// An expression as a statement, or a statement with a label.
    #[tactic(auto, unfolding(es6_reading::specs::Statements::expression_statement))]
    fn expression_statement(&self, cursor: &mut Cursor, begin: u32) -> Result<G::Statement, Halt>
        requires below { self.now.here.room < 65535 }
        requires expressions { HasOuterExpressions G.seen E.pre E.post self.now.here }
        requires statements { HasStatements G.seen_statement S.pre S.post self.now.here }
        ensures { ReadsAs G.seen_statement (expression_statement (inner self.now.here.room) self.now.here.flags begin cursor.old) result cursor.new }
    {
        match G::into_label(self.sequence(cursor)?) {
            Ok(label) => self.label_or_end(cursor, begin, label),
            Err(value) => expression_end::<G>(cursor, self.here.room, begin, value),
        }
    }

    /// An expression statement. A `with` is outside the profile.
    #[tactic(auto, using(es6_cursor::proofs::Rules::groups), unfolding(es6_reading::specs::Statements::plain_statement))]
    fn plain_statement(&self, cursor: &mut Cursor, begin: u32) -> Result<G::Statement, Halt>
        requires below { self.now.here.room < 65535 }
        requires expressions { HasOuterExpressions G.seen E.pre E.post self.now.here }
        requires statements { HasStatements G.seen_statement S.pre S.post self.now.here }
        ensures { ReadsAs G.seen_statement (plain_statement (inner self.now.here.room) self.now.here.flags begin cursor.old) result cursor.new }
    {
        if cursor.next_is_word(b"with") {
            return Err(Halt::Stopped(Stop::Outside(5)));
        }
        if cursor.next_begins_declaration() {
            return Err(Halt::Stopped(Stop::Syntax));
        }
        self.expression_statement(cursor, begin)
    }
}

impl<
    G: MakesDeclarations,
    E: Fn(&mut Cursor, u16, Flags, Nested) -> Result<G::Reading, Halt>,
    S: Fn(&mut Cursor, u16, Flags, Stand) -> Result<G::Statement, Halt>,
> Statements<'_, G, E, S> {
    /// A declaration, or an expression statement.
    #[tactic(auto, using(es6_cursor::proofs::Rules::groups, es6_read_parts::proofs::Outer::outer_expressions))]
    #[inline(never)]
    fn listed_statement(&self, cursor: &mut Cursor, begin: u32) -> Result<G::Statement, Halt>
        requires below { self.now.here.room < 65535 }
        requires expressions { HasOuterExpressions G.seen E.pre E.post self.now.here }
        requires statements { HasStatements G.seen_statement S.pre S.post self.now.here }
        ensures { ReadsAs G.seen_statement (on_declaration (inner self.now.here.room) self.now.here.flags begin (plain_statement (inner self.now.here.room) self.now.here.flags begin) cursor.old) result cursor.new }
    {
        if cursor.take_word(b"function") {
            return self.function_declaration(cursor, begin);
        }
        if cursor.take_word(b"class") {
            return self.class_declaration(cursor, begin);
        }
        if let Some(kind) = cursor.take_lexical_kind() {
            return self.variables_statement(cursor, begin, kind);
        }
        self.plain_statement(cursor, begin)
    }

    /// A function that may be declared under a label, or an expression statement.
    #[tactic(auto, using(es6_cursor::proofs::Rules::groups, es6_read_parts::proofs::Outer::outer_expressions))]
    #[inline(never)]
    fn under_label(&self, cursor: &mut Cursor, begin: u32) -> Result<G::Statement, Halt>
        requires below { self.now.here.room < 65535 }
        requires expressions { HasOuterExpressions G.seen E.pre E.post self.now.here }
        requires statements { HasStatements G.seen_statement S.pre S.post self.now.here }
        ensures { ReadsAs G.seen_statement (on_more (inner self.now.here.room) self.now.here.flags Stand.Labelled begin (plain_statement (inner self.now.here.room) self.now.here.flags begin) cursor.old) result cursor.new }
    {
        if cursor.take_word(b"function") {
            return self.labelled_function(cursor, begin);
        }
        self.plain_statement(cursor, begin)
    }

    /// What else may stand there.
    #[tactic(auto, using(es6_cursor::proofs::Rules::groups))]
    fn other_statement(
        &self,
        cursor: &mut Cursor,
        stand: Stand,
        begin: u32,
    ) -> Result<G::Statement, Halt>
        requires below { self.now.here.room < 65535 }
        requires expressions { HasOuterExpressions G.seen E.pre E.post self.now.here }
        requires statements { HasStatements G.seen_statement S.pre S.post self.now.here }
        ensures { ReadsAs G.seen_statement (on_more (inner self.now.here.room) self.now.here.flags stand begin (plain_statement (inner self.now.here.room) self.now.here.flags begin) cursor.old) result cursor.new }
    {
        match stand {
            Stand::Listed => self.listed_statement(cursor, begin),
            Stand::Under => self.plain_statement(cursor, begin),
            Stand::Labelled => self.under_label(cursor, begin),
        }
    }

    /// A `return` where one may stand, or what else may stand there.
    #[tactic(auto, using(es6_cursor::proofs::Rules::groups))]
    fn return_or_other(
        &self,
        cursor: &mut Cursor,
        stand: Stand,
        begin: u32,
    ) -> Result<G::Statement, Halt>
        requires below { self.now.here.room < 65535 }
        requires expressions { HasOuterExpressions G.seen E.pre E.post self.now.here }
        requires statements { HasStatements G.seen_statement S.pre S.post self.now.here }
        ensures { ReadsAs G.seen_statement (return_or_more (inner self.now.here.room) self.now.here.flags stand begin cursor.old) result cursor.new }
    {
        if !self.here.flags.has_return {
            return self.other_statement(cursor, stand, begin);
        }
        if cursor.take_word(b"return") {
            return self.return_statement(cursor, begin);
        }
        self.other_statement(cursor, stand, begin)
    }

    #[tactic(auto, using(es6_cursor::proofs::Rules::groups), unfolding(es6_reading::specs::Statements::jump_statement))]
    #[inline(never)]
    fn jump_statement(
        &self,
        cursor: &mut Cursor,
        stand: Stand,
        begin: u32,
    ) -> Result<G::Statement, Halt>
        requires below { self.now.here.room < 65535 }
        requires expressions { HasOuterExpressions G.seen E.pre E.post self.now.here }
        requires statements { HasStatements G.seen_statement S.pre S.post self.now.here }
        ensures { ReadsAs G.seen_statement (jump_statement (inner self.now.here.room) self.now.here.flags stand begin cursor.old) result cursor.new }
    {
        if cursor.take_word(b"continue") {
            return continue_statement::<G>(cursor, self.here.room, begin);
        }
        if cursor.take_word(b"break") {
            return break_statement::<G>(cursor, self.here.room, begin);
        }
        if cursor.take_word(b"throw") {
            return self.throw_statement(cursor, begin);
        }
        if cursor.take_word(b"debugger") {
            return debugger_statement::<G>(cursor, self.here.room, begin);
        }
        self.return_or_other(cursor, stand, begin)
    }
}

impl<
    G: MakesStatements,
    E: Fn(&mut Cursor, u16, Flags, Nested) -> Result<G::Reading, Halt>,
    S: Fn(&mut Cursor, u16, Flags, Stand) -> Result<G::Statement, Halt>,
> Statements<'_, G, E, S> {
    #[tactic(auto, using(es6_cursor::proofs::Rules::groups, es6_read_parts::proofs::Outer::outer_expressions), unfolding(es6_reading::specs::Statements::compound_statement))]
    #[inline(never)]
    fn compound_statement(
        &self,
        cursor: &mut Cursor,
        stand: Stand,
        begin: u32,
    ) -> Result<G::Statement, Halt>
        requires below { self.now.here.room < 65535 }
        requires expressions { HasOuterExpressions G.seen E.pre E.post self.now.here }
        requires statements { HasStatements G.seen_statement S.pre S.post self.now.here }
        ensures { ReadsAs G.seen_statement (compound_statement (inner self.now.here.room) self.now.here.flags stand begin cursor.old) result cursor.new }
    {
        if cursor.take_word(b"do") {
            return self.do_statement(cursor, begin);
        }
        if cursor.take_word(b"while") {
            return self.while_statement(cursor, begin);
        }
        if cursor.take_word(b"for") {
            return self.for_statement(cursor, begin);
        }
        if cursor.take_word(b"switch") {
            return self.switch_statement(cursor, begin);
        }
        if cursor.take_word(b"try") {
            return self.try_statement(cursor, begin);
        }
        self.jump_statement(cursor, stand, begin)
    }

    /// A statement, or what else may stand there.
    #[tactic(auto, using(es6_cursor::proofs::Rules::groups, es6_read_parts::proofs::Outer::outer_expressions), unfolding(es6_reading::specs::Statements::statement))]
    pub fn statement(&self, cursor: &mut Cursor, stand: Stand) -> Result<G::Statement, Halt>
        requires below { self.now.here.room < 65535 }
        requires expressions { HasOuterExpressions G.seen E.pre E.post self.now.here }
        requires statements { HasStatements G.seen_statement S.pre S.post self.now.here }
        ensures { ReadsAs G.seen_statement (any_statement (inner self.now.here.room) self.now.here.flags stand cursor.old) result cursor.new }
    {
        let begin = cursor.begin();
        if cursor.next_is_mark(Punctuator::LeftBrace) {
            return self.block_statement(cursor);
        }
        if cursor.next_is_word(b"if") {
            return self.if_statement(cursor, begin);
        }
        if cursor.take_mark(Punctuator::Semicolon) {
            return Ok(G::empty(cursor.span_from(begin)));
        }
        if cursor.take_word(b"var") {
            return self.variables_statement(cursor, begin, VariableKind::Var);
        }
        self.compound_statement(cursor, stand, begin)
    }
}
