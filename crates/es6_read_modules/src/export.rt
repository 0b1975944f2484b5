//! Exports (ECMA-262, 6th edition, 15.2.3).

ghost use Rattle.std.specs.Prelude.{◌<◌, ◌≡◌};
ghost use Rattle.es6_ast.specs.Grammar.{of_module};
ghost use Rattle.es6_cursor.specs.Readers.{inner, turns};
ghost use Rattle.es6_cursor.specs.Reads.{Reads, ReadsAs};
ghost use Rattle.es6_read_parts.specs.Handed.{HasOuterExpressions, HasOuterStatements};
ghost use Rattle.es6_read_modules.specs.Exports.{after_names, default_class, default_function};
ghost use Rattle.es6_reading.specs.Expressions.{assignment};
ghost use Rattle.es6_reading.specs.Modules.{are_own, default_value, export_all, export_declaration, export_default, export_item, export_names, exported_declaration, exports, one_export, own_names};

use crate::readers::ModuleItems;
use crate::specifier::{copy, from_clause};
use es_text::Span;
use es6_ast::{ExportName, VariableKind};
use es6_cursor::{Cursor, Flags, Halt, Nested, Stand, Stop, TURNS, enter, is_identifier};
use es6_lexer::Punctuator;
use es6_makers::{
    MakesClassExports, MakesDeclarations, MakesExports, MakesFunctionExports, MakesItems,
    MakesReadings, MakesValueExports,
};
use es6_read_parts::{Here, class_after_word, function_after_word};
use es6_read_statements::Statements;
use sqlite_items::Items;

/// A name, and the one that it is exported as, which follows `as`.
#[tactic(auto, using(es6_cursor::proofs::Rules::groups), unfolding(es6_reading::specs::Modules::one_export))]
fn one_export(cursor: &mut Cursor) -> Result<ExportName, Halt>
    ensures { Reads (one_export cursor.old) result cursor.new }
{
    let begin = cursor.begin();
    let local = cursor.name_of_any_kind()?;
    if cursor.take_word(b"as") {
        let exported = cursor.name_of_any_kind()?;
        let span = cursor.span_from(begin);
        return Ok(ExportName {
            span,
            local,
            exported,
        });
    }
    let exported = copy(cursor.alloc(), &local)?;
    let span = cursor.span_from(begin);
    Ok(ExportName {
        span,
        local,
        exported,
    })
}

/// The names after the opening brace, and the closing brace.
#[tactic(auto, using(es6_cursor::proofs::Rules::lists, crate::proofs::ItemLists::export_turns), unfolding(es6_reading::specs::Modules::exports))]
fn exports(cursor: &mut Cursor) -> Result<Items<ExportName>, Halt>
    ensures { Reads (exports turns cursor.old) result cursor.new }
{
    let mut list = Items::new(cursor.alloc());
    for turn in 0..TURNS {
        if cursor.take_mark(Punctuator::RightBrace) {
            return Ok(list);
        }
        list.push(one_export(cursor)?)?;
        if !cursor.take_mark(Punctuator::Comma) {
            cursor.expect_mark(Punctuator::RightBrace)?;
            return Ok(list);
        }
    }
    Err(Halt::Stopped(Stop::Endless))
}

/// Whether names of this module may be these: none of them is reserved.
#[tactic(auto, using(crate::proofs::Names::are_own_is))]
fn are_own(names: &[ExportName]) -> bool
    ensures { result ≡ are_own names.now }
{
    names.iter().all(|name| is_identifier(&name.local.name))
}

/// What follows the names of this module that are exported.
#[tactic(auto, using(es6_cursor::proofs::Rules::statements), unfolding(es6_reading::specs::Modules::own_names, es6_reading::specs::Parser::refused))]
fn own_names<G: MakesItems>(
    cursor: &mut Cursor,
    room: u16,
    begin: u32,
    names: Items<ExportName>,
) -> Result<G::Item, Halt>
    ensures { ReadsAs G.seen_item (own_names (inner room) begin names cursor.old) result cursor.new }
{
    if !are_own(names.as_slice()) {
        return Err(Halt::Stopped(cursor.refused()));
    }
    cursor.semicolon()?;
    let span = cursor.span_from(begin);
    Ok(G::export_names(span, names, None))
}

/// What follows the names: the module that they are of, or the end.
#[tactic(auto, using(es6_cursor::proofs::Rules::groups), unfolding(crate::specs::Exports::after_names))]
fn after_names<G: MakesItems>(
    cursor: &mut Cursor,
    room: u16,
    begin: u32,
    names: Items<ExportName>,
) -> Result<G::Item, Halt>
    ensures { ReadsAs G.seen_item (after_names (inner room) begin names cursor.old) result cursor.new }
{
    if !cursor.next_is_word(b"from") {
        return own_names::<G>(cursor, room, begin, names);
    }
    let from = from_clause(cursor, room)?;
    let span = cursor.span_from(begin);
    Ok(G::export_names(span, names, Some(from)))
}

/// Names of this module, or of the one that is named after them.
fn export_names<G: MakesItems>(cursor: &mut Cursor, room: u16, begin: u32) -> Result<G::Item, Halt>
    ensures { ReadsAs G.seen_item (export_names (inner room) begin cursor.old) result cursor.new }
{
    enter(cursor, room, Punctuator::LeftBrace)?;
    let names = exports(cursor)?;
    after_names::<G>(cursor, room, begin, names)
}

#[tactic(auto, using(es6_cursor::proofs::Rules::groups), unfolding(es6_reading::specs::Modules::export_all))]
fn export_all<G: MakesItems>(cursor: &mut Cursor, room: u16, begin: u32) -> Result<G::Item, Halt>
    ensures { ReadsAs G.seen_item (export_all (inner room) begin cursor.old) result cursor.new }
{
    let from = from_clause(cursor, room)?;
    let span = cursor.span_from(begin);
    Ok(G::export_all(span, from))
}

impl<
    G: MakesReadings,
    E: Fn(&mut Cursor, u16, Flags, Nested) -> Result<G::Reading, Halt>,
    S,
> ModuleItems<'_, G, E, S> {
    /// AssignmentExpression, which the reader of what stands one construct deeper reads where one construct more may open.
    #[tactic(auto, using(crate::proofs::Inside::assignment_next))]
    fn value_after_default(&self, cursor: &mut Cursor) -> Result<G::Reading, Halt>
        requires below { self.now.here.room < 65535 }
        requires expressions { HasOuterExpressions G.seen E.pre E.post self.now.here }
        ensures { ReadsAs G.seen (assignment (inner self.now.here.room) of_module cursor.old) result cursor.new }
    {
        (self.here.expression)(
            cursor,
            self.here.room + 1,
            Flags::of_module(),
            Nested::Assignment,
        )
    }
}

impl<
    G: MakesValueExports,
    E: Fn(&mut Cursor, u16, Flags, Nested) -> Result<G::Reading, Halt>,
    S,
> ModuleItems<'_, G, E, S> {
    /// An expression after `default`, which has the span.
    #[tactic(auto, using(es6_cursor::proofs::Rules::statements), unfolding(es6_reading::specs::Modules::default_value))]
    fn default_value(&self, cursor: &mut Cursor, begin: u32, word: Span) -> Result<G::Item, Halt>
        requires below { self.now.here.room < 65535 }
        requires expressions { HasOuterExpressions G.seen E.pre E.post self.now.here }
        ensures { ReadsAs G.seen_item (default_value (inner self.now.here.room) begin word cursor.old) result cursor.new }
    {
        let value = self.value_after_default(cursor)?;
        cursor.semicolon()?;
        let span = cursor.span_from(begin);
        Ok(G::export_value(span, word, value))
    }
}

impl<
    G: MakesFunctionExports,
    E: Fn(&mut Cursor, u16, Flags, Nested) -> Result<G::Reading, Halt>,
    S: Fn(&mut Cursor, u16, Flags, Stand) -> Result<G::Statement, Halt>,
> ModuleItems<'_, G, E, S> {
    /// A function after `export default function`; the word `default` has the span.
    #[tactic(auto, using(es6_cursor::proofs::Rules::groups, es6_read_parts::proofs::Outer::outer), unfolding(crate::specs::Exports::default_function))]
    fn default_function(
        &self,
        cursor: &mut Cursor,
        begin: u32,
        word: Span,
        inside: u32,
    ) -> Result<G::Item, Halt>
        requires below { self.now.here.room < 65535 }
        requires expressions { HasOuterExpressions G.seen E.pre E.post self.now.here }
        requires statements { HasOuterStatements G.seen_statement S.pre S.post self.now.here }
        ensures { ReadsAs G.seen_item (default_function (inner self.now.here.room) begin word inside cursor.old) result cursor.new }
    {
        let function = function_after_word::<G, E, S>(
            cursor,
            self.here.room,
            true,
            inside,
            self.here.expression,
            self.here.statement,
        )?;
        let span = cursor.span_from(begin);
        Ok(G::export_function(cursor.alloc(), span, word, function)?)
    }
}

impl<
    G: MakesClassExports,
    E: Fn(&mut Cursor, u16, Flags, Nested) -> Result<G::Reading, Halt>,
    S: Fn(&mut Cursor, u16, Flags, Stand) -> Result<G::Statement, Halt>,
> ModuleItems<'_, G, E, S> {
    /// A class after `export default class`.
    #[tactic(auto, using(es6_cursor::proofs::Rules::groups, es6_read_parts::proofs::Outer::outer), unfolding(crate::specs::Exports::default_class))]
    fn default_class(
        &self,
        cursor: &mut Cursor,
        begin: u32,
        word: Span,
        inside: u32,
    ) -> Result<G::Item, Halt>
        requires below { self.now.here.room < 65535 }
        requires expressions { HasOuterExpressions G.seen E.pre E.post self.now.here }
        requires statements { HasOuterStatements G.seen_statement S.pre S.post self.now.here }
        ensures { ReadsAs G.seen_item (default_class (inner self.now.here.room) begin word inside cursor.old) result cursor.new }
    {
        let class = class_after_word::<G, E, S>(
            cursor,
            self.here.room,
            Flags::of_module(),
            true,
            inside,
            self.here.expression,
            self.here.statement,
        )?;
        let span = cursor.span_from(begin);
        Ok(G::export_class(cursor.alloc(), span, word, class)?)
    }
}

impl<
    G: MakesExports,
    E: Fn(&mut Cursor, u16, Flags, Nested) -> Result<G::Reading, Halt>,
    S: Fn(&mut Cursor, u16, Flags, Stand) -> Result<G::Statement, Halt>,
> ModuleItems<'_, G, E, S> {
    /// What follows `default`, which has the span.
    #[tactic(auto, using(es6_cursor::proofs::Rules::groups), unfolding(es6_reading::specs::Modules::export_default, crate::specs::Exports::default_function, crate::specs::Exports::default_class))]
    fn export_default(&self, cursor: &mut Cursor, begin: u32, word: Span) -> Result<G::Item, Halt>
        requires below { self.now.here.room < 65535 }
        requires expressions { HasOuterExpressions G.seen E.pre E.post self.now.here }
        requires statements { HasOuterStatements G.seen_statement S.pre S.post self.now.here }
        ensures { ReadsAs G.seen_item (export_default (inner self.now.here.room) begin word cursor.old) result cursor.new }
    {
        let inside = cursor.begin();
        if cursor.take_word(b"function") {
            return self.default_function(cursor, begin, word, inside);
        }
        if cursor.take_word(b"class") {
            return self.default_class(cursor, begin, word, inside);
        }
        self.default_value(cursor, begin, word)
    }
}

impl<
    G: MakesDeclarations,
    E: Fn(&mut Cursor, u16, Flags, Nested) -> Result<G::Reading, Halt>,
    S: Fn(&mut Cursor, u16, Flags, Stand) -> Result<G::Statement, Halt>,
> ModuleItems<'_, G, E, S> {
    /// Variables, a function or a class.
    #[tactic(auto, using(es6_cursor::proofs::Rules::groups, es6_read_parts::proofs::Outer::outer), unfolding(es6_reading::specs::Modules::exported_declaration, es6_reading::specs::Parser::refused))]
    fn exported_declaration(&self, cursor: &mut Cursor) -> Result<G::Statement, Halt>
        requires below { self.now.here.room < 65535 }
        requires expressions { HasOuterExpressions G.seen E.pre E.post self.now.here }
        requires statements { HasOuterStatements G.seen_statement S.pre S.post self.now.here }
        ensures { ReadsAs G.seen_statement (exported_declaration (inner self.now.here.room) cursor.old) result cursor.new }
    {
        let begin = cursor.begin();
        let here = Here {
            flags: Flags::of_module(),
            ..self.here
        };
        let statements = Statements { here };
        if cursor.take_word(b"var") {
            return statements.variables_statement(cursor, begin, VariableKind::Var);
        }
        if cursor.take_word(b"function") {
            return statements.function_declaration(cursor, begin);
        }
        if cursor.take_word(b"class") {
            return statements.class_declaration(cursor, begin);
        }
        match cursor.take_lexical_kind() {
            Some(kind) => statements.variables_statement(cursor, begin, kind),
            None => Err(Halt::Stopped(cursor.refused())),
        }
    }
}

impl<
    G: MakesExports,
    E: Fn(&mut Cursor, u16, Flags, Nested) -> Result<G::Reading, Halt>,
    S: Fn(&mut Cursor, u16, Flags, Stand) -> Result<G::Statement, Halt>,
> ModuleItems<'_, G, E, S> {
    #[tactic(auto, using(es6_cursor::proofs::Rules::groups), unfolding(es6_reading::specs::Modules::export_declaration))]
    fn export_declaration(&self, cursor: &mut Cursor, begin: u32) -> Result<G::Item, Halt>
        requires below { self.now.here.room < 65535 }
        requires expressions { HasOuterExpressions G.seen E.pre E.post self.now.here }
        requires statements { HasOuterStatements G.seen_statement S.pre S.post self.now.here }
        ensures { ReadsAs G.seen_item (export_declaration (inner self.now.here.room) begin cursor.old) result cursor.new }
    {
        let declaration = self.exported_declaration(cursor)?;
        let span = cursor.span_from(begin);
        Ok(G::export_declaration(span, declaration))
    }

    /// What follows `export`, which begins at the offset.
    #[tactic(auto, using(es6_cursor::proofs::Rules::groups, crate::proofs::Names::default_at, crate::proofs::Names::default_missed), unfolding(es6_reading::specs::Modules::export_item))]
    pub fn export_item(&self, cursor: &mut Cursor, begin: u32) -> Result<G::Item, Halt>
        requires below { self.now.here.room < 65535 }
        requires expressions { HasOuterExpressions G.seen E.pre E.post self.now.here }
        requires statements { HasOuterStatements G.seen_statement S.pre S.post self.now.here }
        ensures { ReadsAs G.seen_item (export_item (inner self.now.here.room) begin cursor.old) result cursor.new }
    {
        if cursor.take_mark(Punctuator::Star) {
            return export_all::<G>(cursor, self.here.room, begin);
        }
        if let Some(word) = cursor.take_word_at(b"default") {
            return self.export_default(cursor, begin, word);
        }
        if cursor.next_is_mark(Punctuator::LeftBrace) {
            return export_names::<G>(cursor, self.here.room, begin);
        }
        self.export_declaration(cursor, begin)
    }
}
