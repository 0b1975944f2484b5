//! The items of a module (ECMA-262, 6th edition, 15.2.1).

ghost use Rattle.std.specs.Prelude.{◌+◌, ◌<◌};
ghost use Rattle.es6_ast.specs.Grammar.{of_module};
ghost use Rattle.es6_cursor.specs.Nests.{ReadsExpressions, ReadsStatements};
ghost use Rattle.es6_cursor.specs.Readers.{inner};
ghost use Rattle.es6_cursor.specs.Reads.{ReadsAs};
ghost use Rattle.es6_read_parts.specs.Handed.{HasOuterExpressions, HasOuterStatements};
ghost use Rattle.es6_ast.specs.declared.settings.Stand.TheVariants.{Listed};
ghost use Rattle.es6_reading.specs.Statements.{statement as any_statement};
ghost use Rattle.es6_reading.specs.Modules.{items, one_item, statement_item, whole_module};

use crate::import::import_item;
use crate::readers::ModuleItems;
use es6_cursor::{Cursor, Flags, Halt, Nested, Stand, Stop, TURNS};
use es6_makers::{MakesExports, MakesSimpleStatements, MakesStatementItems, MakesWholeModules};
use es6_read_parts::Here;
use std::marker::PhantomData;

impl<
    G: MakesSimpleStatements,
    E,
    S: Fn(&mut Cursor, u16, Flags, Stand) -> Result<G::Statement, Halt>,
> ModuleItems<'_, G, E, S> {
    /// A statement or declaration, which the reader of what stands one construct deeper reads where one construct more may open.
    #[tactic(auto, using(crate::proofs::Inside::statement_next))]
    fn listed_statement(&self, cursor: &mut Cursor) -> Result<G::Statement, Halt>
        requires below { self.now.here.room < 65535 }
        requires statements { HasOuterStatements G.seen_statement S.pre S.post self.now.here }
        ensures { ReadsAs G.seen_statement (any_statement (inner self.now.here.room) of_module Listed cursor.old) result cursor.new }
    {
        (self.here.statement)(
            cursor,
            self.here.room + 1,
            Flags::of_module(),
            Stand::Listed,
        )
    }
}

impl<
    G: MakesStatementItems,
    E,
    S: Fn(&mut Cursor, u16, Flags, Stand) -> Result<G::Statement, Halt>,
> ModuleItems<'_, G, E, S> {
    #[tactic(auto, using(es6_cursor::proofs::Rules::groups), unfolding(es6_reading::specs::Modules::statement_item))]
    fn statement_item(&self, cursor: &mut Cursor) -> Result<G::Item, Halt>
        requires below { self.now.here.room < 65535 }
        requires statements { HasOuterStatements G.seen_statement S.pre S.post self.now.here }
        ensures { ReadsAs G.seen_item (statement_item (inner self.now.here.room) cursor.old) result cursor.new }
    {
        let statement = self.listed_statement(cursor)?;
        Ok(G::statement_item(statement))
    }
}

impl<
    G: MakesExports,
    E: Fn(&mut Cursor, u16, Flags, Nested) -> Result<G::Reading, Halt>,
    S: Fn(&mut Cursor, u16, Flags, Stand) -> Result<G::Statement, Halt>,
> ModuleItems<'_, G, E, S> {
    /// ModuleItem.
    #[tactic(auto, using(es6_cursor::proofs::Rules::groups), unfolding(es6_reading::specs::Modules::one_item))]
    fn one_item(&self, cursor: &mut Cursor) -> Result<G::Item, Halt>
        requires below { self.now.here.room < 65535 }
        requires expressions { HasOuterExpressions G.seen E.pre E.post self.now.here }
        requires statements { HasOuterStatements G.seen_statement S.pre S.post self.now.here }
        ensures { ReadsAs G.seen_item (one_item (inner self.now.here.room) cursor.old) result cursor.new }
    {
        let begin = cursor.begin();
        if cursor.take_word(b"import") {
            return import_item::<G>(cursor, self.here.room, begin);
        }
        if cursor.take_word(b"export") {
            return self.export_item(cursor, begin);
        }
        self.statement_item(cursor)
    }
}

impl<
    G: MakesWholeModules,
    E: Fn(&mut Cursor, u16, Flags, Nested) -> Result<G::Reading, Halt>,
    S: Fn(&mut Cursor, u16, Flags, Stand) -> Result<G::Statement, Halt>,
> ModuleItems<'_, G, E, S> {
    /// The items up to the end of the text.
    #[tactic(auto, using(es6_cursor::proofs::Rules::lists, crate::proofs::ItemLists::item_turns), unfolding(es6_reading::specs::Modules::items))]
    fn items(&self, cursor: &mut Cursor) -> Result<G::Items, Halt>
        requires below { self.now.here.room < 65535 }
        requires expressions { HasOuterExpressions G.seen E.pre E.post self.now.here }
        requires statements { HasOuterStatements G.seen_statement S.pre S.post self.now.here }
        ensures { ReadsAs G.seen_items (items (inner self.now.here.room) (inner self.now.here.room).fuel cursor.old) result cursor.new }
    {
        let mut list = G::no_items(cursor.alloc());
        for turn in 0..TURNS {
            if cursor.next_is_end() {
                return Ok(list);
            }
            let item = self.one_item(cursor)?;
            G::push_item(&mut list, item)?;
        }
        Err(Halt::Stopped(Stop::Endless))
    }
}

/// A module. The end of the text stands last.
#[tactic(auto, using(es6_cursor::proofs::Rules::groups, crate::proofs::Names::at_end, crate::proofs::Names::no_end), unfolding(es6_reading::specs::Modules::whole_module, es6_reading::specs::Parser::refused))]
pub fn whole_module<
    G: MakesWholeModules,
    E: Fn(&mut Cursor, u16, Flags, Nested) -> Result<G::Reading, Halt>,
    S: Fn(&mut Cursor, u16, Flags, Stand) -> Result<G::Statement, Halt>,
>(cursor: &mut Cursor, room: u16, expression: &E, statement: &S) -> Result<G::Module, Halt>
    requires below { room < 65535 }
    requires expressions { ReadsExpressions G.seen (room + 1) (E.pre expression.now) (E.post expression.now) }
    requires statements { ReadsStatements G.seen_statement (room + 1) (S.pre statement.now) (S.post statement.now) }
    ensures { ReadsAs G.seen_module (whole_module (inner room) cursor.old) result cursor.new }
{
    let here = Here::<G, E, S> {
        room,
        flags: Flags::of_module(),
        expression,
        statement,
        maker: PhantomData,
    };
    let items = ModuleItems { here }.items(cursor)?;
    if !cursor.next_is_end() {
        return Err(Halt::Stopped(cursor.refused()));
    }
    cursor.take();
    if cursor.has_next() {
        return Err(Halt::Stopped(cursor.refused()));
    }
    let span = cursor.span_from(0);
    Ok(G::module(span, items))
}
