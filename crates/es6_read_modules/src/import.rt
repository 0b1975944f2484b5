//! Imports (ECMA-262, 6th edition, 15.2.2).

ghost use Rattle.es6_cursor.specs.Readers.{inner, turns};
ghost use Rattle.es6_cursor.specs.Reads.{Reads, ReadsAs};
ghost use Rattle.es6_reading.specs.Modules.{default_import, import_alone, import_item, imported_names, imports, namespace, one_import, rest_of_import};
ghost use Rattle.es6_read_modules.specs.Listed.{listed_names};

use crate::specifier::{copy, from_clause, specifier};
use es6_ast::{Identifier, ImportName, ImportedNames};
use es6_cursor::{Cursor, Halt, Stop, TURNS, enter, is_identifier};
use es6_lexer::Punctuator;
use es6_makers::MakesItems;
use sqlite_items::Items;

/// A name, and another one after `as`. A name that is imported under its own may not be reserved.
#[tactic(auto, using(es6_cursor::proofs::Rules::groups), unfolding(es6_reading::specs::Modules::one_import))]
fn one_import(cursor: &mut Cursor) -> Result<ImportName, Halt>
    ensures { Reads (one_import cursor.old) result cursor.new }
{
    let begin = cursor.begin();
    let imported = cursor.name_of_any_kind()?;
    if cursor.take_word(b"as") {
        let local = cursor.identifier()?;
        let span = cursor.span_from(begin);
        return Ok(ImportName {
            span,
            imported,
            local,
        });
    }
    if !is_identifier(&imported.name) {
        return cursor.refuse();
    }
    let local = copy(cursor.alloc(), &imported)?;
    let span = cursor.span_from(begin);
    Ok(ImportName {
        span,
        imported,
        local,
    })
}

/// The names after the opening brace, and the closing brace.
#[tactic(auto, using(es6_cursor::proofs::Rules::lists, crate::proofs::ItemLists::import_turns), unfolding(es6_reading::specs::Modules::imports))]
fn imports(cursor: &mut Cursor) -> Result<Items<ImportName>, Halt>
    ensures { Reads (imports turns cursor.old) result cursor.new }
{
    let mut list = Items::new(cursor.alloc());
    for turn in 0..TURNS {
        if cursor.take_mark(Punctuator::RightBrace) {
            return Ok(list);
        }
        list.push(one_import(cursor)?)?;
        if !cursor.take_mark(Punctuator::Comma) {
            cursor.expect_mark(Punctuator::RightBrace)?;
            return Ok(list);
        }
    }
    Err(Halt::Stopped(Stop::Endless))
}

/// What follows the `*` of a NameSpaceImport.
#[tactic(auto, using(es6_cursor::proofs::Rules::groups), unfolding(es6_reading::specs::Modules::namespace))]
fn namespace(cursor: &mut Cursor) -> Result<ImportedNames, Halt>
    ensures { Reads (namespace cursor.old) result cursor.new }
{
    cursor.expect_word(b"as")?;
    let name = cursor.identifier()?;
    Ok(ImportedNames::Namespace(name))
}

/// NamedImports.
#[tactic(auto, using(es6_cursor::proofs::Rules::groups, es6_cursor::proofs::Rooms::fuel_turns), unfolding(crate::specs::Listed::listed_names))]
fn listed_names(cursor: &mut Cursor, room: u16) -> Result<ImportedNames, Halt>
    ensures { Reads (listed_names (inner room) cursor.old) result cursor.new }
{
    enter(cursor, room, Punctuator::LeftBrace)?;
    let names = imports(cursor)?;
    Ok(ImportedNames::Listed(names))
}

/// NameSpaceImport, or NamedImports.
#[tactic(auto, using(es6_cursor::proofs::Rules::groups), unfolding(es6_reading::specs::Modules::imported_names, crate::specs::Listed::listed_names))]
fn imported_names(cursor: &mut Cursor, room: u16) -> Result<ImportedNames, Halt>
    ensures { Reads (imported_names (inner room) cursor.old) result cursor.new }
{
    if cursor.take_mark(Punctuator::Star) {
        return namespace(cursor);
    }
    listed_names(cursor, room)
}

/// What follows the names of an import, which begins at the offset.
#[tactic(auto, using(es6_cursor::proofs::Rules::groups), unfolding(es6_reading::specs::Modules::rest_of_import))]
fn rest_of_import<G: MakesItems>(
    cursor: &mut Cursor,
    room: u16,
    begin: u32,
    default: Option<Identifier>,
    names: ImportedNames,
) -> Result<G::Item, Halt>
    ensures { ReadsAs G.seen_item (rest_of_import (inner room) begin default names cursor.old) result cursor.new }
{
    let from = from_clause(cursor, room)?;
    let span = cursor.span_from(begin);
    Ok(G::import(span, default, names, from))
}

/// An import that begins with a default, after its `import`, which begins at the offset.
#[tactic(auto, using(es6_cursor::proofs::Rules::groups), unfolding(es6_reading::specs::Modules::default_import))]
fn default_import<G: MakesItems>(
    cursor: &mut Cursor,
    room: u16,
    begin: u32,
) -> Result<G::Item, Halt>
    ensures { ReadsAs G.seen_item (default_import (inner room) begin cursor.old) result cursor.new }
{
    let default = Some(cursor.identifier()?);
    if cursor.take_mark(Punctuator::Comma) {
        let names = imported_names(cursor, room)?;
        return rest_of_import::<G>(cursor, room, begin, default, names);
    }
    rest_of_import::<G>(cursor, room, begin, default, ImportedNames::NoNames)
}

/// An import of no name, after its `import`, which begins at the offset.
#[tactic(auto, using(es6_cursor::proofs::Rules::statements), unfolding(es6_reading::specs::Modules::import_alone))]
fn import_alone<G: MakesItems>(cursor: &mut Cursor, room: u16, begin: u32) -> Result<G::Item, Halt>
    ensures { ReadsAs G.seen_item (import_alone (inner room) begin cursor.old) result cursor.new }
{
    let from = specifier(cursor)?;
    cursor.semicolon()?;
    let span = cursor.span_from(begin);
    Ok(G::import(span, None, ImportedNames::NoNames, from))
}

/// What follows `import`, which begins at the offset.
#[tactic(auto, using(es6_cursor::proofs::Rules::groups), unfolding(es6_reading::specs::Modules::import_item))]
pub fn import_item<G: MakesItems>(
    cursor: &mut Cursor,
    room: u16,
    begin: u32,
) -> Result<G::Item, Halt>
    ensures { ReadsAs G.seen_item (import_item (inner room) begin cursor.old) result cursor.new }
{
    if cursor.next_is_text() {
        return import_alone::<G>(cursor, room, begin);
    }
    if cursor.next_begins_names() {
        let names = imported_names(cursor, room)?;
        return rest_of_import::<G>(cursor, room, begin, None, names);
    }
    default_import::<G>(cursor, room, begin)
}
