//! The ends of statements, and labels (ECMA-262, 5.1 edition, 7.9, 12.7, 12.8).

ghost use Rattle.std.specs.Prelude.{IfOk};
ghost use Rattle.es5_cursor.specs.Reads.{Reads};
ghost use Rattle.es5_cursor.specs.Takes.{TakesAs};
ghost use Rattle.es5_reading.specs.Statements.{label_at, optional_label};
ghost use Rattle.es5_cursor.specs.Endings.{ended};

use crate::ahead::{begins_line, is_insertable};
use crate::cursor::Cursor;
use crate::halt::{Halt, Stop};
use es5_ast::Identifier5;
use shared_text::Name;
use std::alloc::AllocError;

/// Takes the semicolon that ends a statement, or nothing where one is inserted.
#[tactic(auto, using(crate::proofs::Rules::groups, crate::proofs::Choices::on_end, crate::proofs::Choices::off_end), unfolding(crate::specs::Endings::ended))]
#[inline(never)]
pub fn semicolon(cursor: &mut Cursor) -> Result<(), Halt>
    ensures { Reads (ended cursor.old) result cursor.new }
{
    if cursor.take_end() {
        return Ok(());
    }
    if is_insertable(cursor.rest()) {
        return Ok(());
    }
    Err(Halt::Stopped(Stop::Syntax))
}

/// Takes a label, if one is next on the line of the word before it.
#[tactic(auto, using(crate::proofs::Endings::label_none, crate::proofs::Endings::label_same))]
fn take_label(cursor: &mut Cursor) -> Result<Option<Name>, AllocError>
    ensures { IfOk result (λ answer. TakesAs label_at cursor.old answer cursor.new) }
{
    if begins_line(cursor.rest()) {
        return Ok(None);
    }
    cursor.take_free_name()
}

/// The label of a `continue` or a `break`, if it has one.
#[tactic(auto, using(crate::proofs::Rules::groups), unfolding(es5_reading::specs::Statements::optional_label))]
#[inline(never)]
pub fn optional_label(cursor: &mut Cursor) -> Result<Option<Identifier5>, Halt>
    ensures { Reads (optional_label cursor.old) result cursor.new }
{
    let begin = cursor.begin();
    match take_label(cursor)? {
        Some(name) => Ok(Some(Identifier5 {
            span: cursor.span_from(begin),
            name,
        })),
        None => Ok(None),
    }
}
