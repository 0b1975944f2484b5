//! Whole scripts (ECMA-262, 5.1 edition, 14).

ghost use Rattle.std.specs.Prelude.{◌≡◌, false, true};
ghost use Rattle.es5_cursor.specs.Reads.{Reads};
ghost use Rattle.es5_reading.specs.Statements.{statement};
ghost use Rattle.es5_reading.specs.Programs.{program, script};
ghost use Rattle.es5_text.specs.Directive.{Begins};
ghost use Rattle.es5_cursor.specs.Readers.{inner, turns};

use crate::ahead::{begins_strict, goes_on_behind, has_next};
use crate::inner::{inner_statement, nested_expression};
use es5_ast::Stat5;
use es5_cursor::{Cursor, Halt, Stop, TURNS};
use es5_nodes::lists::push;
use es5_read_statements::statement;
use sqlite_items::{Boxed, Items};

/// How many constructs may be open at one token.
const MOST_OPEN: u16 = 2_048;

/// A statement of a script, or a declaration of a function.
fn listed(cursor: &mut Cursor, room: u16) -> Result<Boxed<Stat5>, Halt>
    ensures { Reads (statement (inner room) false true cursor.old) result cursor.new }
{
    statement::<_, _>(
        cursor,
        room,
        false,
        true,
        &nested_expression,
        &inner_statement,
    )
}

/// The statements up to the end.
#[tactic(auto, using(es5_cursor::proofs::Rules::lists, crate::proofs::Programs::program_turn, crate::proofs::Programs::program_more), unfolding(es5_reading::specs::Programs::program))]
fn program(cursor: &mut Cursor, room: u16) -> Result<Items<Stat5>, Halt>
    ensures { Reads (program (inner room) (inner room).fuel cursor.old) result cursor.new }
{
    let mut list = Items::new(cursor.alloc());
    for turn in 0..TURNS {
        if !has_next(cursor.rest()) {
            return Ok(list);
        }
        push(&mut list, listed(cursor, room)?)?;
    }
    Err(Halt::Stopped(Stop::Endless))
}

/// Whether a script begins with the directive of strict code, and nothing goes on with its expression (14.1).
#[tactic(auto, using(crate::proofs::Directive::no_directive, crate::proofs::Directive::goes_on, crate::proofs::Directive::is_alone))]
fn directive(cursor: &mut Cursor) -> Result<(), Halt>
    ensures { Begins cursor.old result cursor.new }
{
    if !begins_strict(cursor.rest()) {
        return Err(Halt::Stopped(Stop::Outside(1)));
    }
    if goes_on_behind(cursor.rest()) {
        cursor.skip();
        return Err(Halt::Stopped(Stop::Syntax));
    }
    Ok(())
}

/// The statements of a script, of which these are the tokens.
#[tactic(auto, using(crate::proofs::Directive::script_begins, crate::proofs::Directive::script_stops))]
pub fn script(cursor: &mut Cursor) -> Result<Items<Stat5>, Halt>
    requires { cursor.old.last ≡ 0 }
    ensures { Reads (script turns cursor.old.tokens) result cursor.new }
{
    directive(cursor)?;
    program(cursor, MOST_OPEN)
}
