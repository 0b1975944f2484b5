//! Identifiers, names of properties, parameters.

ghost use Rattle.es5_reading.specs.Expressions.{identifier, key, more_parameters, no_parameter, one_parameter};
ghost use Rattle.es5_cursor.specs.Reads.{Reads};
ghost use Rattle.es5_cursor.specs.Readers.{turns};

use crate::cursor::Cursor;
use crate::halt::{Halt, Stop};
use crate::turns::TURNS;
use es5_ast::{Identifier5, PlacedKey5};
use es5_tokens::Punctuator;
use sqlite_items::Items;

/// An identifier (7.6).
#[tactic(auto, unfolding(es5_reading::specs::Expressions::identifier))]
#[inline(never)]
pub fn identifier(cursor: &mut Cursor) -> Result<Identifier5, Halt>
    ensures { Reads (identifier cursor.old) result cursor.new }
{
    let begin = cursor.begin();
    let name = cursor.expect_free_name()?;
    Ok(Identifier5 {
        span: cursor.span_from(begin),
        name,
    })
}

/// The name of a property (11.1.5).
#[tactic(auto, unfolding(es5_reading::specs::Expressions::key))]
#[inline(never)]
pub fn key(cursor: &mut Cursor) -> Result<PlacedKey5, Halt>
    ensures { Reads (key cursor.old) result cursor.new }
{
    let begin = cursor.begin();
    let key = cursor.expect_key()?;
    Ok(PlacedKey5 {
        span: cursor.span_from(begin),
        key,
    })
}

/// The closing parenthesis of a getter's parameters (11.1.5).
#[tactic(auto, unfolding(es5_reading::specs::Expressions::no_parameter))]
pub fn no_parameter(cursor: &mut Cursor) -> Result<Items<Identifier5>, Halt>
    ensures { Reads (no_parameter cursor.old) result cursor.new }
{
    cursor.expect_mark(Punctuator::RightParenthesis)?;
    Ok(Items::new(cursor.alloc()))
}

/// The parameter of a setter, and the closing parenthesis (11.1.5).
#[tactic(auto, unfolding(es5_reading::specs::Expressions::one_parameter))]
pub fn one_parameter(cursor: &mut Cursor) -> Result<Items<Identifier5>, Halt>
    ensures { Reads (one_parameter cursor.old) result cursor.new }
{
    let parameter = identifier(cursor)?;
    cursor.expect_mark(Punctuator::RightParenthesis)?;
    let mut list = Items::new(cursor.alloc());
    list.push(parameter)?;
    Ok(list)
}

/// The parameters after the opening parenthesis, and the closing one (13).
#[tactic(auto, using(crate::proofs::Loops::turns_is, crate::proofs::Loops::one_before, crate::proofs::Parameters::parameters_turn, crate::proofs::Parameters::parameters_more, crate::proofs::Loops::no_turn, crate::proofs::Choices::on_mark, crate::proofs::Choices::off_mark), unfolding(es5_reading::specs::Expressions::more_parameters))]
pub fn more_parameters(cursor: &mut Cursor) -> Result<Items<Identifier5>, Halt>
    ensures { Reads (more_parameters turns cursor.old) result cursor.new }
{
    let mut list = Items::new(cursor.alloc());
    for turn in 0..TURNS {
        list.push(identifier(cursor)?)?;
        if !cursor.take_mark(Punctuator::Comma) {
            cursor.expect_mark(Punctuator::RightParenthesis)?;
            return Ok(list);
        }
    }
    Err(Halt::Stopped(Stop::Endless))
}
