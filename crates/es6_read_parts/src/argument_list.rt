//! Arguments of calls (ECMA-262, 6th edition, 12.3).

ghost use Rattle.es6_cursor.specs.Nests.{ReadsExpressions};
ghost use Rattle.es6_cursor.specs.Readers.{inner};
ghost use Rattle.es6_cursor.specs.Reads.{ReadsAs};
ghost use Rattle.es6_reading.specs.Expressions.{argument, arguments, more_arguments};

use es6_cursor::{Cursor, Flags, Halt, Nested, Stop, TURNS};
use es6_lexer::Punctuator;
use es6_makers::MakesArguments;

/// AssignmentExpression, or SpreadElement.
#[tactic(auto, using(es6_cursor::proofs::Rules::groups), unfolding(es6_reading::specs::Expressions::argument))]
pub fn argument<
    G: MakesArguments,
    E: Fn(&mut Cursor, u16, Flags, Nested) -> Result<G::Reading, Halt>,
>(cursor: &mut Cursor, room: u16, flags: Flags, expression: &E) -> Result<G::Argument, Halt>
    requires expressions { ReadsExpressions G.seen room (E.pre expression.now) (E.post expression.now) }
    ensures { ReadsAs G.seen_argument (argument (inner room) flags cursor.old) result cursor.new }
{
    let begin = cursor.begin();
    let spread = cursor.take_mark(Punctuator::Ellipsis);
    let value = expression(cursor, room, flags.with_in(), Nested::Assignment)?;
    if !spread {
        return Ok(G::single(value));
    }
    Ok(G::spread(cursor.span_from(begin), value))
}

#[tactic(auto, using(es6_cursor::proofs::Rules::lists, crate::proofs::ArgumentLists::arguments_turn, crate::proofs::ArgumentLists::arguments_more), unfolding(es6_reading::specs::Expressions::more_arguments))]
fn more_arguments<
    G: MakesArguments,
    E: Fn(&mut Cursor, u16, Flags, Nested) -> Result<G::Reading, Halt>,
>(cursor: &mut Cursor, room: u16, flags: Flags, expression: &E) -> Result<G::Arguments, Halt>
    requires expressions { ReadsExpressions G.seen room (E.pre expression.now) (E.post expression.now) }
    ensures { ReadsAs G.seen_arguments (more_arguments (inner room) flags (inner room).fuel cursor.old) result cursor.new }
{
    let mut list = G::no_arguments(cursor.alloc());
    for turn in 0..TURNS {
        let argument = argument::<G, E>(cursor, room, flags, expression)?;
        G::push_argument(&mut list, argument)?;
        if !cursor.take_mark(Punctuator::Comma) {
            cursor.expect_mark(Punctuator::RightParenthesis)?;
            return Ok(list);
        }
    }
    Err(Halt::Stopped(Stop::Endless))
}

/// The arguments after the opening parenthesis, and the closing one.
#[tactic(auto, using(es6_cursor::proofs::Rules::groups), unfolding(es6_reading::specs::Expressions::arguments))]
pub fn arguments<
    G: MakesArguments,
    E: Fn(&mut Cursor, u16, Flags, Nested) -> Result<G::Reading, Halt>,
>(cursor: &mut Cursor, room: u16, flags: Flags, expression: &E) -> Result<G::Arguments, Halt>
    requires expressions { ReadsExpressions G.seen room (E.pre expression.now) (E.post expression.now) }
    ensures { ReadsAs G.seen_arguments (arguments (inner room) flags cursor.old) result cursor.new }
{
    if cursor.take_mark(Punctuator::RightParenthesis) {
        return Ok(G::no_arguments(cursor.alloc()));
    }
    more_arguments::<G, E>(cursor, room, flags, expression)
}
