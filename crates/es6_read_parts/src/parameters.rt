//! The parameters of functions (ECMA-262, 6th edition, 14.1).

ghost use Rattle.es6_cursor.specs.Nests.{ReadsExpressions};
ghost use Rattle.es6_cursor.specs.Readers.{before, inner};
ghost use Rattle.es6_cursor.specs.Reads.{ReadsAs};
ghost use Rattle.es6_reading.specs.Parts.{more_parameters, parameters};
ghost use Rattle.es6_read_parts.specs.Patterns.{last_parameter};

use crate::inner::inner_part;
use es6_cursor::{Cursor, Flags, Halt, Nested, Stop, TURNS};
use es6_lexer::Punctuator;
use es6_makers::{MakesParameterLists, MakesParameters};

/// These parameters, and what follows the `...` of a rest, which begins at the offset, up to the closing parenthesis.
#[tactic(auto, using(es6_cursor::proofs::Rules::groups), unfolding(crate::specs::Patterns::last_parameter, es6_reading::specs::Parts::rest_parameter))]
#[inline(never)]
fn last_parameter<G: MakesParameters>(
    cursor: &mut Cursor,
    begin: u32,
    parameters: G::Parameters,
) -> Result<G::Parameters, Halt>
    ensures { ReadsAs G.seen_parameters (before (G.seen_parameters parameters) (last_parameter begin cursor.old)) result cursor.new }
{
    let name = cursor.identifier()?;
    let span = cursor.span_from(begin);
    let pattern = G::name_target(cursor.alloc(), name)?;
    cursor.expect_mark(Punctuator::RightParenthesis)?;
    let mut list = parameters;
    G::push_rest_parameter(&mut list, span, pattern)?;
    Ok(list)
}

/// The parameters after the opening parenthesis, of which there is one at least, and the closing parenthesis.
#[tactic(auto, using(es6_cursor::proofs::Rules::lists, crate::proofs::PartLists::parameter_turns), unfolding(es6_reading::specs::Parts::more_parameters))]
#[inline(never)]
fn more_parameters<
    G: MakesParameterLists,
    E: Fn(&mut Cursor, u16, Flags, Nested) -> Result<G::Reading, Halt>,
>(cursor: &mut Cursor, room: u16, flags: Flags, expression: &E) -> Result<G::Parameters, Halt>
    requires expressions { ReadsExpressions G.seen room (E.pre expression.now) (E.post expression.now) }
    ensures { ReadsAs G.seen_parameters (more_parameters (inner room) flags (inner room).fuel cursor.old) result cursor.new }
{
    let mut list = G::no_parameters(cursor.alloc());
    for turn in 0..TURNS {
        let begin = cursor.begin();
        if cursor.take_mark(Punctuator::Ellipsis) {
            return last_parameter::<G>(cursor, begin, list);
        }
        let part = inner_part::<G, E>(cursor, room, flags, expression)?;
        G::push_parameter(&mut list, part)?;
        if !cursor.take_mark(Punctuator::Comma) {
            cursor.expect_mark(Punctuator::RightParenthesis)?;
            return Ok(list);
        }
    }
    Err(Halt::Stopped(Stop::Endless))
}

/// The parameters after the opening parenthesis, and the closing parenthesis.
#[tactic(auto, using(es6_cursor::proofs::Rules::groups), unfolding(es6_reading::specs::Parts::parameters))]
pub fn parameters<
    G: MakesParameterLists,
    E: Fn(&mut Cursor, u16, Flags, Nested) -> Result<G::Reading, Halt>,
>(cursor: &mut Cursor, room: u16, flags: Flags, expression: &E) -> Result<G::Parameters, Halt>
    requires expressions { ReadsExpressions G.seen room (E.pre expression.now) (E.post expression.now) }
    ensures { ReadsAs G.seen_parameters (parameters (inner room) flags cursor.old) result cursor.new }
{
    if cursor.take_mark(Punctuator::RightParenthesis) {
        return Ok(G::no_parameters(cursor.alloc()));
    }
    more_parameters::<G, E>(cursor, room, flags, expression)
}
