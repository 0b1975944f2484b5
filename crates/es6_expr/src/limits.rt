//! Where an expression begins and no construct may open any more.

ghost use Rattle.es6_reading.specs.Expressions.{expression_at_limit, operand_at_limit};
ghost use Rattle.es6_reading.specs.Words.{begins_expression, begins_unary};
ghost use Rattle.es6_cursor.specs.Reads.{ReadsAs};
ghost use Rattle.es6_expr.specs.Tie.{limit_of};

use es6_cursor::{Cursor, Flags, Halt, Nested, Stop};
use es6_makers::MakesReadings;

/// The fault of an expression.
#[tactic(auto, using(es6_cursor::proofs::Rules::groups), unfolding(es6_reading::specs::Expressions::expression_at_limit, es6_reading::specs::Parser::no_expression))]
fn expression_at_limit<G: MakesReadings>(cursor: &Cursor, flags: Flags) -> Result<G::Reading, Halt>
    ensures { ReadsAs G.seen (expression_at_limit (begins_expression flags) cursor.now) result cursor.now }
{
    if cursor.next_begins_expression(flags) {
        return Err(Halt::Stopped(Stop::Depth));
    }
    Err(Halt::Stopped(cursor.no_expression()))
}

/// The fault of a UnaryExpression.
#[tactic(auto, using(es6_cursor::proofs::Rules::groups), unfolding(es6_reading::specs::Expressions::expression_at_limit, es6_reading::specs::Parser::no_expression))]
fn unary_at_limit<G: MakesReadings>(cursor: &Cursor) -> Result<G::Reading, Halt>
    ensures { ReadsAs G.seen (expression_at_limit begins_unary cursor.now) result cursor.now }
{
    if cursor.next_begins_unary() {
        return Err(Halt::Stopped(Stop::Depth));
    }
    Err(Halt::Stopped(cursor.no_expression()))
}

/// The fault of what stands after `new` or `extends`.
#[tactic(auto, using(es6_cursor::proofs::Rules::groups), unfolding(es6_reading::specs::Expressions::operand_at_limit, es6_reading::specs::Parser::no_number))]
fn operand_at_limit<G: MakesReadings>(cursor: &Cursor) -> Result<G::Reading, Halt>
    ensures { ReadsAs G.seen (operand_at_limit cursor.now) result cursor.now }
{
    if cursor.next_begins_operand() {
        return Err(Halt::Stopped(Stop::Depth));
    }
    Err(Halt::Stopped(cursor.no_number()))
}

/// The fault where an expression would open one construct too many.
#[tactic(auto, unfolding(crate::specs::Tie::limit_of))]
pub fn nested_at_limit<G: MakesReadings>(
    cursor: &Cursor,
    flags: Flags,
    nested: Nested,
) -> Result<G::Reading, Halt>
    ensures { ReadsAs G.seen (limit_of nested flags cursor.now) result cursor.now }
{
    match nested {
        Nested::Sequence | Nested::Assignment => expression_at_limit::<G>(cursor, flags),
        Nested::Power | Nested::Unary => unary_at_limit::<G>(cursor),
        Nested::Callee | Nested::Heritage => operand_at_limit::<G>(cursor),
    }
}
