//! Expressions where a construct may open, by what they are (ECMA-262, 6th edition, 12).

ghost use Rattle.es6_cursor.specs.Nests.{ReadsExpressions, ReadsStatements};
ghost use Rattle.es6_cursor.specs.Readers.{inner};
ghost use Rattle.es6_cursor.specs.Reads.{ReadsAs};
ghost use Rattle.es6_expr.specs.Tie.{reader_of};
ghost use Rattle.es6_reading.specs.Expressions.{sequence};
ghost use Rattle.es6_reading.specs.Statements.{statement as any_statement};
ghost use Rattle.std.specs.Prelude.{◌+◌, ◌<◌};

use es6_cursor::{Cursor, Flags, Halt, Nested, Role, Stand};
use es6_makers::{MakesExpressions, MakesStatements};
use es6_read_expressions::Expressions;
use es6_read_parts::Here;
use es6_read_primaries::Primaries;
use es6_read_statements::Statements;
use std::marker::PhantomData;

/// The expression of the kind.
#[tactic(auto, unfolding(crate::specs::Tie::reader_of))]
pub fn nested<
    G: MakesExpressions,
    E: Fn(&mut Cursor, u16, Flags, Nested) -> Result<G::Reading, Halt>,
    S: Fn(&mut Cursor, u16, Flags, Stand) -> Result<G::Statement, Halt>,
>(
    cursor: &mut Cursor,
    room: u16,
    flags: Flags,
    kind: Nested,
    expression: &E,
    statement: &S,
) -> Result<G::Reading, Halt>
    requires expressions { ReadsExpressions G.seen room (E.pre expression.now) (E.post expression.now) }
    requires statements { ReadsStatements G.seen_statement room (S.pre statement.now) (S.post statement.now) }
    ensures { ReadsAs G.seen (reader_of kind (inner room) flags cursor.old) result cursor.new }
{
    let here = Here::<G, E, S> {
        room,
        flags,
        expression,
        statement,
        maker: PhantomData,
    };
    let primaries = Primaries { here };
    let expressions = Expressions { here };
    match kind {
        Nested::Sequence => expressions.sequence(cursor),
        Nested::Assignment => expressions.assignment(cursor),
        Nested::Power => expressions.power(cursor, Role::Among),
        Nested::Unary => expressions.unary(cursor),
        Nested::Callee => primaries.chain(cursor, Role::Callee),
        Nested::Heritage => primaries.chain(cursor, Role::Heritage),
    }
}

/// A statement, or what else may stand there.
pub fn listed<
    G: MakesStatements,
    E: Fn(&mut Cursor, u16, Flags, Nested) -> Result<G::Reading, Halt>,
    S: Fn(&mut Cursor, u16, Flags, Stand) -> Result<G::Statement, Halt>,
>(
    cursor: &mut Cursor,
    room: u16,
    flags: Flags,
    stand: Stand,
    expression: &E,
    statement: &S,
) -> Result<G::Statement, Halt>
    requires below { room < 65535 }
    requires expressions { ReadsExpressions G.seen (room + 1) (E.pre expression.now) (E.post expression.now) }
    requires statements { ReadsStatements G.seen_statement room (S.pre statement.now) (S.post statement.now) }
    ensures { ReadsAs G.seen_statement (any_statement (inner room) flags stand cursor.old) result cursor.new }
{
    let here = Here::<G, E, S> {
        room,
        flags,
        expression,
        statement,
        maker: PhantomData,
    };
    Statements { here }.statement(cursor, stand)
}

/// An expression, with its commas.
pub fn whole<
    G: MakesExpressions,
    E: Fn(&mut Cursor, u16, Flags, Nested) -> Result<G::Reading, Halt>,
    S: Fn(&mut Cursor, u16, Flags, Stand) -> Result<G::Statement, Halt>,
>(
    cursor: &mut Cursor,
    room: u16,
    flags: Flags,
    expression: &E,
    statement: &S,
) -> Result<G::Reading, Halt>
    requires expressions { ReadsExpressions G.seen room (E.pre expression.now) (E.post expression.now) }
    requires statements { ReadsStatements G.seen_statement room (S.pre statement.now) (S.post statement.now) }
    ensures { ReadsAs G.seen (sequence (inner room) flags cursor.old) result cursor.new }
{
    let here = Here::<G, E, S> {
        room,
        flags,
        expression,
        statement,
        maker: PhantomData,
    };
    Expressions { here }.sequence(cursor)
}
