//! Functions and generator functions (ECMA-262, 6th edition, 14.1, 14.4).

ghost use Rattle.es6_cursor.specs.Nests.{ReadsExpressions, ReadsStatements};
ghost use Rattle.es6_cursor.specs.Readers.{inner};
ghost use Rattle.es6_cursor.specs.Reads.{ReadsAs};
ghost use Rattle.es6_reading.specs.Parser.{Took};
ghost use Rattle.es6_reading.specs.Parts.{function_after_word, function_body, named_function, rest_of_function, signature, star};
ghost use Rattle.es6_read_parts.specs.Signatures.{seen_signature};
ghost use Rattle.std.specs.Prelude.{◌≡◌};

use crate::blocks::statements;
use crate::parameters::parameters;
use crate::signature::Signature;
use es6_ast::Identifier;
use es6_cursor::{Cursor, Flags, Halt, Nested, Stand, enter};
use es6_lexer::Punctuator;
use es6_makers::{MakesFunctions, MakesSignatures, MakesStatementLists};

/// The body of a function or a generator function, in braces.
#[tactic(auto, using(es6_cursor::proofs::Rules::groups), unfolding(es6_reading::specs::Parts::function_body))]
pub fn function_body<
    G: MakesStatementLists,
    S: Fn(&mut Cursor, u16, Flags, Stand) -> Result<G::Statement, Halt>,
>(cursor: &mut Cursor, room: u16, generator: bool, statement: &S) -> Result<G::Statements, Halt>
    requires statements { ReadsStatements G.seen_statement room (S.pre statement.now) (S.post statement.now) }
    ensures { ReadsAs G.seen_statements (function_body (inner room) generator cursor.old) result cursor.new }
{
    enter(cursor, room, Punctuator::LeftBrace)?;
    statements::<G, S>(cursor, room, Flags::of_function(generator), statement)
}

/// The parameters and the body of a function, from the opening parenthesis on.
#[tactic(auto, using(es6_cursor::proofs::Rules::groups), unfolding(es6_reading::specs::Parts::signature))]
pub fn signature<
    G: MakesSignatures,
    E: Fn(&mut Cursor, u16, Flags, Nested) -> Result<G::Reading, Halt>,
    S: Fn(&mut Cursor, u16, Flags, Stand) -> Result<G::Statement, Halt>,
>(
    cursor: &mut Cursor,
    room: u16,
    generator: bool,
    expression: &E,
    statement: &S,
) -> Result<Signature<G::Parameters, G::Statements>, Halt>
    requires expressions { ReadsExpressions G.seen room (E.pre expression.now) (E.post expression.now) }
    requires statements { ReadsStatements G.seen_statement room (S.pre statement.now) (S.post statement.now) }
    ensures { ReadsAs (seen_signature G.seen_parameters G.seen_statements) (signature (inner room) generator cursor.old) result cursor.new }
{
    enter(cursor, room, Punctuator::LeftParenthesis)?;
    let parameters = parameters::<G, E>(cursor, room, Flags::of_function(generator), expression)?;
    let body = function_body::<G, S>(cursor, room, generator, statement)?;
    Ok(Signature { parameters, body })
}

/// Takes the `*` of a generator, if it is next.
#[tactic(auto, using(crate::proofs::Stars::star_is))]
fn star(cursor: &mut Cursor) -> bool
    ensures { star cursor.old ≡ Took result cursor.new }
{
    cursor.take_mark(Punctuator::Star)
}

/// What follows the name of a function, which begins at the offset.
#[tactic(auto, using(es6_cursor::proofs::Rules::groups), unfolding(es6_reading::specs::Parts::rest_of_function))]
fn rest_of_function<
    G: MakesFunctions,
    E: Fn(&mut Cursor, u16, Flags, Nested) -> Result<G::Reading, Halt>,
    S: Fn(&mut Cursor, u16, Flags, Stand) -> Result<G::Statement, Halt>,
>(
    cursor: &mut Cursor,
    room: u16,
    begin: u32,
    generator: bool,
    name: Option<Identifier>,
    expression: &E,
    statement: &S,
) -> Result<G::Function, Halt>
    requires expressions { ReadsExpressions G.seen room (E.pre expression.now) (E.post expression.now) }
    requires statements { ReadsStatements G.seen_statement room (S.pre statement.now) (S.post statement.now) }
    ensures { ReadsAs G.seen_function (rest_of_function (inner room) begin generator name cursor.old) result cursor.new }
{
    let Signature { parameters, body } = signature::<G, E, S>(
        cursor, room, generator, expression, statement,
    )?;
    let span = cursor.span_from(begin);
    Ok(G::function(span, generator, name, parameters, body))
}

/// The name of a function that begins at the offset, and what follows it (14.1).
#[tactic(auto, using(es6_cursor::proofs::Rules::groups), unfolding(es6_reading::specs::Parts::named_function))]
pub fn named_function<
    G: MakesFunctions,
    E: Fn(&mut Cursor, u16, Flags, Nested) -> Result<G::Reading, Halt>,
    S: Fn(&mut Cursor, u16, Flags, Stand) -> Result<G::Statement, Halt>,
>(
    cursor: &mut Cursor,
    room: u16,
    begin: u32,
    generator: bool,
    expression: &E,
    statement: &S,
) -> Result<G::Function, Halt>
    requires expressions { ReadsExpressions G.seen room (E.pre expression.now) (E.post expression.now) }
    requires statements { ReadsStatements G.seen_statement room (S.pre statement.now) (S.post statement.now) }
    ensures { ReadsAs G.seen_function (named_function (inner room) begin generator cursor.old) result cursor.new }
{
    let name = cursor.identifier()?;
    rest_of_function::<G, E, S>(
        cursor,
        room,
        begin,
        generator,
        Some(name),
        expression,
        statement,
    )
}

/// What follows `function`, which begins at the offset. The mark says that the name may be absent.
#[tactic(auto, using(es6_cursor::proofs::Rules::groups), unfolding(es6_reading::specs::Parts::function_after_word))]
#[inline(never)]
pub fn function_after_word<
    G: MakesFunctions,
    E: Fn(&mut Cursor, u16, Flags, Nested) -> Result<G::Reading, Halt>,
    S: Fn(&mut Cursor, u16, Flags, Stand) -> Result<G::Statement, Halt>,
>(
    cursor: &mut Cursor,
    room: u16,
    lacks: bool,
    begin: u32,
    expression: &E,
    statement: &S,
) -> Result<G::Function, Halt>
    requires expressions { ReadsExpressions G.seen room (E.pre expression.now) (E.post expression.now) }
    requires statements { ReadsStatements G.seen_statement room (S.pre statement.now) (S.post statement.now) }
    ensures { ReadsAs G.seen_function (function_after_word (inner room) lacks begin cursor.old) result cursor.new }
{
    let generator = star(cursor);
    if !lacks {
        return named_function::<G, E, S>(cursor, room, begin, generator, expression, statement);
    }
    if cursor.next_is_mark(Punctuator::LeftParenthesis) {
        return rest_of_function::<G, E, S>(
            cursor, room, begin, generator, None, expression, statement,
        );
    }
    named_function::<G, E, S>(cursor, room, begin, generator, expression, statement)
}
