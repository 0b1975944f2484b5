//! Methods (ECMA-262, 6th edition, 14.3, 14.4).

ghost use Rattle.es6_cursor.specs.Nests.{ReadsExpressions, ReadsStatements};
ghost use Rattle.es6_cursor.specs.Readers.{inner};
ghost use Rattle.es6_cursor.specs.Reads.{ReadsAs};
ghost use Rattle.es6_reading.specs.Parts.{accessor, accessor_kind, accessor_parameters, generator_method, method, method_after_accessor_word, method_after_key, no_parameter, one_parameter};
ghost use Rattle.es6_reading.specs.Words.{accessor_name};
ghost use Rattle.es6_read_parts.specs.Accessors.{accessor_after_key, enclosed_parameters};
ghost use Rattle.std.specs.Prelude.{◌≡◌};

use crate::function::{function_body, signature};
use crate::inner::inner_part;
use crate::keys::key;
use crate::signature::Signature;
use es6_ast::MethodKind;
use es6_cursor::{Cursor, Flags, Halt, Nested, Stand, enter};
use es6_lexer::Punctuator;
use es6_makers::{MakesMethods, MakesParameterLists, MakesParameters};
use shared_text::Name;

/// What follows the name of a method, which begins at the offset.
#[tactic(auto, using(es6_cursor::proofs::Rules::groups), unfolding(es6_reading::specs::Parts::method_after_key))]
#[inline(never)]
pub fn method_after_key<
    G: MakesMethods,
    E: Fn(&mut Cursor, u16, Flags, Nested) -> Result<G::Reading, Halt>,
    S: Fn(&mut Cursor, u16, Flags, Stand) -> Result<G::Statement, Halt>,
>(
    cursor: &mut Cursor,
    room: u16,
    kind: MethodKind,
    generator: bool,
    begin: u32,
    key: G::Key,
    expression: &E,
    statement: &S,
) -> Result<G::Method, Halt>
    requires expressions { ReadsExpressions G.seen room (E.pre expression.now) (E.post expression.now) }
    requires statements { ReadsStatements G.seen_statement room (S.pre statement.now) (S.post statement.now) }
    ensures { ReadsAs G.seen_method (method_after_key (inner room) kind generator begin (G.seen_key key) cursor.old) result cursor.new }
{
    let from_parameters = cursor.begin();
    let Signature { parameters, body } = signature::<G, E, S>(
        cursor, room, generator, expression, statement,
    )?;
    let function_span = cursor.span_from(from_parameters);
    let span = cursor.span_from(begin);
    Ok(G::method(
        cursor.alloc(),
        span,
        kind,
        key,
        function_span,
        parameters,
        body,
    )?)
}

/// The closing parenthesis of a getter's parameters.
#[tactic(auto, using(es6_cursor::proofs::Rules::groups), unfolding(es6_reading::specs::Parts::no_parameter))]
fn no_parameter<G: MakesParameters>(cursor: &mut Cursor) -> Result<G::Parameters, Halt>
    ensures { ReadsAs G.seen_parameters (no_parameter cursor.old) result cursor.new }
{
    cursor.expect_mark(Punctuator::RightParenthesis)?;
    Ok(G::no_parameters(cursor.alloc()))
}

/// The parameter of a setter, and the closing parenthesis.
#[tactic(auto, using(es6_cursor::proofs::Rules::groups), unfolding(es6_reading::specs::Parts::one_parameter))]
fn one_parameter<
    G: MakesParameterLists,
    E: Fn(&mut Cursor, u16, Flags, Nested) -> Result<G::Reading, Halt>,
>(cursor: &mut Cursor, room: u16, expression: &E) -> Result<G::Parameters, Halt>
    requires expressions { ReadsExpressions G.seen room (E.pre expression.now) (E.post expression.now) }
    ensures { ReadsAs G.seen_parameters (one_parameter (inner room) cursor.old) result cursor.new }
{
    let part = inner_part::<G, E>(cursor, room, Flags::of_function(false), expression)?;
    cursor.expect_mark(Punctuator::RightParenthesis)?;
    let mut list = G::no_parameters(cursor.alloc());
    G::push_parameter(&mut list, part)?;
    Ok(list)
}

#[tactic(auto, using(es6_cursor::proofs::Rules::groups), unfolding(es6_reading::specs::Parts::accessor_parameters))]
fn accessor_parameters<
    G: MakesParameterLists,
    E: Fn(&mut Cursor, u16, Flags, Nested) -> Result<G::Reading, Halt>,
>(cursor: &mut Cursor, room: u16, setter: bool, expression: &E) -> Result<G::Parameters, Halt>
    requires expressions { ReadsExpressions G.seen room (E.pre expression.now) (E.post expression.now) }
    ensures { ReadsAs G.seen_parameters (accessor_parameters (inner room) setter cursor.old) result cursor.new }
{
    if setter {
        one_parameter::<G, E>(cursor, room, expression)
    } else {
        no_parameter::<G>(cursor)
    }
}

fn accessor_kind(setter: bool) -> MethodKind
    ensures { result ≡ accessor_kind setter }
{
    if setter {
        MethodKind::SetterMethod
    } else {
        MethodKind::GetterMethod
    }
}

/// The parameters of an accessor in parentheses.
#[tactic(auto, using(es6_cursor::proofs::Rules::groups), unfolding(crate::specs::Accessors::enclosed_parameters))]
fn enclosed_parameters<
    G: MakesParameterLists,
    E: Fn(&mut Cursor, u16, Flags, Nested) -> Result<G::Reading, Halt>,
>(cursor: &mut Cursor, room: u16, setter: bool, expression: &E) -> Result<G::Parameters, Halt>
    requires expressions { ReadsExpressions G.seen room (E.pre expression.now) (E.post expression.now) }
    ensures { ReadsAs G.seen_parameters (enclosed_parameters (inner room) setter cursor.old) result cursor.new }
{
    enter(cursor, room, Punctuator::LeftParenthesis)?;
    accessor_parameters::<G, E>(cursor, room, setter, expression)
}

/// What follows the name of an accessor, which begins at the offset.
#[tactic(auto, unfolding(crate::specs::Accessors::accessor_after_key))]
fn accessor_after_key<
    G: MakesMethods,
    E: Fn(&mut Cursor, u16, Flags, Nested) -> Result<G::Reading, Halt>,
    S: Fn(&mut Cursor, u16, Flags, Stand) -> Result<G::Statement, Halt>,
>(
    cursor: &mut Cursor,
    room: u16,
    begin: u32,
    setter: bool,
    key: G::Key,
    expression: &E,
    statement: &S,
) -> Result<G::Method, Halt>
    requires expressions { ReadsExpressions G.seen room (E.pre expression.now) (E.post expression.now) }
    requires statements { ReadsStatements G.seen_statement room (S.pre statement.now) (S.post statement.now) }
    ensures { ReadsAs G.seen_method (accessor_after_key (inner room) begin setter (G.seen_key key) cursor.old) result cursor.new }
{
    let from_parameters = cursor.begin();
    let parameters = enclosed_parameters::<G, E>(cursor, room, setter, expression)?;
    let body = function_body::<G, S>(cursor, room, false, statement)?;
    let function_span = cursor.span_from(from_parameters);
    let span = cursor.span_from(begin);
    let kind = accessor_kind(setter);
    Ok(G::method(
        cursor.alloc(),
        span,
        kind,
        key,
        function_span,
        parameters,
        body,
    )?)
}

/// What follows `get` or `set`, which begins at the offset.
#[tactic(auto, using(es6_cursor::proofs::Rules::groups), unfolding(es6_reading::specs::Parts::accessor, crate::specs::Accessors::accessor_after_key, crate::specs::Accessors::enclosed_parameters))]
#[inline(never)]
pub fn accessor<
    G: MakesMethods,
    E: Fn(&mut Cursor, u16, Flags, Nested) -> Result<G::Reading, Halt>,
    S: Fn(&mut Cursor, u16, Flags, Stand) -> Result<G::Statement, Halt>,
>(
    cursor: &mut Cursor,
    room: u16,
    flags: Flags,
    begin: u32,
    setter: bool,
    expression: &E,
    statement: &S,
) -> Result<G::Method, Halt>
    requires expressions { ReadsExpressions G.seen room (E.pre expression.now) (E.post expression.now) }
    requires statements { ReadsStatements G.seen_statement room (S.pre statement.now) (S.post statement.now) }
    ensures { ReadsAs G.seen_method (accessor (inner room) flags begin setter cursor.old) result cursor.new }
{
    let key = key::<G, E>(cursor, room, flags, expression)?;
    accessor_after_key::<G, E, S>(cursor, room, begin, setter, key, expression, statement)
}

/// What follows the `*` of a generator method, which begins at the offset.
#[tactic(auto, using(es6_cursor::proofs::Rules::groups), unfolding(es6_reading::specs::Parts::generator_method))]
pub fn generator_method<
    G: MakesMethods,
    E: Fn(&mut Cursor, u16, Flags, Nested) -> Result<G::Reading, Halt>,
    S: Fn(&mut Cursor, u16, Flags, Stand) -> Result<G::Statement, Halt>,
>(
    cursor: &mut Cursor,
    room: u16,
    flags: Flags,
    begin: u32,
    expression: &E,
    statement: &S,
) -> Result<G::Method, Halt>
    requires expressions { ReadsExpressions G.seen room (E.pre expression.now) (E.post expression.now) }
    requires statements { ReadsStatements G.seen_statement room (S.pre statement.now) (S.post statement.now) }
    ensures { ReadsAs G.seen_method (generator_method (inner room) flags begin cursor.old) result cursor.new }
{
    let key = key::<G, E>(cursor, room, flags, expression)?;
    method_after_key::<G, E, S>(
        cursor,
        room,
        MethodKind::GeneratorMethod,
        true,
        begin,
        key,
        expression,
        statement,
    )
}

/// The word of an accessor (14.3).
pub fn accessor_name(setter: bool) -> &'static [u8]
    ensures { result.now ≡ accessor_name setter }
{
    if setter { b"set" } else { b"get" }
}

/// What follows `get` or `set`, which begins at the offset: the parameters of a method of that name, else an accessor.
#[tactic(auto, using(es6_cursor::proofs::Rules::groups), unfolding(es6_reading::specs::Parts::method_after_accessor_word))]
#[inline(never)]
fn method_after_accessor_word<
    G: MakesMethods,
    E: Fn(&mut Cursor, u16, Flags, Nested) -> Result<G::Reading, Halt>,
    S: Fn(&mut Cursor, u16, Flags, Stand) -> Result<G::Statement, Halt>,
>(
    cursor: &mut Cursor,
    room: u16,
    flags: Flags,
    begin: u32,
    setter: bool,
    expression: &E,
    statement: &S,
) -> Result<G::Method, Halt>
    requires expressions { ReadsExpressions G.seen room (E.pre expression.now) (E.post expression.now) }
    requires statements { ReadsStatements G.seen_statement room (S.pre statement.now) (S.post statement.now) }
    ensures { ReadsAs G.seen_method (method_after_accessor_word (inner room) flags begin setter cursor.old) result cursor.new }
{
    let span = cursor.span_from(begin);
    if cursor.next_is_mark(Punctuator::LeftParenthesis) {
        let name = Name::of_bytes(cursor.alloc(), accessor_name(setter))?;
        let key = G::word_key(span, name);
        return method_after_key::<G, E, S>(
            cursor,
            room,
            MethodKind::PlainMethod,
            false,
            begin,
            key,
            expression,
            statement,
        );
    }
    accessor::<G, E, S>(cursor, room, flags, begin, setter, expression, statement)
}

/// MethodDefinition.
#[tactic(auto, using(es6_cursor::proofs::Rules::groups), unfolding(es6_reading::specs::Parts::method))]
pub fn method<
    G: MakesMethods,
    E: Fn(&mut Cursor, u16, Flags, Nested) -> Result<G::Reading, Halt>,
    S: Fn(&mut Cursor, u16, Flags, Stand) -> Result<G::Statement, Halt>,
>(
    cursor: &mut Cursor,
    room: u16,
    flags: Flags,
    expression: &E,
    statement: &S,
) -> Result<G::Method, Halt>
    requires expressions { ReadsExpressions G.seen room (E.pre expression.now) (E.post expression.now) }
    requires statements { ReadsStatements G.seen_statement room (S.pre statement.now) (S.post statement.now) }
    ensures { ReadsAs G.seen_method (method (inner room) flags cursor.old) result cursor.new }
{
    let begin = cursor.begin();
    if cursor.take_mark(Punctuator::Star) {
        return generator_method::<G, E, S>(cursor, room, flags, begin, expression, statement);
    }
    if let Some(setter) = cursor.take_accessor() {
        return method_after_accessor_word::<G, E, S>(
            cursor, room, flags, begin, setter, expression, statement,
        );
    }
    let key = key::<G, E>(cursor, room, flags, expression)?;
    method_after_key::<G, E, S>(
        cursor,
        room,
        MethodKind::PlainMethod,
        false,
        begin,
        key,
        expression,
        statement,
    )
}
