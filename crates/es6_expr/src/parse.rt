//! An expression or a statement by itself.

ghost use Rattle.std.specs.Prelude.{◌≡◌, ◌≤◌, ◌<◌, ◌-◌, drop, length, map, IfOk, IfErr};
ghost use Rattle.es6_ast.specs.Tokens.{read};
ghost use Rattle.es6_reading.specs.Expressions.{sequence};
ghost use Rattle.es6_reading.specs.Parser.{Reading as Seen};
ghost use Rattle.es6_ast.specs.declared.settings.Stand.TheVariants.{Listed};
ghost use Rattle.es6_reading.specs.Statements.{statement};
ghost use Rattle.es6_reading_laws.specs.es6_viability.Fronts.{IsExpressionBefore, IsStatementBefore};
ghost use Rattle.es6_reading_laws.specs.es6_viability.TooDeep.{open_in_expression, open_in_statement};
ghost use Rattle.es6_cursor.specs.Readers.{inner};
ghost use Rattle.es6_expr.specs.Parsed.{Answers, IsExpressionFault, IsExpressionIn};
ghost use Rattle.es6_expr.specs.Parsed.{IsShallow, IsStatementFault, IsStatementIn};
ghost use Rattle.es6_expr.specs.Parsed.{IsTheOnly, flags_in, input_at};

use crate::fault::{ParseFault, fault_of, place_of};
use crate::readers::{sequence, statement};
use es6_ast::{Expression, Statement};
use es6_cursor::{Cursor, Flags, Halt, Stand};
use es6_lexer::Token;
use std::alloc::Global;

/// Where an expression or a statement stands: whether `in` is no operator there, whether it is inside a generator, inside a
/// function, and how many constructs are open.
#[derive(Clone, Copy, Debug, PartialEq, Eq)]
pub struct Context {
    pub no_in: bool,
    pub in_generator: bool,
    pub in_function: bool,
    pub depth: u32,
}

impl Context {
    fn flags(self) -> Flags
        ensures { result ≡ flags_in self }
    {
        Flags {
            has_in: !self.no_in,
            has_yield: self.in_generator,
            has_return: self.in_function,
        }
    }

    /// How many constructs may still open. At most 256 may be open at one token.
    fn room(self) -> u16
        requires { self.depth ≤ 256 }
        ensures { result ≡ 256 - self.depth }
    {
        256 - self.depth as u16
    }
}

/// The expression that the tokens from the number on begin with, and the number of the token behind it (ECMA-262, 6th
/// edition, 12.15).
pub fn parse_expression(
    alloc: Global,
    tokens: &[Token],
    from: usize,
    context: Context,
) -> Result<(Expression, usize), ParseFault>
    requires within { from < length tokens.now }
    requires depth { context.depth ≤ 256 }
    ensures read { Answers (λ (r : Seen). r.value) tokens.now (sequence (inner (256 - context.depth)) (flags_in context) (input_at tokens.now from)) result }
    ensures spelled { IfOk result (IsExpressionIn (flags_in context) tokens.now from) }
    ensures shallow { IfOk result (IsShallow (256 - context.depth) open_in_expression tokens.now from) }
    ensures only { IfOk result (IsTheOnly (IsExpressionBefore (flags_in context) (drop from tokens.now)) tokens.now) }
    ensures fault { IfErr result (IsExpressionFault (256 - context.depth) (flags_in context) tokens.now from) }
{
    read_expression(alloc, tokens, from, context)
}

/// The same, as the model reads the tokens.
fn read_expression(
    alloc: Global,
    tokens: &[Token],
    from: usize,
    context: Context,
) -> Result<(Expression, usize), ParseFault>
    requires within { from < length tokens.now }
    requires depth { context.depth ≤ 256 }
    ensures { Answers (λ (r : Seen). r.value) tokens.now (sequence (inner (256 - context.depth)) (flags_in context) (input_at tokens.now from)) result }
{
    let mut cursor = Cursor::new(alloc, &tokens[from..]);
    match sequence(&mut cursor, context.room(), context.flags()) {
        Ok(reading) => Ok((reading.into_value(), taken(tokens, cursor.rest()))),
        Err(Halt::Stopped(stop)) => Err(fault_of(stop, place_of(tokens, cursor.rest()))),
        Err(Halt::OutOfMemory) => Err(ParseFault::OutOfMemory),
    }
}

/// The statement or declaration that the tokens from the number on begin with, with its semicolon or none where one is
/// inserted, and the number of the token behind it (13).
pub fn parse_statement(
    alloc: Global,
    tokens: &[Token],
    from: usize,
    context: Context,
) -> Result<(Statement, usize), ParseFault>
    requires within { from < length tokens.now }
    requires depth { context.depth ≤ 256 }
    ensures read { Answers (λ s. s) tokens.now (statement (inner (256 - context.depth)) (flags_in context) Listed (input_at tokens.now from)) result }
    ensures spelled { IfOk result (IsStatementIn (flags_in context) tokens.now from) }
    ensures shallow { IfOk result (IsShallow (256 - context.depth) open_in_statement tokens.now from) }
    ensures only { IfOk result (IsTheOnly (IsStatementBefore (flags_in context) (drop from tokens.now)) tokens.now) }
    ensures fault { IfErr result (IsStatementFault (256 - context.depth) (flags_in context) tokens.now from) }
{
    read_statement(alloc, tokens, from, context)
}

/// The same, as the model reads the tokens.
fn read_statement(
    alloc: Global,
    tokens: &[Token],
    from: usize,
    context: Context,
) -> Result<(Statement, usize), ParseFault>
    requires within { from < length tokens.now }
    requires depth { context.depth ≤ 256 }
    ensures { Answers (λ s. s) tokens.now (statement (inner (256 - context.depth)) (flags_in context) Listed (input_at tokens.now from)) result }
{
    let mut cursor = Cursor::new(alloc, &tokens[from..]);
    match statement(&mut cursor, context.room(), context.flags(), Stand::Listed) {
        Ok(statement) => Ok((statement, taken(tokens, cursor.rest()))),
        Err(Halt::Stopped(stop)) => Err(fault_of(stop, place_of(tokens, cursor.rest()))),
        Err(Halt::OutOfMemory) => Err(ParseFault::OutOfMemory),
    }
}

/// How many of the tokens stand before those that are left.
fn taken(tokens: &[Token], rest: &[Token]) -> usize
    ensures { result ≡ length tokens.now - length (map read rest.now) }
{
    tokens.len().saturating_sub(rest.len())
}
