//! Operators between two operands (ECMA-262, 5.1 edition, 11.5 to 11.11). Those that wait for their right operand stand on a
//! stack, so that the depth of the recursion doesn't grow with the levels.

ghost use Rattle.std.specs.Prelude.{◌≡◌, ℕ, ◌<◌, ◌≤◌, ◌-◌, Bool, [], Some, IfOk};
ghost use Rattle.es5_reading.specs.Expressions.{binary_from, binary_at};
ghost use Rattle.es5_ast.specs.Grammar.{binary_level};
ghost use Rattle.es5_cursor.specs.Nests.{ReadsExpressions, ReadsStatements};
ghost use Rattle.es5_cursor.specs.Reads.{Reads};
ghost use Rattle.es5_cursor.specs.Takes.{known_as};
ghost use Rattle.es5_read_expressions.specs.Levels.{IsRising, IsSilent, closed, level_of, operand_after, resumed, standing, top, with_operand};
ghost use Rattle.es5_cursor.specs.Readers.{inner};

use crate::expression::unary;
use es5_ast::{BinaryOperator5, Operand5, Stat5};
use es5_cursor::{Cursor, Halt, Nested, TURNS, binary_level};
use es5_nodes::lists::push_operand;
use es5_nodes::{Read, expressions};
use sqlite_items::{Boxed, Items};
use std::alloc::{AllocError, Global};

/// An operand, those of the operators of one level that follow it, and the last of these operators, whose right operand is
/// being read.
#[derive(Drop)]
struct Pending {
    begin: u32,
    level: u8,
    first: Read,
    rest: Items<Operand5>,
    operator: BinaryOperator5,
    /// how many operators of the level may still come
    turns: u32,
}

/// An operand, and the offset at which it begins.
#[derive(Drop)]
struct Begun {
    begin: u32,
    value: Read,
}

/// An expression of operators between operands.
pub fn binary<
    E: Fn(&mut Cursor, u16, bool, Nested) -> Result<Read, Halt>,
    S: Fn(&mut Cursor, u16, bool, bool) -> Result<Boxed<Stat5>, Halt>,
>(cursor: &mut Cursor, room: u16, no_in: bool, expression: &E, statement: &S) -> Result<Read, Halt>
    requires expressions { ReadsExpressions room (E.pre expression.now) (E.post expression.now) }
    requires statements { ReadsStatements room (S.pre statement.now) (S.post statement.now) }
    ensures { Reads (binary_from (inner room) no_in 10 3 cursor.old) result cursor.new }
{
    let mut stack = Items::new(cursor.alloc());
    operators::<E, S>(cursor, room, no_in, &mut stack, expression, statement)
}

#[tactic(auto, using(crate::proofs::Levels::unary_fault))]
fn operators<
    E: Fn(&mut Cursor, u16, bool, Nested) -> Result<Read, Halt>,
    S: Fn(&mut Cursor, u16, bool, bool) -> Result<Boxed<Stat5>, Halt>,
>(
    cursor: &mut Cursor,
    room: u16,
    no_in: bool,
    stack: &mut Items<Pending>,
    expression: &E,
    statement: &S,
) -> Result<Read, Halt>
    requires expressions { ReadsExpressions room (E.pre expression.now) (E.post expression.now) }
    requires statements { ReadsStatements room (S.pre statement.now) (S.post statement.now) }
    requires empty { stack.old ≡ [] }
    ensures { Reads (binary_from (inner room) no_in 10 3 cursor.old) result cursor.new }
{
    for turn in 0..TURNS {
        let begin = cursor.begin();
        let value = unary::<E, S>(cursor, room, expression, statement)?;
        let next = cursor.next_binary(no_in);
        let operand = settle(cursor, stack, level(next), Begun { begin, value })?;
        let Some(operator) = next else {
            return Ok(operand.value);
        };
        wait(cursor, stack, operand, operator)?;
    }
    Err(Halt::OutOfMemory)
}

/// The level of an operator, or one below all where there is none.
fn level(operator: Option<BinaryOperator5>) -> u8
    ensures { result ≡ level_of operator }
{
    match operator {
        Some(operator) => binary_level(operator),
        None => 2,
    }
}

/// Closes what binds tighter than the level. No operator above the level is next.
#[inline(never)]
fn settle(
    cursor: &Cursor,
    stack: &mut Items<Pending>,
    level: u8,
    operand: Begun,
) -> Result<Begun, AllocError>
    requires rising { IsRising 2 stack.old }
    requires range { (2 ≤ level) × (level ≤ 12) }
    ensures same { IfOk result (λ r. (room : ℕ) (no_in : Bool) → IsSilent no_in level cursor.now → resumed (inner room) no_in 2 stack.old (standing (inner room) no_in (top 2 stack.old) level operand.begin operand.value cursor.now) ≡ resumed (inner room) no_in 2 stack.new (standing (inner room) no_in (top 2 stack.new) level r.begin r.value cursor.now)) }
    ensures rising { IfOk result (λ r. IsRising 2 stack.new × (top 2 stack.new ≤ level)) }
{
    let mut operand = operand;
    'closing: loop {
        let Some(waiting) = stack.pop() else {
            return Ok(operand);
        };
        if waiting.level <= level {
            stack.push(waiting)?;
            return Ok(operand);
        }
        operand = close(cursor, waiting, operand.value)?;
    }
}

/// What waited, with its last operand.
#[inline(never)]
fn close(cursor: &Cursor, waiting: Pending, value: Read) -> Result<Begun, AllocError>
    ensures { IfOk result (λ r. r ≡ record { begin = waiting.begin; value = closed waiting value cursor.now.last }) }
{
    let Pending {
        begin,
        level: _,
        first,
        mut rest,
        operator,
        turns: _,
    } = waiting;
    push_operand(&mut rest, operator, value.into_value())?;
    let value = expressions::binary(cursor.alloc(), cursor.span_from(begin), first, rest)?;
    Ok(Begun { begin, value })
}

/// Takes the operator, which is next, and lets its left operand wait.
#[inline(never)]
fn wait(
    cursor: &mut Cursor,
    stack: &mut Items<Pending>,
    operand: Begun,
    operator: BinaryOperator5,
) -> Result<(), AllocError>
    requires rising { IsRising 2 stack.old }
    requires below { top 2 stack.old ≤ binary_level operator }
    ensures same { IfOk result (λ r. (room : ℕ) (no_in : Bool) → known_as (binary_at no_in (binary_level operator)) cursor.old.tokens ≡ Some operator → resumed (inner room) no_in 2 stack.old (standing (inner room) no_in (top 2 stack.old) (binary_level operator) operand.begin operand.value cursor.old) ≡ resumed (inner room) no_in 2 stack.new (operand_after (inner room) no_in (top 2 stack.new) cursor.new)) }
    ensures rising { IfOk result (λ r. IsRising 2 stack.new) }
{
    cursor.take();
    let level = binary_level(operator);
    let Some(waiting) = stack.pop() else {
        stack.push(first(cursor.alloc(), operand, operator, level))?;
        return Ok(());
    };
    if waiting.level == level {
        stack.push(more(waiting, operand.value, operator)?)?;
        return Ok(());
    }
    stack.push(waiting)?;
    stack.push(first(cursor.alloc(), operand, operator, level))?;
    Ok(())
}

fn first(alloc: Global, operand: Begun, operator: BinaryOperator5, level: u8) -> Pending
    ensures { result ≡ record { begin = operand.begin; level = level; first = operand.value; rest = []; operator = operator; turns = 67108864 } }
{
    Pending {
        begin: operand.begin,
        level,
        first: operand.value,
        rest: Items::new(alloc),
        operator,
        turns: TURNS - 1,
    }
}

/// What waits, with one operand more.
#[inline(never)]
fn more(waiting: Pending, value: Read, operator: BinaryOperator5) -> Result<Pending, AllocError>
    ensures same { IfOk result (λ r. r ≡ record waiting { rest = with_operand waiting.rest waiting.operator value; operator = operator; turns = waiting.turns - 1 }) }
    ensures left { IfOk result (λ r. 1 < waiting.turns) }
{
    // No text of the allowed length has so many operators.
    if waiting.turns < 2 {
        return Err(AllocError);
    }
    let Pending {
        begin,
        level,
        first,
        mut rest,
        operator: before,
        turns,
    } = waiting;
    push_operand(&mut rest, before, value.into_value())?;
    Ok(Pending {
        begin,
        level,
        first,
        rest,
        operator,
        turns: turns - 1,
    })
}
