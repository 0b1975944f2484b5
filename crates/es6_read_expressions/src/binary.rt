//! Operators between two operands (ECMA-262, 6th edition, 12.6 to 12.12). Those that wait for their right operand stand on a
//! stack, so that the depth of the recursion doesn't grow with the levels.

ghost use Rattle.std.specs.Prelude.{◌≡◌, ◌-◌, ◌<◌, ◌≤◌, ℕ, IfOk, Some, [], map};
ghost use Rattle.es6_ast.specs.Grammar.{binary_level};
ghost use Rattle.es6_ast.specs.declared.settings.Flags.{Flags as GrammarFlags};
ghost use Rattle.es6_cursor.specs.Readers.{inner};
ghost use Rattle.es6_cursor.specs.Reads.{ReadsAs};
ghost use Rattle.es6_cursor.specs.Takes.{known_as};
ghost use Rattle.es6_read_parts.specs.Handed.{HasExpressions, HasStatements};
ghost use Rattle.es6_read_expressions.specs.Levels.{IsRising, IsSilent, closed, level_of, operand_after, resumed, standing, top, with_operand};
ghost use Rattle.es6_read_expressions.specs.Waits.{seen_waiting, stacked};
ghost use Rattle.es6_reading.specs.Expressions.{binary_from};
ghost use Rattle.es6_ast.specs.declared.settings.Role.TheVariants.{Among, Leading};
ghost use Rattle.es6_reading.specs.Words.{binary_at};

use crate::readers::Expressions;
use es6_ast::BinaryOperator;
use es6_cursor::operators::binary_level;
use es6_cursor::{Cursor, Flags, Halt, Nested, Role, Stand, TURNS};
use es6_makers::{MakesExpressions, MakesOperators};
use sqlite_items::Items;
use std::alloc::{AllocError, Global};

/// An operand, those of the operators of one level that follow it, and the last of these operators, whose right operand is
/// being read.
#[derive(Drop)]
struct Pending<R, O> {
    begin: u32,
    level: u8,
    first: R,
    rest: O,
    operator: BinaryOperator,
    /// how many operators of the level may still come
    turns: u32,
}

/// An operand, and the offset at which it begins.
#[derive(Drop)]
struct Begun<R> {
    begin: u32,
    value: R,
}

impl<
    G: MakesExpressions,
    E: Fn(&mut Cursor, u16, Flags, Nested) -> Result<G::Reading, Halt>,
    S: Fn(&mut Cursor, u16, Flags, Stand) -> Result<G::Statement, Halt>,
> Expressions<'_, G, E, S> {
    /// An expression of operators between operands.
    pub fn binary(&self, cursor: &mut Cursor) -> Result<G::Reading, Halt>
        requires expressions { HasExpressions G.seen E.pre E.post self.now.here }
        requires statements { HasStatements G.seen_statement S.pre S.post self.now.here }
        ensures { ReadsAs G.seen (binary_from (inner self.now.here.room) self.now.here.flags Leading 10 3 cursor.old) result cursor.new }
    {
        let mut stack = Items::new(cursor.alloc());
        let mut role = Role::Leading;
        for turn in 0..TURNS {
            let begin = cursor.begin();
            let value = self.power(cursor, role)?;
            let next = cursor.next_binary(self.here.flags);
            let operand = settle::<G>(cursor, &mut stack, level(next), Begun { begin, value })?;
            let Some(operator) = next else {
                return Ok(operand.value);
            };
            wait::<G>(cursor, &mut stack, operand, operator)?;
            role = Role::Among;
        }
        Err(Halt::OutOfMemory)
    }
}

/// The level of an operator, or one below all where there is none.
fn level(operator: Option<BinaryOperator>) -> u8
    ensures { result ≡ level_of operator }
{
    match operator {
        Some(operator) => binary_level(operator),
        None => 2,
    }
}

/// Closes what binds tighter than the level. No operator above the level is next.
fn settle<G: MakesOperators>(
    cursor: &Cursor,
    stack: &mut Items<Pending<G::Reading, G::Operands>>,
    level: u8,
    operand: Begun<G::Reading>,
) -> Result<Begun<G::Reading>, AllocError>
    requires rising { IsRising 2 (stacked G.seen G.seen_operands stack.old) }
    requires range { (2 ≤ level) × (level ≤ 12) }
    ensures same { IfOk result (λ r. (room : ℕ) (flags : GrammarFlags) → IsSilent flags level cursor.now → resumed (inner room) flags 2 (stacked G.seen G.seen_operands stack.old) (standing (inner room) flags (top 2 (stacked G.seen G.seen_operands stack.old)) level operand.begin (G.seen operand.value) cursor.now) ≡ resumed (inner room) flags 2 (stacked G.seen G.seen_operands stack.new) (standing (inner room) flags (top 2 (stacked G.seen G.seen_operands stack.new)) level r.begin (G.seen r.value) cursor.now)) }
    ensures rising { IfOk result (λ r. IsRising 2 (stacked G.seen G.seen_operands stack.new) × (top 2 (stacked G.seen G.seen_operands stack.new) ≤ level)) }
{
    let mut operand = operand;
    'closing: loop {
        let Some(waiting) = stack.pop() else {
            return Ok(operand);
        };
        if waiting.level <= level {
            stack.push(waiting)?;
            return Ok(operand);
        }
        operand = close::<G>(cursor, waiting, operand.value)?;
    }
}

/// What waited, with its last operand.
fn close<G: MakesOperators>(
    cursor: &Cursor,
    waiting: Pending<G::Reading, G::Operands>,
    value: G::Reading,
) -> Result<Begun<G::Reading>, AllocError>
    ensures begin { IfOk result (λ r. r.begin ≡ waiting.begin) }
    ensures value { IfOk result (λ r. G.seen r.value ≡ closed (seen_waiting G.seen G.seen_operands waiting) (G.seen value) cursor.now.last) }
{
    let Pending {
        begin,
        level: _,
        first,
        mut rest,
        operator,
        turns: _,
    } = waiting;
    G::push_operand(&mut rest, operator, value)?;
    let value = G::binary(cursor.alloc(), cursor.span_from(begin), first, rest)?;
    Ok(Begun { begin, value })
}

/// Takes the operator, which is next, and lets its left operand wait.
fn wait<G: MakesOperators>(
    cursor: &mut Cursor,
    stack: &mut Items<Pending<G::Reading, G::Operands>>,
    operand: Begun<G::Reading>,
    operator: BinaryOperator,
) -> Result<(), AllocError>
    requires rising { IsRising 2 (stacked G.seen G.seen_operands stack.old) }
    requires below { top 2 (stacked G.seen G.seen_operands stack.old) ≤ binary_level operator }
    ensures same { IfOk result (λ r. (room : ℕ) (flags : GrammarFlags) → known_as (binary_at flags (binary_level operator)) cursor.old.tokens ≡ Some operator → resumed (inner room) flags 2 (stacked G.seen G.seen_operands stack.old) (standing (inner room) flags (top 2 (stacked G.seen G.seen_operands stack.old)) (binary_level operator) operand.begin (G.seen operand.value) cursor.old) ≡ resumed (inner room) flags 2 (stacked G.seen G.seen_operands stack.new) (operand_after (inner room) flags Among (top 2 (stacked G.seen G.seen_operands stack.new)) cursor.new)) }
    ensures rising { IfOk result (λ r. IsRising 2 (stacked G.seen G.seen_operands stack.new)) }
{
    cursor.take();
    let level = binary_level(operator);
    let Some(waiting) = stack.pop() else {
        stack.push(first::<G>(cursor.alloc(), operand, operator, level))?;
        return Ok(());
    };
    if waiting.level == level {
        stack.push(more::<G>(waiting, operand.value, operator)?)?;
        return Ok(());
    }
    stack.push(waiting)?;
    stack.push(first::<G>(cursor.alloc(), operand, operator, level))?;
    Ok(())
}

fn first<G: MakesOperators>(
    alloc: Global,
    operand: Begun<G::Reading>,
    operator: BinaryOperator,
    level: u8,
) -> Pending<G::Reading, G::Operands>
    ensures { seen_waiting G.seen G.seen_operands result ≡ record { begin = operand.begin; level = level; first = G.seen operand.value; rest = []; operator = operator; turns = 67108864 } }
{
    Pending {
        begin: operand.begin,
        level,
        first: operand.value,
        rest: G::no_operands(alloc),
        operator,
        turns: TURNS - 1,
    }
}

/// What waits, with one operand more.
fn more<G: MakesOperators>(
    waiting: Pending<G::Reading, G::Operands>,
    value: G::Reading,
    operator: BinaryOperator,
) -> Result<Pending<G::Reading, G::Operands>, AllocError>
    ensures same { IfOk result (λ r. seen_waiting G.seen G.seen_operands r ≡ record (seen_waiting G.seen G.seen_operands waiting) { rest = with_operand (G.seen_operands waiting.rest) waiting.operator (G.seen value); operator = operator; turns = waiting.turns - 1 }) }
    ensures left { IfOk result (λ r. 1 < waiting.turns) }
{
    // No text of the allowed length has so many operators.
    if waiting.turns < 2 {
        return Err(AllocError);
    }
    let Pending {
        begin,
        level,
        first,
        mut rest,
        operator: before,
        turns,
    } = waiting;
    G::push_operand(&mut rest, before, value)?;
    Ok(Pending {
        begin,
        level,
        first,
        rest,
        operator,
        turns: turns - 1,
    })
}
