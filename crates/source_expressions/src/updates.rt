//! `++` and `--` (ECMA-262, 6th edition, 12.4, 12.5.7, 12.5.8).

ghost use Rattle.std.specs.Prelude.{◌≡◌};
ghost use Rattle.es_value.specs.declared.value.Value.TheVariants.{Number as ValueNumber};
ghost use Rattle.source_meaning.specs.Expressions.{step_value, stepped, update_numbered, update_read, update_referred, with_result};
ghost use Rattle.source_meaning.specs.References.{put_value, reads};
ghost use Rattle.source_moves.specs.Moves.{Steps};
ghost use Rattle.source_moves.specs.Seen.{state_of};
ghost use Rattle.source_state.specs.declared.work.Work.TheVariants.{UpdateOld};

use crate::pending::ExpressionWork;
use crate::references::share_reference;
use es_calls::ErrorKind;
use es_operation_steps::Operation;
use es_value::{Exit, Value, add, sub};
use es6_ast::UpdateOperator;
use source_moves::{Moved, PendingWork, impossible, leave, operate, put_value, raise, read};
use source_state::{Completion, Reference, State};
use sqlite_items::Items;
use std::alloc::Global;

/// What they write, of the number before.
fn stepped(operator: UpdateOperator, before: i64) -> Result<i64, Exit>
    ensures { result ≡ stepped operator before }
{
    match operator {
        UpdateOperator::IncrementBefore | UpdateOperator::IncrementAfter => add(before, 1),
        UpdateOperator::DecrementBefore | UpdateOperator::DecrementAfter => sub(before, 1),
    }
}

/// Which of the two numbers they give.
fn step_value(operator: UpdateOperator, before: i64, after: i64) -> Value
    ensures { result ≡ step_value operator before after }
{
    match operator {
        UpdateOperator::IncrementBefore | UpdateOperator::DecrementBefore => Value::Number(after),
        UpdateOperator::IncrementAfter | UpdateOperator::DecrementAfter => Value::Number(before),
    }
}

/// The old value of a reference is read.
fn read_old<'a, W: ExpressionWork<'a>>(
    alloc: Global,
    operator: UpdateOperator,
    reference: Reference<'a>,
    st: &mut State<'a, W>,
) -> Moved<'a>
    ensures { Steps W.seen result st.new (reads (UpdateOld operator reference.entry) reference.entry (state_of W.seen st.old)) }
{
    let source = share_reference(&reference)?;
    read(alloc, W::update_old(operator, reference), source, st)
}

/// The target is there; only a reference is one.
pub fn update_referred<'a, W: ExpressionWork<'a>>(
    alloc: Global,
    operator: UpdateOperator,
    completion: Completion<'a>,
    st: &mut State<'a, W>,
) -> Moved<'a>
    ensures { Steps W.seen result st.new (update_referred operator (state_of W.seen st.old) completion.entry) }
{
    match completion {
        Completion::Refers(reference) => read_old(alloc, operator, reference, st),
        _ => raise(alloc, ErrorKind::ReferenceError, st),
    }
}

/// The old value becomes a number.
pub fn update_read<'a, W: ExpressionWork<'a>>(
    alloc: Global,
    operator: UpdateOperator,
    reference: Reference<'a>,
    value: Value,
    st: &mut State<'a, W>,
) -> Moved<'a>
    ensures { Steps W.seen result st.new (update_read operator reference.entry (state_of W.seen st.old) value) }
{
    let operands = Items::new(alloc);
    let work = W::update_number(operator, reference);
    operate(alloc, work, Operation::ToNumber, value, operands, st)
}

/// The number that follows is written, if it is in the profile.
fn put_stepped<'a, W: PendingWork<'a>>(
    alloc: Global,
    operator: UpdateOperator,
    reference: Reference<'a>,
    before: i64,
    st: &mut State<'a, W>,
) -> Moved<'a>
    ensures { Steps W.seen result st.new (with_result (stepped operator before) (state_of W.seen st.old) (λ after. put_value reference.entry (ValueNumber after) (step_value operator before after) (state_of W.seen st.old))) }
{
    match stepped(operator, before) {
        Ok(after) => {
            let given = step_value(operator, before, after);
            put_value(alloc, reference, Value::Number(after), given, st)
        }
        Err(exit) => leave(st, exit.number()),
    }
}

/// The old value is a number now.
pub fn update_numbered<'a, W: PendingWork<'a>>(
    alloc: Global,
    operator: UpdateOperator,
    reference: Reference<'a>,
    value: Value,
    st: &mut State<'a, W>,
) -> Moved<'a>
    ensures { Steps W.seen result st.new (update_numbered operator reference.entry (state_of W.seen st.old) value) }
{
    match value {
        Value::Number(before) => put_stepped(alloc, operator, reference, before, st),
        _ => impossible(st),
    }
}
