//! `yield*` (ECMA-262, 6th edition, 14.4.14): inner results are handed on as they are.

ghost use Rattle.std.specs.Prelude.{◌≡◌, ◌∷◌, []};
ghost use Rattle.es_operation_steps.specs.Operations.{number_of};
ghost use Rattle.es_operations.specs.Numbers.{get_number};
ghost use Rattle.es_value.specs.declared.value.Value.{Value};
ghost use Rattle.source_meaning.specs.Generators.{delegate, delegate_done, delegate_given, delegate_number, delegate_turn, delegate_value};
ghost use Rattle.source_meaning.specs.Steps.{operates};
ghost use Rattle.source_moves.specs.Moves.{Steps};
ghost use Rattle.source_moves.specs.Seen.{state_of};

use crate::pending::CallWork;
use crate::yielding::yields;
use es_calls::Resumption;
use es_operation_steps::Operation;
use es_operators::truth_of;
use es_value::{Str, Value};
use source_moves::{Move, Moved, PendingWork, operate};
use source_state::{Completion, State};
use sqlite_items::Items;
use std::alloc::Global;

/// Asks a value for its iterator.
pub fn delegate<'a, W: CallWork<'a>>(
    alloc: Global,
    value: Value,
    st: &mut State<'a, W>,
) -> Moved<'a>
    ensures { Steps W.seen result st.new (delegate (state_of W.seen st.old) value) }
{
    let operands = Items::new(alloc);
    let work = W::delegate_iterator();
    operate(alloc, work, Operation::GetIterator, value, operands, st)
}

/// The turn of the iterator for a resumption.
fn delegate_operation(kind: Resumption) -> Operation
    ensures { number_of result ≡ delegate_number kind }
{
    match kind {
        Resumption::Next => Operation::DelegateNext,
        Resumption::Return => Operation::DelegateReturn,
        Resumption::Throw => Operation::DelegateThrow,
    }
}

/// The iterator takes a turn.
pub fn delegate_turn<'a, W: CallWork<'a>>(
    alloc: Global,
    iterator: Value,
    kind: Resumption,
    value: Value,
    st: &mut State<'a, W>,
) -> Moved<'a>
    ensures { Steps W.seen result st.new (delegate_turn iterator (state_of W.seen st.old) kind value) }
{
    let base = iterator.share()?;
    let mut operands = Items::new(alloc);
    operands.push(value.share()?)?;
    let operation = delegate_operation(kind);
    let work = W::delegate_result(iterator, kind, value);
    operate(alloc, work, operation, base, operands, st)
}

/// Reads a property of a result.
fn read_result<'a, W: PendingWork<'a>>(
    alloc: Global,
    work: W,
    object: Value,
    name: &[u8],
    st: &mut State<'a, W>,
) -> Moved<'a>
    ensures { Steps W.seen result st.new (operates (W.seen work) get_number object (Value.Text name.now ∷ []) (state_of W.seen st.old)) }
{
    let mut operands = Items::new(alloc);
    operands.push(Value::Text(Str::of_bytes(alloc, name)?))?;
    operate(alloc, work, Operation::Get, object, operands, st)
}

/// The iterator gave a result; one without `return` gives undefined, and the generator returns.
pub fn delegate_given<'a, W: CallWork<'a>>(
    alloc: Global,
    iterator: Value,
    kind: Resumption,
    value: Value,
    given: Value,
    st: &mut State<'a, W>,
) -> Moved<'a>
    ensures { Steps W.seen result st.new (delegate_given iterator kind value (state_of W.seen st.old) given) }
{
    match given {
        Value::Object(id) => {
            let work = W::delegate_done(iterator, kind, Value::Object(id));
            read_result(alloc, work, Value::Object(id), b"done", st)
        }
        _ => Ok(Move::hand(Completion::Returns(value))),
    }
}

/// Whether the iterator is done was read: then the value is read, and else the result is handed on.
pub fn delegate_done<'a, W: CallWork<'a>>(
    alloc: Global,
    iterator: Value,
    kind: Resumption,
    given: Value,
    value: Value,
    st: &mut State<'a, W>,
) -> Moved<'a>
    ensures { Steps W.seen result st.new (delegate_done iterator kind given (state_of W.seen st.old) value) }
{
    if truth_of(&value) {
        let work = W::delegate_value(kind);
        read_result(alloc, work, given, b"value", st)
    } else {
        let work = W::delegated(iterator);
        yields(alloc, work, false, given, st)
    }
}

/// The value of the last result: of a return the generator returns it.
pub fn delegate_value<'a, W: PendingWork<'a>>(
    kind: Resumption,
    value: Value,
    st: &State<'a, W>,
) -> Moved<'a>
    ensures { Steps W.seen result st.now (delegate_value kind (state_of W.seen st.now) value) }
{
    let completion = match kind {
        Resumption::Return => Completion::Returns(value),
        _ => Completion::Gives(value),
    };
    Ok(Move::hand(completion))
}
