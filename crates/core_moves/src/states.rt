//! What steps do to the top context, and how they go on. Nothing is said of the state behind an error.

ghost use Rattle.std.specs.Prelude.{◌≡◌, OnOk};
ghost use Rattle.core_meaning.specs.Rows.{begins, calls, operates, pushed, raises, runs, with_record};
ghost use Rattle.core_moves.specs.Moves.{Steps};
ghost use Rattle.es_operation_steps.specs.Operations.{number_of};

use crate::moves::{Move, Moved};
use core_state::{Binding, Call, Completion, Control, Expr, Frame, State, Stats};
use es_calls::ErrorKind;
use es_operation_steps::Operation;
use es_realm::make_error;
use es_value::Value;
use sqlite_items::Items;
use std::alloc::{AllocError, Global};

/// One more frame.
pub fn push<'a, M: Drop, O, W: Drop, S>(
    st: &mut State<'a, M, O, W, S>,
    frame: Frame<'a, M, W>,
) -> Result<(), AllocError>
    ensures { OnOk result (st.new ≡ pushed frame.entry st.old) }
{
    st.context.frames.push(frame)
}

/// A new record, which is the innermost of the scope.
pub fn enter_record<'a, M: Drop, O, W, S>(
    alloc: Global,
    bindings: Items<Binding<M>>,
    st: &mut State<'a, M, O, W, S>,
) -> Result<(), AllocError>
    ensures { OnOk result (st.new ≡ with_record bindings st.old) }
{
    let number = st.records.len();
    st.records.push(bindings)?;
    st.context.environment = st.context.environment.with(alloc, number)?;
    Ok(())
}

/// Begins an expression, whose value goes to the frame.
pub fn begin<'a, M: Drop, O, W: Drop, S>(
    frame: Frame<'a, M, W>,
    expression: Expr<'a>,
    st: &mut State<'a, M, O, W, S>,
) -> Moved<'a, M>
    ensures { Steps result st.new (begins frame.entry expression.entry st.old) }
{
    push(st, frame)?;
    Ok(Move::Goes(Control::Begin(expression)))
}

/// Runs statements, whose end goes to the frame.
pub fn run<'a, M: Drop, O, W: Drop, S>(
    frame: Frame<'a, M, W>,
    stats: Stats<'a>,
    st: &mut State<'a, M, O, W, S>,
) -> Moved<'a, M>
    ensures { Steps result st.new (runs frame.entry stats.entry st.old) }
{
    push(st, frame)?;
    Ok(Move::Goes(Control::Run(stats)))
}

/// Calls a function, whose result goes to the frame.
pub fn call<'a, M: Drop, O, W: Drop, S>(
    frame: Frame<'a, M, W>,
    call: Call,
    st: &mut State<'a, M, O, W, S>,
) -> Moved<'a, M>
    ensures { Steps result st.new (calls frame.entry call st.old) }
{
    push(st, frame)?;
    Ok(Move::Goes(Control::Calls(call)))
}

/// Begins an operation, whose result goes to the frame.
pub fn operate<'a, M: Drop, O, W: Drop, S>(
    alloc: Global,
    frame: Frame<'a, M, W>,
    operation: Operation,
    base: Value,
    operands: Items<Value>,
    st: &mut State<'a, M, O, W, S>,
) -> Moved<'a, M>
    ensures { Steps result st.new (operates frame.entry (number_of operation) base operands st.old) }
{
    push(st, frame)?;
    let call = operation.begin(alloc, base, operands);
    Ok(Move::Goes(Control::Turn(None, call)))
}

/// Throws a new error.
pub fn raise<'a, M, O, W, S>(
    alloc: Global,
    kind: ErrorKind,
    st: &mut State<'a, M, O, W, S>,
) -> Moved<'a, M>
    ensures { Steps result st.new (raises kind st.old) }
{
    let id = make_error(alloc, &mut st.heap, kind)?;
    Ok(Move::hand(Completion::Throws(Value::Object(id))))
}
