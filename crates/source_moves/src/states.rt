//! What steps do to the running context, and how they go on. Nothing is said of the state behind an error.

ghost use Rattle.std.specs.Prelude.{◌≡◌, OnOk};
ghost use Rattle.source_meaning.specs.Steps.{at_node, begins, calls, due, impossible, leaves, pushed, raises, refers};
ghost use Rattle.source_moves.specs.Moves.{Steps};
ghost use Rattle.source_moves.specs.Seen.{state_of};

use crate::moves::{Move, Moved};
use crate::pending::PendingWork;
use es_calls::ErrorKind;
use es_outside::Site;
use es_realm::make_error;
use es_value::Value;
use es6_ast::Expression;
use source_state::{Call, Completion, Control, Frame, Node, State};
use sqlite_items::Items;
use std::alloc::{AllocError, Global};

/// Work of the node that acts is pending.
pub fn push<'a, W: PendingWork<'a>>(st: &mut State<'a, W>, work: W) -> Result<(), AllocError>
    ensures { OnOk result (state_of W.seen st.new ≡ pushed (W.seen work) (state_of W.seen st.old)) }
{
    let place = st.context.place;
    st.context.frames.push(Frame { place, work })
}

/// A node that begins at this offset acts.
pub fn at_node<'a, W: PendingWork<'a>>(at: u32, st: &mut State<'a, W>)
    ensures { state_of W.seen st.new ≡ at_node at (state_of W.seen st.old) }
{
    let module = st.context.home;
    st.context.place = Site { module, at };
}

/// Evaluates an expression for this work.
pub fn begin<'a, W: PendingWork<'a>>(
    work: W,
    x: Node<'a, Expression>,
    st: &mut State<'a, W>,
) -> Moved<'a>
    ensures { Steps W.seen result st.new (begins (W.seen work) x.entry (state_of W.seen st.old)) }
{
    push(st, work)?;
    Ok(Move::Goes(Control::Begin(x)))
}

/// Evaluates a reference to what an expression names, for this work.
pub fn refer<'a, W: PendingWork<'a>>(
    work: W,
    x: Node<'a, Expression>,
    st: &mut State<'a, W>,
) -> Moved<'a>
    ensures { Steps W.seen result st.new (refers (W.seen work) x.entry (state_of W.seen st.old)) }
{
    push(st, work)?;
    Ok(Move::Goes(Control::Refer(x)))
}

/// Calls a function, whose result goes to this work.
pub fn call<'a, W: PendingWork<'a>>(work: W, call: Call, st: &mut State<'a, W>) -> Moved<'a>
    ensures { Steps W.seen result st.new (calls (W.seen work) call (state_of W.seen st.old)) }
{
    push(st, work)?;
    Ok(Move::Goes(Control::Calls(call)))
}

/// A call that is due.
pub fn due(function: Value, receiver: Value, args: Items<Value>, target: Option<Value>) -> Call
    ensures { result ≡ due function receiver args target }
{
    Call {
        function,
        receiver,
        args,
        target,
    }
}

/// Throws a new error.
pub fn raise<'a, W: PendingWork<'a>>(
    alloc: Global,
    kind: ErrorKind,
    st: &mut State<'a, W>,
) -> Moved<'a>
    ensures { Steps W.seen result st.new (raises kind (state_of W.seen st.old)) }
{
    let id = make_error(alloc, &mut st.heap, kind)?;
    Ok(Move::hand(Completion::Throws(Value::Object(id))))
}

/// Leaves the profile at the exit of this number, where the node stands that acts.
pub fn leave<'a, W: PendingWork<'a>>(st: &State<'a, W>, number: u8) -> Moved<'a>
    ensures { Steps W.seen result st.now (leaves number (state_of W.seen st.now)) }
{
    let site = st.context.place;
    Ok(Move::Leaves { number, site })
}

/// No accepted program comes here.
pub fn impossible<'a, W: PendingWork<'a>>(st: &State<'a, W>) -> Moved<'a>
    ensures { Steps W.seen result st.now (impossible (state_of W.seen st.now)) }
{
    leave(st, 0)
}
