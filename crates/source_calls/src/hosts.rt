//! Calls of hosts and of the library (ECMA-262, 6th edition, 7.3.12).

ghost use Rattle.std.specs.Prelude.{◌≡◌, IfOk};
ghost use Rattle.es_calls.specs.Calls.{begun};
ghost use Rattle.source_meaning.specs.Calls.{asks_host, call_host, reply_of};
ghost use Rattle.source_meaning.specs.Steps.{controls};
ghost use Rattle.source_moves.specs.Moves.{Steps};
ghost use Rattle.source_moves.specs.Seen.{state_of};
ghost use Rattle.source_state.specs.declared.control.Control.{Control};

use es_calls::{BuiltinCall, ErrorKind};
use es_operators::{of_prim, to_prims};
use es_outside::{Event, Prims, Reply};
use es_value::Value;
use source_moves::{Move, Moved, PendingWork, raise};
use source_state::{Completion, Control, State};
use sqlite_items::Items;
use std::alloc::{AllocError, Global};

/// The completion that a host's reply is.
pub fn reply_of<'a>(alloc: Global, reply: &Reply) -> Result<Completion<'a>, AllocError>
    ensures { IfOk result (λ completion. completion ≡ reply_of reply.now) }
{
    match reply {
        Reply::Give(prim) => Ok(Completion::Gives(of_prim(alloc, prim)?)),
        Reply::Throw(prim) => Ok(Completion::Throws(of_prim(alloc, prim)?)),
    }
}

/// A host is asked, if all arguments are primitives; the place is that of the node that acts.
fn ask_host<'a, W: PendingWork<'a>>(
    alloc: Global,
    host: usize,
    args: Option<Prims>,
    st: &mut State<'a, W>,
) -> Moved<'a>
    ensures { Steps W.seen result st.new (asks_host host (state_of W.seen st.old) args) }
{
    match args {
        None => raise(alloc, ErrorKind::TypeError, st),
        Some(args) => {
            let site = st.context.place;
            Ok(Move::Asks(Event { host, args, site }))
        }
    }
}

/// Calls a host. An object among the arguments is a TypeError, and no event.
pub fn call_host<'a, W: PendingWork<'a>>(
    alloc: Global,
    host: usize,
    args: &[Value],
    st: &mut State<'a, W>,
) -> Moved<'a>
    ensures { Steps W.seen result st.new (call_host host args.now (state_of W.seen st.old)) }
{
    let args = to_prims(alloc, args)?;
    ask_host(alloc, host, args, st)
}

/// Calls the function of the library that has this number.
pub fn call_library<'a, W: PendingWork<'a>>(
    alloc: Global,
    number: u16,
    receiver: Value,
    args: Items<Value>,
    st: &State<'a, W>,
) -> Moved<'a>
    ensures { Steps W.seen result st.now (controls (Control.Turn (begun number receiver args)) (state_of W.seen st.now)) }
{
    let call = BuiltinCall::begin(alloc, number, receiver, args);
    Ok(Move::Goes(Control::Turn(call)))
}
