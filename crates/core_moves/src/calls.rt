//! Calls and constructions (ECMA-262, 6th edition, 9.2.2 and 12.3.4; 5.1 edition, 11.2.3 and 13.2.2).

ghost use Rattle.std.specs.Prelude.{◌≡◌, IfOk};
ghost use Rattle.core_meaning.specs.Calls.{asks_host, call_current, call_host, constructs, due, reply_of};
ghost use Rattle.core_moves.specs.Moves.{Steps};

use crate::moves::{Move, Moved};
use crate::places::{place_or, unlawful};
use crate::states::{call, operate, push, raise};
use core_state::{Call, Completion, CoreValue, Current, Frame, State, Strict};
use es_calls::ErrorKind;
use es_operation_steps::Operation;
use es_operators::{of_prim, to_prims};
use es_outside::{Event, Prims, Reply, Site};
use es_realm::names::OBJECT_PROTOTYPE;
use es_value::Value;
use sqlite_items::Items;
use std::alloc::{AllocError, Global};

/// The completion that a host's reply is.
pub fn reply_of<M>(alloc: Global, reply: &Reply) -> Result<Completion<M>, AllocError>
    ensures { IfOk result (λ completion. completion ≡ reply_of reply.now) }
{
    match reply {
        Reply::Give(prim) => Ok(Completion::Gives(CoreValue::User(of_prim(alloc, prim)?))),
        Reply::Throw(prim) => Ok(Completion::Throws(of_prim(alloc, prim)?)),
    }
}

/// A host is asked, if all arguments are primitives.
fn ask_host<'a, M, O, W, S>(
    alloc: Global,
    host: usize,
    site: Site,
    args: Option<Prims>,
    st: &mut State<'a, M, O, W, S>,
) -> Moved<'a, M>
    ensures { Steps result st.new (asks_host host site st.old args) }
{
    match args {
        None => raise(alloc, ErrorKind::TypeError, st),
        Some(args) => Ok(Move::Asks(Event { host, args, site })),
    }
}

/// Calls a host. An object among the arguments is a TypeError, and no event.
pub fn call_host<'a, M, O, W, S>(
    alloc: Global,
    host: usize,
    args: &[Value],
    site: Option<Site>,
    st: &mut State<'a, M, O, W, S>,
) -> Moved<'a, M>
    ensures { Steps result st.new (call_host host args.now site st.old) }
{
    let site = place_or(site, st);
    let args = to_prims(alloc, args)?;
    ask_host(alloc, host, site, args, st)
}

/// A call that is due.
pub fn due(function: Value, receiver: Value, args: Items<Value>, site: Option<Site>) -> Call
    ensures { result ≡ due function receiver args site }
{
    Call {
        function,
        receiver,
        args,
        target: None,
        site,
    }
}

/// Calls what an expression is at; of a method the receiver is the base.
pub fn call_current<'a, M: Drop, O, W: Drop, S>(
    alloc: Global,
    strict: Strict<'a, M>,
    args: Items<Value>,
    st: &mut State<'a, M, O, W, S>,
) -> Moved<'a, M>
    ensures { Steps result st.new (call_current strict.entry st.old args strict.entry.current) }
{
    let Strict {
        current,
        site,
        links,
        ..
    } = strict;
    match current {
        Current::Has(CoreValue::User(function)) => call(
            Frame::After(links),
            due(function, Value::Undefined, args, site),
            st,
        ),
        Current::Method(function, receiver) => call(
            Frame::After(links),
            due(function, receiver, args, site),
            st,
        ),
        Current::Hosted(number) => {
            push(st, Frame::After(links))?;
            call_host(alloc, number, args.as_slice(), site, st)
        }
        _ => unlawful(st),
    }
}

/// Constructs by a function that makes its object (9.2.2; 5.1 edition, 13.2.2): first the prototype is read.
pub fn construct<'a, M: Drop, O, W: Drop, S>(
    alloc: Global,
    function: Value,
    args: Items<Value>,
    target: Value,
    st: &mut State<'a, M, O, W, S>,
) -> Moved<'a, M>
    ensures { Steps result st.new (constructs function args target st.old) }
{
    let base = target.share()?;
    let mut operands = Items::new(alloc);
    operands.push(Value::Object(OBJECT_PROTOTYPE))?;
    let frame = Frame::Making(function, args, target);
    operate(alloc, frame, Operation::PrototypeOf, base, operands, st)
}
