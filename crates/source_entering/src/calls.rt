//! [[Call]] (ECMA-262, 6th edition, 7.3.12, 9.2.1, 9.2.2).

ghost use Rattle.std.specs.Prelude.{◌≡◌, ◌&&◌, None, true, is_none};
ghost use Rattle.es_heap.specs.Heaps.{object_at};
ghost use Rattle.es_heap.specs.declared.class.Class.{Class};
ghost use Rattle.source_meaning.specs.Calls.{begin_code, call_class, call_value, enter, passes_all};
ghost use Rattle.source_meaning.specs.Functions.{is_class};
ghost use Rattle.source_moves.specs.Moves.{Steps};
ghost use Rattle.source_moves.specs.Seen.{state_of};
ghost use Rattle.source_state.specs.declared.function.Code.{Code};

use crate::contexts::{share_closure, within_call};
use crate::parameters::bind_parameters;
use crate::pending::EntryWork;
use es_calls::{ErrorKind, make_list};
use es_heap::Class;
use es_operation_steps::Operation;
use es_value::{ObjId, Value};
use source_calls::{call_host, call_library};
use source_functions::is_class;
use source_moves::{Moved, impossible, operate, raise};
use source_state::{Call, Closure, Code, Collected, ListParts, Listing, State, Use};
use sqlite_items::Items;
use std::alloc::Global;

/// All arguments are handed to `super(..)`.
fn passes_all<'a>(alloc: Global) -> Listing<'a>
    ensures { result ≡ passes_all }
{
    Listing {
        collected: Collected::OfArguments(Use::ForSuper, Items::new(alloc)),
        rest: ListParts::none(),
    }
}

/// A derived class without a constructor has `constructor(...args) { super(...args); }` (14.5.14, step 10).
fn pass_all<'a, W: EntryWork<'a>>(alloc: Global, args: &[Value], st: &mut State<'a, W>) -> Moved<'a>
    ensures { Steps W.seen result st.new (begin_code (Code.ConstructorCode true None) args.now (state_of W.seen st.old)) }
{
    let list = make_list(alloc, &mut st.heap, args)?;
    let operands = Items::new(alloc);
    let work = W::spread_iterator(passes_all(alloc));
    let list = Value::Object(list);
    operate(alloc, work, Operation::GetIterator, list, operands, st)
}

fn begin_code<'a, W: EntryWork<'a>>(
    alloc: Global,
    code: &Code<'a>,
    args: Items<Value>,
    st: &mut State<'a, W>,
) -> Moved<'a>
    ensures { Steps W.seen result st.new (begin_code code.now args (state_of W.seen st.old)) }
{
    match code {
        Code::ConstructorCode(true, None) => pass_all(alloc, args.as_slice(), st),
        _ => bind_parameters(alloc, code, args, st),
    }
}

/// Whether a class would be called.
fn is_refused<'a>(closure: &Closure<'a>, call: &Call) -> bool
    ensures { result ≡ (is_class closure.now.code && is_none call.now.target) }
{
    is_class(&closure.code) && call.target.is_none()
}

/// [[Call]] of a function of the program: a new context, above the present one. A class isn't called (9.2.1, step 2).
fn enter<'a, W: EntryWork<'a>>(
    alloc: Global,
    closure: &Closure<'a>,
    call: Call,
    st: &mut State<'a, W>,
) -> Moved<'a>
    ensures { Steps W.seen result st.new (enter closure.now call (state_of W.seen st.old)) }
{
    if is_refused(closure, &call) {
        return raise(alloc, ErrorKind::TypeError, st);
    }
    within_call(alloc, closure, &call, st)?;
    begin_code(alloc, &closure.code, call.args, st)
}

/// Calls the function of the program whose closure has this number.
#[tactic(auto, unfolding(source_meaning::specs::Calls::call_class))]
fn call_function<'a, W: EntryWork<'a>>(
    alloc: Global,
    number: usize,
    call: Call,
    st: &mut State<'a, W>,
) -> Moved<'a>
    ensures { Steps W.seen result st.new (call_class call (state_of W.seen st.old) (Class.Function number)) }
{
    let Some(closure) = st.closures.get(number) else {
        return impossible(st);
    };
    let closure = share_closure(closure)?;
    enter(alloc, &closure, call, st)
}

#[tactic(auto, unfolding(source_meaning::specs::Calls::call_class))]
fn call_object<'a, W: EntryWork<'a>>(
    alloc: Global,
    object: ObjId,
    call: Call,
    st: &mut State<'a, W>,
) -> Moved<'a>
    ensures { Steps W.seen result st.new (call_class call (state_of W.seen st.old) (object_at st.old.heap object).class) }
{
    match st.heap.class(object) {
        Class::Function(number) => call_function(alloc, *number, call, st),
        Class::Builtin(number) => call_library(alloc, *number, call.receiver, call.args, st),
        Class::Host(number) => call_host(alloc, *number, call.args.as_slice(), st),
        _ => raise(alloc, ErrorKind::TypeError, st),
    }
}

/// Calls a value.
pub fn call_value<'a, W: EntryWork<'a>>(
    alloc: Global,
    call: Call,
    st: &mut State<'a, W>,
) -> Moved<'a>
    ensures { Steps W.seen result st.new (call_value call (state_of W.seen st.old) call.function) }
{
    match call.function {
        Value::Object(object) => call_object(alloc, object, call, st),
        _ => raise(alloc, ErrorKind::TypeError, st),
    }
}
