//! Constructions (ECMA-262, 6th edition, 7.3.13, 9.2.2, 12.3.3 and 12.3.5).

ghost use Rattle.std.specs.Prelude.{◌≡◌};
ghost use Rattle.std.specs.Option.{option_copied};
ghost use Rattle.source_calls.specs.Constructions.{constructs_base, constructs_derived};
ghost use Rattle.source_meaning.specs.Calls.{closure_at, closure_of_class, construct, construct_by, construct_parent, constructed, constructs_as, derived_given, is_derived_closure, making, object_or_null, own_this, parent_of};
ghost use Rattle.source_meaning.specs.Environments.{record_at};
ghost use Rattle.source_meaning.specs.Functions.{is_derived};
ghost use Rattle.source_moves.specs.Moves.{Steps};
ghost use Rattle.source_moves.specs.Seen.{state_of};

use crate::hosts::call_library;
use crate::pending::CallWork;
use es_calls::ErrorKind;
use es_heap::{Class, Heap};
use es_operation_steps::Operation;
use es_operators::{Constructor, constructor_of};
use es_realm::Edition;
use es_realm::names::OBJECT_PROTOTYPE;
use es_value::{ObjId, Value};
use source_moves::{
    Move, Moved, PendingWork, call, due, impossible, leave, operate, push, raise, this_at,
};
use source_state::{Closure, Code, State};
use sqlite_items::Items;
use std::alloc::Global;

/// What a function object of the program keeps.
fn closure_of_class<'s, 'a, W: PendingWork<'a>>(
    class: &Class,
    st: &'s State<'a, W>,
) -> Option<&'s Closure<'a>>
    ensures { option_copied result ≡ closure_of_class (state_of W.seen st.now) class.now }
{
    match class {
        Class::Function(number) => st.closures.get(*number),
        _ => None,
    }
}

/// What the function of the program keeps that a value is.
fn closure_at<'s, 'a, W: PendingWork<'a>>(
    function: &Value,
    st: &'s State<'a, W>,
) -> Option<&'s Closure<'a>>
    ensures { option_copied result ≡ closure_at (state_of W.seen st.now) function.now }
{
    match function {
        Value::Object(id) => closure_of_class(st.heap.class(*id), st),
        _ => None,
    }
}

/// Whether it is the code of a derived constructor.
fn is_derived(code: &Code) -> bool
    ensures { result ≡ is_derived code.now }
{
    match code {
        Code::ConstructorCode(derived, _) => *derived,
        _ => false,
    }
}

/// Whether a value is a derived constructor.
fn is_derived_constructor<'a, W: PendingWork<'a>>(function: &Value, st: &State<'a, W>) -> bool
    ensures { result ≡ is_derived_closure (closure_at (state_of W.seen st.now) function.now) }
{
    match closure_at(function, st) {
        None => false,
        Some(closure) => is_derived(&closure.code),
    }
}

/// A derived constructor is called, whose parent makes the object.
fn constructs_derived<'a, W: CallWork<'a>>(
    function: Value,
    args: Items<Value>,
    target: Value,
    st: &mut State<'a, W>,
) -> Moved<'a>
    ensures { Steps W.seen result st.new (constructs_derived function args target (state_of W.seen st.old)) }
{
    let work = W::derived(st.records.len());
    call(
        work,
        due(function, Value::Undefined, args, Some(target)),
        st,
    )
}

/// The prototype is read of what a function constructs.
fn constructs_base<'a, W: CallWork<'a>>(
    alloc: Global,
    function: Value,
    args: Items<Value>,
    target: Value,
    st: &mut State<'a, W>,
) -> Moved<'a>
    ensures { Steps W.seen result st.new (constructs_base function args target (state_of W.seen st.old)) }
{
    let base = target.share()?;
    let mut operands = Items::new(alloc);
    operands.push(Value::Object(OBJECT_PROTOTYPE))?;
    let work = W::making(function, args, target);
    operate(alloc, work, Operation::PrototypeOf, base, operands, st)
}

/// Constructs by a function of the program (9.2.2).
pub fn constructs_as<'a, W: CallWork<'a>>(
    alloc: Global,
    function: Value,
    args: Items<Value>,
    target: Value,
    st: &mut State<'a, W>,
) -> Moved<'a>
    ensures { Steps W.seen result st.new (constructs_as function args target (state_of W.seen st.old)) }
{
    if is_derived_constructor(&function, st) {
        constructs_derived(function, args, target, st)
    } else {
        constructs_base(alloc, function, args, target, st)
    }
}

/// The call is made once the prototype is there.
pub fn making<'a, W: CallWork<'a>>(
    alloc: Global,
    function: Value,
    args: Items<Value>,
    target: Value,
    prototype: Value,
    st: &mut State<'a, W>,
) -> Moved<'a>
    ensures { Steps W.seen result st.new (making function args target (state_of W.seen st.old) prototype) }
{
    match prototype {
        Value::Object(above) => {
            let id = st.heap.make(alloc, Some(above), Class::Object)?;
            let due = due(function, Value::Object(id), args, Some(target));
            call(W::made(Value::Object(id)), due, st)
        }
        _ => impossible(st),
    }
}

/// What a construction gives: the object that was returned, or the one that was made (9.2.2, steps 13 and 15).
pub fn constructed(made: Value, given: Value) -> Value
    ensures { result ≡ constructed made given }
{
    match given {
        Value::Object(id) => Value::Object(id),
        _ => made,
    }
}

/// Gives the `this` of the record of this number.
fn own_this<'a, W: PendingWork<'a>>(
    alloc: Global,
    number: usize,
    st: &mut State<'a, W>,
) -> Moved<'a>
    ensures { Steps W.seen result st.new (own_this (state_of W.seen st.old) (record_at st.old.records number).this) }
{
    match this_at(&st.records, number) {
        None => raise(alloc, ErrorKind::ReferenceError, st),
        Some(this) => Ok(Move::give(this.share()?)),
    }
}

/// What a derived constructor gives, with its `this` in the record of this number: an object that is returned, and for undefined its
/// `this`.
pub fn derived_given<'a, W: PendingWork<'a>>(
    alloc: Global,
    number: usize,
    given: Value,
    st: &mut State<'a, W>,
) -> Moved<'a>
    ensures { Steps W.seen result st.new (derived_given number (state_of W.seen st.old) given) }
{
    match given {
        Value::Object(id) => Ok(Move::give(Value::Object(id))),
        Value::Undefined => own_this(alloc, number, st),
        _ => raise(alloc, ErrorKind::TypeError, st),
    }
}

/// Constructs as the function is constructed; an error constructor is called.
fn construct_by<'a, W: CallWork<'a>>(
    alloc: Global,
    function: Value,
    args: Items<Value>,
    target: Value,
    constructor: Constructor,
    st: &mut State<'a, W>,
) -> Moved<'a>
    ensures { Steps W.seen result st.new (construct_by function args target (state_of W.seen st.old) constructor) }
{
    match constructor {
        Constructor::Runs(_) => constructs_as(alloc, function, args, target, st),
        Constructor::MakesError(number) => {
            call_library(alloc, number, Value::Undefined, args, st)
        }
        Constructor::Leaves(exit) => leave(st, exit),
        Constructor::Fails => raise(alloc, ErrorKind::TypeError, st),
    }
}

/// [[Construct]] (7.3.13): `target` is the function that `new` has, or the present `new.target`.
pub fn construct<'a, W: CallWork<'a>>(
    alloc: Global,
    function: Value,
    args: Items<Value>,
    target: Value,
    st: &mut State<'a, W>,
) -> Moved<'a>
    ensures { Steps W.seen result st.new (construct function args target (state_of W.seen st.old)) }
{
    let constructor = constructor_of(alloc, Edition::Sixth, &st.heap, &function)?;
    construct_by(alloc, function, args, target, constructor, st)
}

fn object_or_null(id: Option<ObjId>) -> Value
    ensures { result ≡ object_or_null id }
{
    match id {
        None => Value::Null,
        Some(id) => Value::Object(id),
    }
}

/// The parent of a class.
fn parent_of(heap: &Heap, function: &Value) -> Value
    ensures { result ≡ parent_of heap.now function.now }
{
    match function {
        Value::Object(id) => object_or_null(heap.proto(*id)),
        _ => Value::Undefined,
    }
}

/// `super(..)` (12.3.5.1): the parent is constructed with the present `new.target`.
pub fn construct_parent<'a, W: CallWork<'a>>(
    alloc: Global,
    args: Items<Value>,
    st: &mut State<'a, W>,
) -> Moved<'a>
    ensures { Steps W.seen result st.new (construct_parent args (state_of W.seen st.old)) }
{
    let parent = parent_of(&st.heap, &st.context.own.callee);
    let target = st.context.own.target.share()?;
    push(st, W::super_made())?;
    construct(alloc, parent, args, target, st)
}
