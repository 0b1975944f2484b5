//! Closures and their objects (ECMA-262, 6th edition, 9.2.3 to 9.2.8, 14.2.16, 14.4.11).

ghost use Rattle.std.specs.Prelude.{◌≡◌, IfOk};
ghost use Rattle.es_heap.specs.Heaps.{next_id};
ghost use Rattle.source_functions.specs.Made.{Makes};
ghost use Rattle.source_meaning.specs.Functions.{closed, closed_in, closure_in, function_heap, no_own, own_by};
ghost use Rattle.source_moves.specs.Seen.{state_of};

use crate::code::{expected_count, is_arrow, is_generator, is_plain};
use core_state::Environment;
use es_heap::Heap;
use es_operation_steps::{generator_function, method_function, plain_function};
use es_realm::Edition;
use es_value::{ObjId, Value};
use source_moves::PendingWork;
use source_state::{Closure, Code, Own, State};
use std::alloc::{AllocError, Global};

fn no_own(home: Value) -> Own
    ensures { result ≡ no_own home }
{
    Own {
        this_record: 0,
        callee: Value::Undefined,
        home,
        target: Value::Undefined,
    }
}

fn share_own(own: &Own) -> Result<Own, AllocError>
    ensures { IfOk result (λ shared. shared ≡ own.now) }
{
    let callee = own.callee.share()?;
    let home = own.home.share()?;
    let target = own.target.share()?;
    Ok(Own {
        this_record: own.this_record,
        callee,
        home,
        target,
    })
}

/// An arrow keeps what the context has that makes it (14.2.16).
fn own_by<'a, W: PendingWork<'a>>(
    code: &Code<'a>,
    home: Value,
    st: &State<'a, W>,
) -> Result<Own, AllocError>
    ensures { IfOk result (λ own. own ≡ own_by code.now home (state_of W.seen st.now)) }
{
    if is_arrow(code) {
        share_own(&st.context.own)
    } else {
        Ok(no_own(home))
    }
}

/// What a function object keeps that is made in this environment, with this home object (9.2.8).
pub fn closure_in<'a, W: PendingWork<'a>>(
    environment: Environment,
    code: Code<'a>,
    home: Value,
    st: &State<'a, W>,
) -> Result<Closure<'a>, AllocError>
    ensures { IfOk result (λ closure. closure ≡ closure_in environment code.entry home (state_of W.seen st.now)) }
{
    let own = own_by(&code, home, st)?;
    Ok(Closure {
        code,
        environment,
        own,
        home: st.context.home,
    })
}

/// The object: an arrow, a method or an accessor can't be constructed, and a generator has a prototype of its own.
fn make_function<'a>(
    alloc: Global,
    code: &Code<'a>,
    heap: &mut Heap,
    number: usize,
) -> Result<ObjId, AllocError>
    ensures { IfOk result (λ id. (id ≡ next_id heap.old) × (heap.new ≡ function_heap code.now heap.old number)) }
{
    let count = expected_count(code)?;
    if is_generator(code) {
        return generator_function(alloc, Edition::Sixth, heap, number, count);
    }
    if is_plain(code) {
        return plain_function(alloc, Edition::Sixth, heap, number, count);
    }
    method_function(alloc, Edition::Sixth, heap, number, count)
}

/// A new function in this environment.
pub fn closed_in<'a, W: PendingWork<'a>>(
    alloc: Global,
    environment: Environment,
    code: Code<'a>,
    home: Value,
    st: &mut State<'a, W>,
) -> Result<Value, AllocError>
    ensures { Makes W.seen result st.new (closed_in environment code.entry home (state_of W.seen st.old)) }
{
    let number = st.closures.len();
    let id = make_function(alloc, &code, &mut st.heap, number)?;
    let closure = closure_in(environment, code, home, st)?;
    st.closures.push(closure)?;
    Ok(Value::Object(id))
}

/// A new function in the environment of the context.
pub fn closed<'a, W: PendingWork<'a>>(
    alloc: Global,
    code: Code<'a>,
    home: Value,
    st: &mut State<'a, W>,
) -> Result<Value, AllocError>
    ensures { Makes W.seen result st.new (closed code.entry home (state_of W.seen st.old)) }
{
    let environment = st.context.environment.share()?;
    closed_in(alloc, environment, code, home, st)
}
