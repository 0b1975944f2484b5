//! Elements and properties of what literals make (ECMA-262, 6th edition, 7.3.7, 12.2.5.2 and 12.2.6.8; 5.1 edition, 11.1.4 and 11.1.5).

ghost use Rattle.std.specs.Prelude.{◌≡◌, ◌<◌, ◌^◌, IfOk, OnOk, pos};
ghost use Rattle.es_heap.specs.Objects.{length_in};
ghost use Rattle.core_meaning.specs.Expressions.{function_at};
ghost use Rattle.core_meaning.specs.Properties.{add_element, add_hole, defined, length_at};
ghost use Rattle.core_moves.specs.Elements.{next_length};
ghost use Rattle.core_moves.specs.Moves.{Steps};
ghost use Rattle.std.specs.Option.{option_copied};

use crate::moves::{Move, Moved};
use crate::places::leave;
use crate::states::raise;
use core_ast::{Core, CoreFunction, FunctionId};
use core_state::{Current, Links, State};
use es_calls::{ErrorKind, index_key};
use es_heap::{Heap, HeapFault, Prop};
use es_operators::key_of_word;
use es_realm::Write;
use es_value::{ObjId, Value};
use std::alloc::{AllocError, Global};

/// The length of an array.
fn length_at(alloc: Global, heap: &Heap, id: ObjId) -> Result<usize, AllocError>
    ensures value { IfOk result (λ length. length ≡ length_at heap.now id) }
    ensures fits { IfOk result (λ length. length < 2 ^ 63) }
{
    let key = key_of_word(alloc, b"length")?;
    Ok(length_in(heap.get_own(id, &key)))
}

/// The number that a length is.
fn length_in(property: Option<&Prop>) -> usize
    ensures value { result ≡ length_in (option_copied property.entry) }
    ensures fits { result < 2 ^ 63 }
{
    match property {
        Some(
            Prop::Plain {
                value: Value::Number(length),
                ..
            },
        ) if *length >= 0 => length.unsigned_abs() as usize,
        _ => 0,
    }
}

/// An array has one element more (12.2.5.2).
#[tactic(auto, unfolding(es_calls::specs::Making::with_element))]
pub fn add_element(
    alloc: Global,
    heap: &mut Heap,
    id: ObjId,
    value: Value,
) -> Result<(), AllocError>
    ensures { OnOk result (heap.new ≡ add_element heap.old id value) }
{
    let length = length_at(alloc, heap, id)?;
    let key = index_key(alloc, length as i64)?;
    let property = Prop::Plain {
        value,
        writable: true,
        configurable: true,
    };
    match heap.define_own(alloc, id, key, property) {
        Err(HeapFault::OutOfMemory) => Err(AllocError),
        Ok(()) | Err(_) => Ok(()),
    }
}

/// The length that is one more, where an array can have it. No array has the others, so that these are refused alike.
fn next_length(length: usize) -> i64
    ensures { result ≡ pos (next_length length) }
{
    if length < 4294967296 {
        length as i64 + 1
    } else {
        4294967296
    }
}

/// An array has one hole more.
#[tactic(auto, using(crate::proofs::Lengths::hole_added))]
pub fn add_hole(alloc: Global, heap: &mut Heap, id: ObjId) -> Result<(), AllocError>
    ensures { OnOk result (heap.new ≡ add_hole heap.old id) }
{
    let length = length_at(alloc, heap, id)?;
    let _ = heap.set_length(id, next_length(length));
    Ok(())
}

/// How a definition of a property goes on: a refusal is a TypeError.
pub fn defined<'a, M: Drop, O, W, S>(
    alloc: Global,
    current: Current<M>,
    links: Links<'a>,
    write: Write,
    st: &mut State<'a, M, O, W, S>,
) -> Moved<'a, M>
    ensures { Steps result st.new (defined current links.entry st.old write) }
{
    match write {
        Write::Done => Ok(Move::go(current, links)),
        Write::Leaves(exit) => leave(st, exit),
        Write::OutOfRange => raise(alloc, ErrorKind::RangeError, st),
        _ => raise(alloc, ErrorKind::TypeError, st),
    }
}

/// The function of this number.
pub fn function_at<'a>(core: &'a Core, function: FunctionId) -> Option<&'a CoreFunction>
    ensures { option_copied result ≡ function_at core.now function }
{
    core.functions.get(function.0 as usize)
}
