//! Elements of arrays (ECMA-262, 6th edition, 12.2.5.2).

ghost use Rattle.std.specs.Prelude.{◌≡◌, ◌<◌, ◌^◌, IfOk, OnOk, pos};
ghost use Rattle.std.specs.Option.{option_copied};
ghost use Rattle.es_heap.specs.Objects.{length_in};
ghost use Rattle.source_keys.specs.Elements.{next_length};
ghost use Rattle.source_meaning.specs.Lists.{add_element, add_hole, length_at};

use es_calls::index_key;
use es_heap::{Heap, HeapFault, Prop};
use es_operators::key_of_word;
use es_value::{ObjId, Value};
use std::alloc::{AllocError, Global};

/// The length of an array.
fn length_at(alloc: Global, heap: &Heap, id: ObjId) -> Result<usize, AllocError>
    ensures value { IfOk result (λ length. length ≡ length_at heap.now id) }
    ensures fits { IfOk result (λ length. length < 2 ^ 63) }
{
    let key = key_of_word(alloc, b"length")?;
    Ok(length_in(heap.get_own(id, &key)))
}

/// The number that a length is.
fn length_in(property: Option<&Prop>) -> usize
    ensures value { result ≡ length_in (option_copied property.entry) }
    ensures fits { result < 2 ^ 63 }
{
    match property {
        Some(
            Prop::Plain {
                value: Value::Number(length),
                ..
            },
        ) if *length >= 0 => length.unsigned_abs() as usize,
        _ => 0,
    }
}

/// An array has one element more (12.2.5.2).
#[tactic(auto, unfolding(es_calls::specs::Making::with_element))]
pub fn add_element(
    alloc: Global,
    heap: &mut Heap,
    id: ObjId,
    value: Value,
) -> Result<(), AllocError>
    ensures { OnOk result (heap.new ≡ add_element heap.old id value) }
{
    let length = length_at(alloc, heap, id)?;
    let key = index_key(alloc, length as i64)?;
    let property = Prop::Plain {
        value,
        writable: true,
        configurable: true,
    };
    match heap.define_own(alloc, id, key, property) {
        Err(HeapFault::OutOfMemory) => Err(AllocError),
        Ok(()) | Err(_) => Ok(()),
    }
}

/// The length that is one more, where an array can have it. No array has the others, so that these are refused alike.
fn next_length(length: usize) -> i64
    ensures { result ≡ pos (next_length length) }
{
    if length < 4294967296 {
        length as i64 + 1
    } else {
        4294967296
    }
}

/// An array has one hole more.
#[tactic(auto, using(crate::proofs::Lengths::hole_added))]
pub fn add_hole(alloc: Global, heap: &mut Heap, id: ObjId) -> Result<(), AllocError>
    ensures { OnOk result (heap.new ≡ add_hole heap.old id) }
{
    let length = length_at(alloc, heap, id)?;
    let _ = heap.set_length(id, next_length(length));
    Ok(())
}
