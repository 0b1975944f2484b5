//! What a write of a property gives, and the walk of `instanceof`.
ghost use Rattle.std.specs.Prelude.{◌≡◌, IfOk, OnErr};
ghost use Rattle.es_access.specs.Access.{put, is_above, answer_of};
ghost use Rattle.es_heap.specs.Heaps.{define_own};

use es_heap::{Heap, HeapFault, Key, Prop};
use es_value::{ObjId, Value};
use std::alloc::{AllocError, Global};

/// What a write answers.
#[derive(Clone, Copy, Debug, PartialEq, Eq)]
pub enum PutAnswer {
    Done,
    /// This function is to be called with the receiver and the value.
    Setter(ObjId),
    /// The standard's [[Set]] answers false.
    Refused,
    /// The value is no length for an array.
    OutOfRange,
}

/// [[Set]] (9.1.9). The receiver is an object, or None for a primitive.
pub fn put(
    alloc: Global,
    heap: &mut Heap,
    id: ObjId,
    key: Key,
    value: Value,
    receiver: Option<ObjId>,
) -> Result<PutAnswer, AllocError>
    ensures ok { IfOk result (λ answer. (answer ≡ (put heap.old id key value receiver).answer) × (heap.new ≡ (put heap.old id key value receiver).after)) }
    ensures err { OnErr result (heap.new ≡ heap.old) }
{
    match heap.find(id, &key) {
        None | Some((_, Prop::Plain { writable: true, .. })) => {}
        Some(
            (
                _,
                Prop::Accessor {
                    set: Some(setter),
                    ..
                },
            ),
        ) => return Ok(PutAnswer::Setter(*setter)),
        Some((_, Prop::Plain { .. } | Prop::Accessor { .. })) => return Ok(PutAnswer::Refused),
    }
    let Some(receiver) = receiver else {
        return Ok(PutAnswer::Refused);
    };
    let configurable = match heap.get_own(receiver, &key) {
        None => true,
        Some(
            Prop::Plain {
                writable: true,
                configurable,
                ..
            },
        ) => *configurable,
        Some(Prop::Plain { .. } | Prop::Accessor { .. }) => return Ok(PutAnswer::Refused),
    };
    let property = Prop::Plain {
        value,
        writable: true,
        configurable,
    };
    define(alloc, heap, receiver, key, property)
}

/// [[DefineOwnProperty]] (9.1.6, of an array 9.4.2.1), where the descriptor has every field, with the answer of a write.
pub fn define(
    alloc: Global,
    heap: &mut Heap,
    id: ObjId,
    key: Key,
    property: Prop,
) -> Result<PutAnswer, AllocError>
    ensures ok { IfOk result (λ answer. (answer ≡ answer_of (define_own heap.old id key property).fault) × (heap.new ≡ (define_own heap.old id key property).after)) }
    ensures err { OnErr result (heap.new ≡ heap.old) }
{
    match heap.define_own(alloc, id, key, property) {
        Ok(()) => Ok(PutAnswer::Done),
        Err(HeapFault::BadLength) => Ok(PutAnswer::OutOfRange),
        Err(HeapFault::OutOfMemory) => Err(AllocError),
        Err(HeapFault::NotWritable | HeapFault::NotConfigurable | HeapFault::NotExtensible) => Ok(
            PutAnswer::Refused,
        ),
    }
}

/// Whether the target is on the object's chain of prototypes, as `instanceof` walks it (7.3.19).
pub fn is_above(heap: &Heap, id: ObjId, target: ObjId) -> bool
    ensures { result ≡ is_above heap.now id target }
{
    let mut place = heap.proto(id);
    for _ in 0..heap.len() {
        let Some(up) = place else {
            return false;
        };
        if up.0 == target.0 {
            return true;
        }
        place = heap.proto(up);
    }
    false
}
