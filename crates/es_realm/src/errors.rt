//! The errors that a step throws (19.5).
ghost use Rattle.std.specs.Prelude.{◌≡◌, IfOk, OnErr};
ghost use Rattle.es_heap.specs.Heaps.{next_id};
ghost use Rattle.es_realm.specs.Errors.{prototype_of, with_error};

use crate::names::{
    ERROR_PROTOTYPE, RANGE_ERROR_PROTOTYPE, REFERENCE_ERROR_PROTOTYPE, TYPE_ERROR_PROTOTYPE,
};
use es_heap::{Class, Heap};
use es_value::ObjId;
use std::alloc::{AllocError, Global};

/// The kinds of error that a step throws.
#[derive(Clone, Copy, Debug, PartialEq, Eq)]
pub enum ErrorKind {
    Error,
    TypeError,
    ReferenceError,
    RangeError,
}

impl ErrorKind {
    /// The prototype of the errors of this kind.
    pub fn prototype(self) -> ObjId
        ensures { result ≡ prototype_of self }
    {
        match self {
            ErrorKind::Error => ERROR_PROTOTYPE,
            ErrorKind::TypeError => TYPE_ERROR_PROTOTYPE,
            ErrorKind::ReferenceError => REFERENCE_ERROR_PROTOTYPE,
            ErrorKind::RangeError => RANGE_ERROR_PROTOTYPE,
        }
    }
}

/// A new error of this kind, which has no message of its own.
pub fn make_error(alloc: Global, heap: &mut Heap, kind: ErrorKind) -> Result<ObjId, AllocError>
    ensures ok { IfOk result (λ id. (id ≡ next_id heap.old) × (heap.new ≡ with_error heap.old kind)) }
    ensures err { OnErr result (heap.new ≡ heap.old) }
{
    heap.make(alloc, Some(kind.prototype()), Class::Error)
}
