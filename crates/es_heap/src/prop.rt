//! Properties, and why an operation on them is refused.
ghost use Rattle.std.specs.Prelude.{◌≡◌};

use es_value::{ObjId, Value};
use std::alloc::AllocError;
use std::error::Error;
use std::fmt;

/// A property (ECMA-262, 6th edition, 6.1.7.1). Nothing enumerates keys, so there is no attribute for that.
#[derive(Debug, Drop)]
pub enum Prop {
    Plain {
        value: Value,
        writable: bool,
        configurable: bool,
    },
    Accessor {
        get: Option<ObjId>,
        set: Option<ObjId>,
        configurable: bool,
    },
}

/// Why an operation on a heap is refused.
#[derive(Clone, Copy, Debug, PartialEq, Eq)]
pub enum HeapFault {
    NotWritable,
    NotConfigurable,
    NotExtensible,
    /// An array's length is a whole number from 0 to 2^32 - 1.
    BadLength,
    OutOfMemory,
}

impl Prop {
    ghost use Rattle.std.specs.Prelude.{◌≡◌};
    ghost use Rattle.es_heap.specs.Tables.{is_configurable};

    /// Whether the property may be deleted and changed.
    pub fn is_configurable(&self) -> bool
        ensures { result ≡ is_configurable self.now }
    {
        match self {
            Prop::Plain { configurable, .. } | Prop::Accessor { configurable, .. } => *configurable,
        }
    }
}

impl From<AllocError> for HeapFault {
    ghost use Rattle.es_heap.specs.declared.prop.HeapFault.{HeapFault};

    ghost from_gives = { λ _ fault. fault ≡ HeapFault.OutOfMemory };

    fn from(_error: AllocError) -> HeapFault {
        HeapFault::OutOfMemory
    }
}

impl fmt::Display for HeapFault {
    fn fmt<W: fmt::Write>(&self, f: &mut fmt::Formatter<W>) -> fmt::Result {
        f.write_str(match self {
            HeapFault::NotWritable => "not writable",
            HeapFault::NotConfigurable => "not configurable",
            HeapFault::NotExtensible => "not extensible",
            HeapFault::BadLength => "bad length",
            HeapFault::OutOfMemory => "out of memory",
        })
    }
}

impl Error for HeapFault {}
