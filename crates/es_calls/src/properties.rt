//! What several functions of the library do to objects.
ghost use Rattle.std.specs.Prelude.{◌≡◌, OnOk};
ghost use Rattle.es_calls.specs.Properties.{with_property, class_text};

use es_heap::{Class, Heap, HeapFault, Prop};
use es_operators::key_of_word;
use es_value::{ObjId, Value};
use std::alloc::{AllocError, Global};

/// Gives an object a plain property, as an assignment to a new one makes it.
#[tactic(auto, unfolding(crate::specs::Properties::with_property))]
pub fn add_property(
    alloc: Global,
    heap: &mut Heap,
    id: ObjId,
    name: &[u8],
    value: Value,
) -> Result<(), AllocError>
    ensures { OnOk result (heap.new ≡ with_property heap.old id name.now value) }
{
    let property = Prop::Plain {
        value,
        writable: true,
        configurable: true,
    };
    match heap.define_own(alloc, id, key_of_word(alloc, name)?, property) {
        Err(HeapFault::OutOfMemory) => Err(AllocError),
        Ok(()) | Err(_) => Ok(()),
    }
}

/// What Object.prototype.toString gives for a class (19.1.3.6), in ASCII.
pub fn class_text(class: &Class) -> &'static [u8]
    ensures { result.now ≡ class_text class.now }
{
    match class {
        Class::Array => b"[object Array]",
        Class::Function(_) | Class::Builtin(_) | Class::Host(_) => b"[object Function]",
        Class::Arguments => b"[object Arguments]",
        Class::Error => b"[object Error]",
        Class::Text => b"[object String]",
        Class::Number => b"[object Number]",
        Class::Bool => b"[object Boolean]",
        _ => b"[object Object]",
    }
}
