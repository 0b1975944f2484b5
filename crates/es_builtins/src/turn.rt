//! One turn of a function of the library, by its number in the table.
ghost use Rattle.std.specs.Prelude.{◌≡◌, IfOk};
ghost use Rattle.es_builtins.specs.Turns.{constructor_turn, object_turn, array_turn, string_turn, prototype_turn, fifth_turn, turn_of};

use es_calls::{BuiltinCall, Resumption, Turned, Want};
use es_heap::Heap;
use es_object_functions::{error, fifth, object};
use es_realm::Edition;
use es_sequence_functions::{array, function, iterator, string};
use es_value::Value;
use std::alloc::Global;

/// Object, Array, String, Error and its kinds.
fn constructor_turn(call: &mut BuiltinCall, alloc: Global, heap: &mut Heap) -> Turned
    ensures { IfOk result (λ want. (want ≡ (constructor_turn heap.old call.old).want) × (call.new ≡ (constructor_turn heap.old call.old).call) × (heap.new ≡ (constructor_turn heap.old call.old).heap)) }
{
    if call.builtin < 2 {
        Ok(Want::Leaves(7))
    } else if call.builtin == 2 {
        string::string_of(call, alloc)
    } else {
        error::error_of(call, alloc, heap)
    }
}

/// The functions of Object, Array, Object.prototype and Function.prototype.
fn object_turn(call: &mut BuiltinCall, alloc: Global, edition: Edition, heap: &mut Heap) -> Turned
    ensures { IfOk result (λ want. (want ≡ (object_turn edition heap.old call.old).want) × (call.new ≡ (object_turn edition heap.old call.old).call) × (heap.new ≡ (object_turn edition heap.old call.old).heap)) }
{
    match call.builtin {
        7 => object::create(call, alloc, heap),
        8 => Ok(Want::Done(Value::Bool(array::is_array_value(heap, &call.arg(0)?)))),
        9 => object::has_own_property(call, alloc, edition, heap),
        10 => object::to_string(alloc, edition, heap, &call.this_value),
        11 => Ok(object::value_of(&call.this_value)),
        12 => function::call_at(call, alloc, heap),
        13 => function::apply_at(call, alloc, heap),
        _ => Ok(Want::Leaves(8)),
    }
}

/// The functions of Array.prototype.
fn array_turn(call: &mut BuiltinCall, alloc: Global, edition: Edition, heap: &mut Heap) -> Turned
    ensures { IfOk result (λ want. (want ≡ (array_turn edition heap.old call.old).want) × (call.new ≡ (array_turn edition heap.old call.old).call) × (heap.new ≡ (array_turn edition heap.old call.old).heap)) }
{
    match call.builtin {
        15 => array::push(call, alloc, edition, heap),
        16 => array::pop(call, alloc, edition, heap),
        17 => array::index_of(call, alloc, edition, heap),
        18 => array::join(call, alloc, heap),
        19 => array::for_each(call, alloc, edition, heap),
        20 => array::to_string(call, alloc, heap),
        21 => iterator::array_iterator(call, alloc, heap),
        _ => array::includes(call, alloc, heap),
    }
}

/// The functions of String.prototype.
fn string_turn(call: &mut BuiltinCall, alloc: Global, edition: Edition, heap: &mut Heap) -> Turned
    ensures { IfOk result (λ want. (want ≡ (string_turn edition heap.old call.old).want) × (call.new ≡ (string_turn edition heap.old call.old).call) × (heap.new ≡ (string_turn edition heap.old call.old).heap)) }
{
    match call.builtin {
        23 => string::char_at(call, alloc),
        24 => string::char_code_at(call),
        25 => string::index_of(call, alloc),
        26 => string::substring(call, alloc),
        27 => string::text_value(call, alloc, edition),
        _ => iterator::string_iterator(call, alloc, heap),
    }
}

/// The functions of the other prototypes.
fn prototype_turn(
    call: &mut BuiltinCall,
    alloc: Global,
    edition: Edition,
    heap: &mut Heap,
) -> Turned
    ensures { IfOk result (λ want. (want ≡ (prototype_turn edition heap.old call.old).want) × (call.new ≡ (prototype_turn edition heap.old call.old).call) × (heap.new ≡ (prototype_turn edition heap.old call.old).heap)) }
{
    match call.builtin {
        29 => object::number_text(alloc, edition, &call.this_value, &call.arg(0)?),
        30 => object::truth_text(alloc, edition, &call.this_value, &call.arg(0)?),
        31 => error::error_text(call, alloc),
        32 => Ok(Want::Resume(Resumption::Next)),
        33 => Ok(Want::Resume(Resumption::Return)),
        34 => Ok(Want::Resume(Resumption::Throw)),
        35 => Ok(Want::Done(call.this_value.share()?)),
        36 => iterator::array_next(call, alloc, heap),
        _ => iterator::string_next(alloc, heap, &call.this_value),
    }
}

/// The functions that the realm of the 5.1 edition has besides, and Function.prototype.
fn fifth_turn(call: &mut BuiltinCall, alloc: Global, heap: &mut Heap) -> Turned
    ensures { IfOk result (λ want. (want ≡ (fifth_turn heap.old call.old).want) × (call.new ≡ (fifth_turn heap.old call.old).call) × (heap.new ≡ (fifth_turn heap.old call.old).heap)) }
{
    match call.builtin {
        38 => fifth::define_property(call, alloc, heap),
        39 => fifth::get_descriptor(call, alloc, heap),
        40 => Ok(fifth::get_prototype_of(heap, &call.arg(0)?)),
        41 => Ok(fifth::prevent_extensions(heap, &call.arg(0)?)),
        42 => Ok(Want::Done(Value::Undefined)),
        _ => Ok(Want::Unknown),
    }
}

/// A turn of a call's function.
pub(crate) fn turn_of(
    call: &mut BuiltinCall,
    alloc: Global,
    edition: Edition,
    heap: &mut Heap,
) -> Turned
    ensures { IfOk result (λ want. (want ≡ (turn_of edition heap.old call.old).want) × (call.new ≡ (turn_of edition heap.old call.old).call) × (heap.new ≡ (turn_of edition heap.old call.old).heap)) }
{
    if call.builtin < 7 {
        constructor_turn(call, alloc, heap)
    } else if call.builtin < 15 {
        object_turn(call, alloc, edition, heap)
    } else if call.builtin < 23 {
        array_turn(call, alloc, edition, heap)
    } else if call.builtin < 29 {
        string_turn(call, alloc, edition, heap)
    } else if call.builtin < 38 {
        prototype_turn(call, alloc, edition, heap)
    } else {
        fifth_turn(call, alloc, heap)
    }
}
