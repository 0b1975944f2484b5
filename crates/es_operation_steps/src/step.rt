//! One step of a call of an operation or of a function of the library.
ghost use Rattle.std.specs.Prelude.{◌≡◌, IfOk};
ghost use Rattle.es_heap.specs.Heaps.{Heap as HeapValue};
ghost use Rattle.es_operations.specs.Steps.{arithmetic_turn, iteration_turn, operation_by, operation_turn, property_turn, relation_turn, settled_act, single_turn, step_operation};
ghost use Rattle.es_operation_steps.specs.Asks.{Acts};

use crate::turning::{Ask, Asked, received, settle_ask};
use crate::{iteration, operators, properties, prototypes};
use es_builtins::step_of;
use es_calls::{BuiltinCall, Pending, Stepped, Want, receive_method};
use es_heap::Heap;
use es_operators::{Arithmetic, Relation};
use es_realm::Edition;
use std::alloc::Global;

/// Properties and prototypes.
fn property_turn(call: &mut BuiltinCall, alloc: Global, edition: Edition, heap: &mut Heap) -> Asked
    ensures { Acts result call.new heap.new (property_turn edition heap.old call.old) }
{
    match call.builtin {
        100 => properties::get(call, alloc, edition, heap),
        101 => properties::put(call, alloc, edition, heap),
        102 => properties::delete(call, alloc, edition, heap),
        103 => properties::to_key(call, alloc),
        104 => properties::has_property(call, alloc, edition, heap),
        105 => properties::super_get(call, alloc, edition, heap),
        106 => prototypes::prototype_of(call, alloc, heap),
        _ => prototypes::heritage_prototype(call, alloc, heap),
    }
}

/// The operators on one value.
fn single_turn(call: &mut BuiltinCall, alloc: Global) -> Asked
    ensures { (heap : HeapValue) → Acts result call.new heap (single_turn heap call.old) }
{
    match call.builtin {
        110 => operators::to_text(call, alloc),
        111 => operators::to_number(call),
        112 => operators::negate(call),
        _ => operators::invert(call),
    }
}

/// The operators on two numbers.
fn arithmetic_turn(call: &mut BuiltinCall) -> Asked
    ensures { (heap : HeapValue) → Acts result call.new heap (arithmetic_turn heap call.old) }
{
    match call.builtin {
        121 => operators::calculate(call, Arithmetic::Subtract),
        122 => operators::calculate(call, Arithmetic::Multiply),
        123 => operators::calculate(call, Arithmetic::Divide),
        124 => operators::calculate(call, Arithmetic::Remainder),
        125 => operators::calculate(call, Arithmetic::Power),
        126 => operators::calculate(call, Arithmetic::And),
        127 => operators::calculate(call, Arithmetic::Or),
        128 => operators::calculate(call, Arithmetic::ExclusiveOr),
        129 => operators::calculate(call, Arithmetic::ShiftLeft),
        130 => operators::calculate(call, Arithmetic::ShiftRight),
        _ => operators::calculate(call, Arithmetic::ShiftRightUnsigned),
    }
}

/// The relations and equality.
fn relation_turn(call: &mut BuiltinCall, alloc: Global, edition: Edition, heap: &Heap) -> Asked
    ensures { Acts result call.new heap.now (relation_turn edition heap.now call.old) }
{
    match call.builtin {
        132 => operators::relate(call, Relation::Less),
        133 => operators::relate(call, Relation::Greater),
        134 => operators::relate(call, Relation::LessOrEqual),
        135 => operators::relate(call, Relation::GreaterOrEqual),
        136 => operators::equal(call, true),
        137 => operators::equal(call, false),
        _ => operators::is_instance(call, alloc, edition, heap),
    }
}

/// Iterators and turns of `yield*`.
fn iteration_turn(call: &mut BuiltinCall, alloc: Global, heap: &Heap) -> Asked
    ensures { Acts result call.new heap.now (iteration_turn heap.now call.old) }
{
    match call.builtin {
        140 => iteration::iterator_method(call),
        141 => iteration::get_iterator(call, alloc, heap),
        142 => iteration::iterator_step(call, alloc, heap),
        143 => iteration::iterator_value(call, alloc),
        144 => iteration::iterator_close(call, alloc, heap, false),
        145 => iteration::iterator_close(call, alloc, heap, true),
        146 => iteration::delegate_next(call, alloc, heap),
        147 => iteration::delegate_throw(call, alloc, heap),
        148 => iteration::delegate_return(call, alloc, heap),
        _ => Ok(Ask::Wants(Want::Unknown)),
    }
}

/// A turn of an operation.
#[tactic(auto, unfolding(es_operations::specs::Steps::operation_turn))]
fn operation_turn(call: &mut BuiltinCall, alloc: Global, edition: Edition, heap: &mut Heap) -> Asked
    ensures { Acts result call.new heap.new (operation_turn edition heap.old call.old) }
{
    if call.builtin < 110 {
        property_turn(call, alloc, edition, heap)
    } else if call.builtin < 120 {
        single_turn(call, alloc)
    } else if call.builtin == 120 {
        operators::add(call, alloc)
    } else if call.builtin < 132 {
        arithmetic_turn(call)
    } else if call.builtin < 140 {
        relation_turn(call, alloc, edition, heap)
    } else {
        iteration_turn(call, alloc, heap)
    }
}

/// A turn of an operation, and what it asks for.
fn step_turn(call: &mut BuiltinCall, alloc: Global, edition: Edition, heap: &mut Heap) -> Stepped
    ensures { IfOk result (λ step. (step ≡ (settled_act edition (operation_turn edition heap.old call.old)).step) × (call.new ≡ (settled_act edition (operation_turn edition heap.old call.old)).call) × (heap.new ≡ (settled_act edition (operation_turn edition heap.old call.old)).heap)) }
{
    let ask = operation_turn(call, alloc, edition, heap)?;
    settle_ask(call, alloc, edition, heap, ask)
}

fn operation_by(call: &mut BuiltinCall, alloc: Global, edition: Edition, heap: &mut Heap) -> Stepped
    ensures { IfOk result (λ step. (step ≡ (operation_by edition heap.old call.old call.old.pending).step) × (call.new ≡ (operation_by edition heap.old call.old call.old.pending).call) × (heap.new ≡ (operation_by edition heap.old call.old call.old.pending).heap)) }
{
    match call.pending {
        Pending::Nothing | Pending::Answer => step_turn(call, alloc, edition, heap),
        Pending::Method(conversion) => receive_method(call, alloc, edition, heap, conversion),
        Pending::Result(conversion) => received(call, alloc, edition, heap, conversion),
    }
}

/// One step of a call: of an operation, or, where its number is below 100, of a function of the library, as `step_builtin` of
/// es_builtins takes it. A call takes no step after `Resume`, `Done`, `Throws`, `Leaves` or `Unknown`, and none between `CallOut` or
/// `ReadOut` and `receive`. After `Err` nothing is said of the call and the heap.
#[tactic(auto, unfolding(es_operations::specs::Steps::step_operation))]
pub fn step_operation(
    call: &mut BuiltinCall,
    alloc: Global,
    edition: Edition,
    heap: &mut Heap,
) -> Stepped
    ensures { IfOk result (λ step. (step ≡ (step_operation edition heap.old call.old).step) × (call.new ≡ (step_operation edition heap.old call.old).call) × (heap.new ≡ (step_operation edition heap.old call.old).heap)) }
{
    if call.builtin < 100 {
        step_of(call, alloc, edition, heap)
    } else {
        operation_by(call, alloc, edition, heap)
    }
}
