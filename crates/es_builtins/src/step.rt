//! One step of a call.
ghost use Rattle.std.specs.Prelude.{◌≡◌, IfOk};
ghost use Rattle.es_builtins.specs.Turns.{turn_of, settle_effect, step_of, edition_of, StepsTo};

use crate::turn::turn_of;
use es_calls::{
    BuiltinCall, BuiltinStep, Pending, Stepped, receive_method, receive_result, settle,
};
use es_heap::Heap;
use es_realm::{Edition, RealmOf};
use std::alloc::{AllocError, Global};

/// A turn of the function, and what it wants.
fn step_turn(call: &mut BuiltinCall, alloc: Global, edition: Edition, heap: &mut Heap) -> Stepped
    ensures { IfOk result (λ step. (step ≡ (settle_effect edition (turn_of edition heap.old call.old)).step) × (call.new ≡ (settle_effect edition (turn_of edition heap.old call.old)).call) × (heap.new ≡ (settle_effect edition (turn_of edition heap.old call.old)).heap)) }
{
    let want = turn_of(call, alloc, edition, heap)?;
    settle(call, alloc, edition, heap, want)
}

/// One step of a call, as `step_builtin` takes it, for a caller that keeps the edition of its realm.
pub fn step_of(call: &mut BuiltinCall, alloc: Global, edition: Edition, heap: &mut Heap) -> Stepped
    ensures { IfOk result (λ step. (step ≡ (step_of edition heap.old call.old).step) × (call.new ≡ (step_of edition heap.old call.old).call) × (heap.new ≡ (step_of edition heap.old call.old).heap)) }
{
    match call.pending {
        Pending::Nothing | Pending::Answer => step_turn(call, alloc, edition, heap),
        Pending::Method(conversion) => receive_method(call, alloc, edition, heap, conversion),
        Pending::Result(conversion) => receive_result(call, alloc, edition, heap, conversion),
    }
}

fn edition_of(realm: RealmOf) -> Edition
    ensures { result ≡ edition_of realm.entry }
{
    match realm {
        RealmOf::Six(_) => Edition::Sixth,
        RealmOf::Five(_) => Edition::Fifth,
    }
}

/// One step of a call in the realm that came with the heap. The call's number is that of a function of this realm, or the step
/// answers `Unknown` where no realm has it. A call takes no step after `Resume`, `Done`, `Throws`, `Leaves` or `Unknown`, and none
/// between `CallOut` or `ReadOut` and `receive`. After `OutOfMemory` nothing is said of the call and the heap.
pub fn step_builtin(
    call: &mut BuiltinCall,
    alloc: Global,
    realm: RealmOf,
    heap: &mut Heap,
) -> BuiltinStep
    ensures { StepsTo result call.new heap.new (step_of (edition_of realm.entry) heap.old call.old) }
{
    match step_of(call, alloc, edition_of(realm), heap) {
        Ok(step) => step,
        Err(AllocError) => BuiltinStep::OutOfMemory,
    }
}
