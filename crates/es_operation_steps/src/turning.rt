//! What a turn of an operation asks for, and how its call is given that.
ghost use Rattle.std.specs.Prelude.{◌≡◌, IfOk};
ghost use Rattle.es_heap.specs.Heaps.{Heap as HeapValue};
ghost use Rattle.es_heap.specs.declared.key.Key.TheVariants.{Text as TextKey};
ghost use Rattle.es_calls.specs.declared.call.Want.TheVariants as want;
ghost use Rattle.es_calls.specs.Steps.{has, settle_read};
ghost use Rattle.es_operations.specs.Turning.{calls, gives_object, key_operand, operand_key, received, settle_ask, to_primitive};
ghost use Rattle.es_operation_steps.specs.declared.turning.Ask.TheVariants.{Wants};
ghost use Rattle.es_operation_steps.specs.Asks.{Acts, said};

use es_calls::{
    BuiltinCall, BuiltinStep, ErrorKind, Pending, Place, Stepped, Want, receive_result, settle,
};
use es_heap::{Heap, Key};
use es_operators::{Conversion, Hint, is_callable, is_object, key_of_word, to_key};
use es_realm::{Edition, Read};
use es_value::Value;
use sqlite_items::Items;
use std::alloc::{AllocError, Global};

/// What a turn asks for.
#[derive(Debug, Drop)]
pub(crate) enum Ask {
    Wants(Want),
    /// ToPrimitive (7.1.1).
    Primitive(Value, Hint),
    /// What was found for this receiver and key.
    Found(Value, Key, Read),
}

/// What a turn asks for, if there is memory for it.
pub(crate) type Asked = Result<Ask, AllocError>;

impl Ask {
    /// The call ends with the value.
    pub(crate) fn gives(value: Value) -> Ask
        ensures { result ≡ Wants (want.Done value) }
    {
        Ask::Wants(Want::Done(value))
    }

    /// The call ends with a throw.
    pub(crate) fn throws(kind: ErrorKind) -> Ask
        ensures { result ≡ Wants (want.Throws kind) }
    {
        Ask::Wants(Want::Throws(kind))
    }

    /// The run leaves the profile at the exit of this number.
    pub(crate) fn leaves(exit: u8) -> Ask
        ensures { result ≡ Wants (want.Leaves exit) }
    {
        Ask::Wants(Want::Leaves(exit))
    }
}

/// The call ends with what was handed in.
pub(crate) fn gives_input(call: &BuiltinCall) -> Asked
    ensures { IfOk result (λ ask. ask ≡ Wants (want.Done call.now.input)) }
{
    Ok(Ask::gives(call.input.share()?))
}

/// The call ends with what was handed in, if that is an object, and else with a TypeError.
pub(crate) fn gives_object_input(call: &BuiltinCall, heap: &Heap) -> Asked
    ensures { Acts result call.now heap.now (gives_object heap.now call.now call.now.input) }
{
    if is_object(&call.input) {
        gives_input(call)
    } else {
        Ok(Ask::throws(ErrorKind::TypeError))
    }
}

/// What was handed in is called as a method of the receiver (7.3.12).
pub(crate) fn calls_input(
    call: &mut BuiltinCall,
    heap: &Heap,
    place: Place,
    args: Items<Value>,
) -> Asked
    ensures { Acts result call.new heap.now (calls heap.now call.old place call.old.input args) }
{
    if !is_callable(heap, &call.input) {
        return Ok(Ask::throws(ErrorKind::TypeError));
    }
    let method = call.input.share()?;
    let receiver = call.this_value.share()?;
    call.place = place;
    Ok(Ask::Wants(Want::Call(method, receiver, args)))
}

/// A property of the receiver is read, whose key is the text of these ASCII characters.
pub(crate) fn reads(call: &mut BuiltinCall, alloc: Global, place: Place, name: &[u8]) -> Asked
    ensures { IfOk result (λ ask. (ask ≡ Wants (want.Get call.old.this_value (TextKey name.now))) × (call.new ≡ record call.old { place = place })) }
{
    let key = key_of_word(alloc, name)?;
    let receiver = call.this_value.share()?;
    call.place = place;
    Ok(Ask::Wants(Want::Get(receiver, key)))
}

/// The operand that a key is: its text, or null for the iterator key.
pub fn key_operand(key: &Key) -> Result<Value, AllocError>
    ensures { IfOk result (λ value. value ≡ key_operand key.now) }
{
    match key {
        Key::Text(text) => Ok(Value::Text(text.share()?)),
        Key::Iterator => Ok(Value::Null),
    }
}

/// The key that an operand is.
pub(crate) fn operand_key(alloc: Global, operand: &Value) -> Result<Key, AllocError>
    ensures { IfOk result (λ key. key ≡ operand_key operand.now) }
{
    match operand {
        Value::Null => Ok(Key::Iterator),
        _ => to_key(alloc, operand),
    }
}

/// The call has what it asked for.
fn has(call: &mut BuiltinCall, value: Value) -> BuiltinStep
    ensures step { result ≡ (has call.old value).step }
    ensures call { call.new ≡ (has call.old value).call }
{
    call.pending = Pending::Nothing;
    call.input = value;
    BuiltinStep::Running
}

/// A primitive stays as it is; of an object the first method is tried.
fn to_primitive(
    call: &mut BuiltinCall,
    alloc: Global,
    edition: Edition,
    heap: &Heap,
    hint: Hint,
    value: Value,
) -> Stepped
    ensures { IfOk result (λ step. (step ≡ (to_primitive edition heap.now call.old hint value).step) × (call.new ≡ (to_primitive edition heap.now call.old hint value).call)) }
{
    if !is_object(&value) {
        return Ok(has(call, value));
    }
    let want = match hint {
        Hint::Text => Want::Text(value),
        Hint::Number => Want::Number(value),
    };
    settle(call, alloc, edition, heap, want)
}

/// What was found for a receiver and a key.
fn settle_read(
    call: &mut BuiltinCall,
    alloc: Global,
    base: Value,
    key: Key,
    read: Read,
) -> BuiltinStep
    ensures step { result ≡ (settle_read call.old base key read).step }
    ensures call { call.new ≡ (settle_read call.old base key read).call }
{
    match read {
        Read::Have(value) => has(call, value),
        Read::Getter(getter) => {
            call.pending = Pending::Answer;
            BuiltinStep::CallOut {
                callee: Value::Object(getter),
                this_value: base,
                args: Items::new(alloc),
            }
        }
        Read::Binding(object) => {
            call.pending = Pending::Answer;
            BuiltinStep::ReadOut { object, key }
        }
        Read::NoObject => BuiltinStep::Throws(ErrorKind::TypeError),
        Read::Leaves(exit) => BuiltinStep::Leaves(exit),
    }
}

/// What a turn asks for.
pub(crate) fn settle_ask(
    call: &mut BuiltinCall,
    alloc: Global,
    edition: Edition,
    heap: &Heap,
    ask: Ask,
) -> Stepped
    ensures { IfOk result (λ step. (step ≡ (settle_ask edition heap.now call.old (said ask)).step) × (call.new ≡ (settle_ask edition heap.now call.old (said ask)).call)) }
{
    match ask {
        Ask::Wants(want) => settle(call, alloc, edition, heap, want),
        Ask::Primitive(value, hint) => to_primitive(call, alloc, edition, heap, hint, value),
        Ask::Found(base, key, read) => Ok(settle_read(call, alloc, base, key, read)),
    }
}

/// What a conversion's method gave: behind an object the next method is tried.
pub(crate) fn received(
    call: &mut BuiltinCall,
    alloc: Global,
    edition: Edition,
    heap: &Heap,
    conversion: Conversion,
) -> Stepped
    ensures { IfOk result (λ step. (step ≡ (received edition heap.now call.old conversion).step) × (call.new ≡ (received edition heap.now call.old conversion).call)) }
{
    if is_object(&call.input) {
        receive_result(call, alloc, edition, heap, conversion)
    } else {
        call.pending = Pending::Nothing;
        Ok(BuiltinStep::Running)
    }
}
