//! How a call is given what its function wants.
ghost use Rattle.std.specs.Prelude.{◌≡◌, IfOk};
ghost use Rattle.es_operators.specs.Conversions.{method_given};
ghost use Rattle.es_calls.specs.Steps.{settle_need, settle_primitive, settle_conversion, settle_read, settle, settle_attempt, receive_result};

use crate::call::{BuiltinCall, BuiltinStep, Pending, Stepped, Want};
use es_heap::{Heap, Key};
use es_operators::{Conversion, Hint, Need, is_object, key_of_word};
use es_realm::{Edition, ErrorKind, Read, read_value};
use es_value::{Value, to_number, to_text};
use sqlite_items::Items;
use std::alloc::Global;

/// What a conversion asks for.
fn settle_need(call: &mut BuiltinCall, alloc: Global, conversion: Conversion, need: Need) -> Stepped
    ensures { IfOk result (λ step. (step ≡ (settle_need call.old conversion need).step) × (call.new ≡ (settle_need call.old conversion need).call)) }
{
    match need {
        Need::Call(callee) => {
            call.pending = Pending::Result(conversion);
            Ok(BuiltinStep::CallOut {
                callee,
                this_value: Value::Object(conversion.object),
                args: Items::new(alloc),
            })
        }
        Need::Getter(getter) => {
            call.pending = Pending::Method(conversion);
            Ok(BuiltinStep::CallOut {
                callee: Value::Object(getter),
                this_value: Value::Object(conversion.object),
                args: Items::new(alloc),
            })
        }
        Need::Binding(object) => {
            let key = key_of_word(alloc, conversion.name_tried())?;
            call.pending = Pending::Method(conversion);
            Ok(BuiltinStep::ReadOut { object, key })
        }
        Need::Skip | Need::Fails => Ok(BuiltinStep::Throws(ErrorKind::TypeError)),
        Need::Leaves(exit) => Ok(BuiltinStep::Leaves(exit)),
    }
}

/// A primitive, converted as the hint says.
fn settle_primitive(call: &mut BuiltinCall, alloc: Global, hint: Hint, value: &Value) -> Stepped
    ensures { IfOk result (λ step. (step ≡ (settle_primitive call.old hint value.now).step) × (call.new ≡ (settle_primitive call.old hint value.now).call)) }
{
    let converted = match hint {
        Hint::Text => Value::Text(to_text(alloc, value)?),
        Hint::Number => match to_number(value) {
            Ok(number) => Value::Number(number),
            Err(exit) => return Ok(BuiltinStep::Leaves(exit.number())),
        },
    };
    call.pending = Pending::Nothing;
    call.input = converted;
    Ok(BuiltinStep::Running)
}

/// ToString and ToNumber of a value.
fn settle_conversion(
    call: &mut BuiltinCall,
    alloc: Global,
    edition: Edition,
    heap: &Heap,
    hint: Hint,
    value: &Value,
) -> Stepped
    ensures { IfOk result (λ step. (step ≡ (settle_conversion edition heap.now call.old hint value.now).step) × (call.new ≡ (settle_conversion edition heap.now call.old hint value.now).call)) }
{
    match value {
        Value::Object(id) => {
            let mut conversion = Conversion::begin(*id, hint);
            let need = conversion.next_method(alloc, edition, heap)?;
            settle_need(call, alloc, conversion, need)
        }
        _ => settle_primitive(call, alloc, hint, value),
    }
}

/// A read of a property.
fn settle_read(
    call: &mut BuiltinCall,
    alloc: Global,
    base: Value,
    key: Key,
    read: Read,
) -> BuiltinStep
    ensures step { result ≡ (settle_read call.old base key read).step }
    ensures call { call.new ≡ (settle_read call.old base key read).call }
{
    match read {
        Read::Have(value) => {
            call.pending = Pending::Nothing;
            call.input = value;
            BuiltinStep::Running
        }
        Read::Getter(getter) => {
            call.pending = Pending::Answer;
            BuiltinStep::CallOut {
                callee: Value::Object(getter),
                this_value: base,
                args: Items::new(alloc),
            }
        }
        Read::Binding(object) => {
            call.pending = Pending::Answer;
            BuiltinStep::ReadOut { object, key }
        }
        Read::NoObject => BuiltinStep::Throws(ErrorKind::TypeError),
        Read::Leaves(exit) => BuiltinStep::Leaves(exit),
    }
}

/// What a turn wants.
pub fn settle(
    call: &mut BuiltinCall,
    alloc: Global,
    edition: Edition,
    heap: &Heap,
    want: Want,
) -> Stepped
    ensures { IfOk result (λ step. (step ≡ (settle edition heap.now call.old want).step) × (call.new ≡ (settle edition heap.now call.old want).call)) }
{
    match want {
        Want::Again => {
            call.pending = Pending::Nothing;
            Ok(BuiltinStep::Running)
        }
        Want::Text(value) => settle_conversion(call, alloc, edition, heap, Hint::Text, &value),
        Want::Number(value) => settle_conversion(call, alloc, edition, heap, Hint::Number, &value),
        Want::Get(base, key) => {
            let read = read_value(alloc, edition, heap, &base, &key)?;
            Ok(settle_read(call, alloc, base, key, read))
        }
        Want::Call(callee, this_value, args) => {
            call.pending = Pending::Answer;
            Ok(BuiltinStep::CallOut {
                callee,
                this_value,
                args,
            })
        }
        Want::Resume(kind) => Ok(BuiltinStep::Resume(kind)),
        Want::Unknown => Ok(BuiltinStep::Unknown),
        Want::Done(value) => Ok(BuiltinStep::Done(value)),
        Want::Throws(kind) => Ok(BuiltinStep::Throws(kind)),
        Want::Leaves(exit) => Ok(BuiltinStep::Leaves(exit)),
    }
}

/// What a conversion's method gave.
pub fn receive_result(
    call: &mut BuiltinCall,
    alloc: Global,
    edition: Edition,
    heap: &Heap,
    conversion: Conversion,
) -> Stepped
    ensures { IfOk result (λ step. (step ≡ (receive_result edition heap.now call.old conversion).step) × (call.new ≡ (receive_result edition heap.now call.old conversion).call)) }
{
    let mut conversion = conversion;
    let answer = call.input.share()?;
    if is_object(&answer) {
        let need = conversion.next_method(alloc, edition, heap)?;
        settle_need(call, alloc, conversion, need)
    } else {
        settle_primitive(call, alloc, conversion.hint, &answer)
    }
}

/// What a conversion's getter or namespace gave.
pub fn receive_method(
    call: &mut BuiltinCall,
    alloc: Global,
    edition: Edition,
    heap: &Heap,
    conversion: Conversion,
) -> Stepped
    ensures { IfOk result (λ step. (step ≡ (settle_attempt call.old (method_given edition heap.now conversion call.old.input)).step) × (call.new ≡ (settle_attempt call.old (method_given edition heap.now conversion call.old.input)).call)) }
{
    let mut conversion = conversion;
    let method = call.input.share()?;
    let need = conversion.method_given(alloc, edition, heap, method)?;
    settle_need(call, alloc, conversion, need)
}
