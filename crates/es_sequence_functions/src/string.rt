//! String and the functions of String.prototype (21.1).
ghost use Rattle.std.specs.Prelude.{◌≡◌, ◌≤◌, [], length, IfOk};
ghost use Rattle.es_value.specs.declared.value.Value.TheVariants.{Text as TextValue};
ghost use Rattle.es_calls.specs.declared.call.Want.TheVariants.{Number as WantNumber};
ghost use Rattle.es_calls.specs.declared.call.Place.TheVariants.{Position as AtPosition};
ghost use Rattle.es_calls.specs.Calls.{arg, position};
ghost use Rattle.es_sequence_functions.specs.Strings.{coerced, unit_at, unit_list, char_at, char_code_at, clamp, index_of, between, end_of, substring, string_of, prototype_text, text_value};

use crate::search::index_in;
use es_calls::{
    BuiltinCall, ErrorKind, Place, Turned, Want, is_undefined, number_in, position, text_in,
};
use es_operators::is_nothing;
use es_realm::Edition;
use es_realm::names::STRING_PROTOTYPE;
use es_value::{Str, Value};
use std::alloc::{AllocError, Global};

/// The receiver as a text, unless it is undefined or null (7.2.1).
pub fn coerced(call: &mut BuiltinCall) -> Turned
    ensures { IfOk result (λ want. (want ≡ (coerced call.old).want) × (call.new ≡ (coerced call.old).call)) }
{
    if is_nothing(&call.this_value) {
        return Ok(Want::Throws(ErrorKind::TypeError));
    }
    call.place = Place::Receiver;
    Ok(Want::Text(call.this_value.share()?))
}

/// Keeps the receiver, and wants the argument of this number as a position.
fn receiver_then_position(call: &mut BuiltinCall, argument: usize) -> Turned
    ensures { IfOk result (λ want. (want ≡ WantNumber (position (arg call.old argument))) × (call.new ≡ record call.old { kept = call.old.input; place = AtPosition })) }
{
    call.kept = call.input.share()?;
    call.place = Place::Position;
    Ok(Want::Number(position(call.arg(argument)?)))
}

fn unit_at(units: &[u16], at: i64) -> Option<u16>
    ensures { result ≡ unit_at units.now at }
{
    if at < 0 {
        return None;
    }
    units.get(at as usize).copied()
}

fn text_of_unit(alloc: Global, unit: Option<u16>) -> Result<Value, AllocError>
    ensures { IfOk result (λ value. value ≡ TextValue (unit_list unit)) }
{
    match unit {
        None => Ok(Value::Text(Str::of(alloc, &[])?)),
        Some(unit) => Ok(Value::Text(Str::of(alloc, &[unit])?)),
    }
}

/// charAt (21.1.3.1).
pub fn char_at(call: &mut BuiltinCall, alloc: Global) -> Turned
    ensures { IfOk result (λ want. (want ≡ (char_at call.old call.old.place).want) × (call.new ≡ (char_at call.old call.old.place).call)) }
{
    match call.place {
        Place::Begin => coerced(call),
        Place::Receiver => receiver_then_position(call, 0),
        _ => {
            let unit = unit_at(text_in(&call.kept), number_in(&call.input));
            Ok(Want::Done(text_of_unit(alloc, unit)?))
        }
    }
}

/// charCodeAt (21.1.3.2).
pub fn char_code_at(call: &mut BuiltinCall) -> Turned
    ensures { IfOk result (λ want. (want ≡ (char_code_at call.old call.old.place).want) × (call.new ≡ (char_code_at call.old call.old.place).call)) }
{
    match call.place {
        Place::Begin => coerced(call),
        Place::Receiver => receiver_then_position(call, 0),
        _ => match unit_at(text_in(&call.kept), number_in(&call.input)) {
            None => Ok(Want::Leaves(1)),
            Some(unit) => Ok(Want::Done(Value::Number(i64::from(unit)))),
        },
    }
}

/// A position from 0 to the length.
pub fn clamp(position: i64, length: usize) -> usize
    ensures value { result ≡ clamp position length }
    ensures within { result ≤ length }
{
    if position < 0 {
        0
    } else {
        (position as usize).min(length)
    }
}

/// indexOf (21.1.3.8).
pub fn index_of(call: &mut BuiltinCall, alloc: Global) -> Turned
    ensures { IfOk result (λ want. (want ≡ (index_of call.old call.old.place).want) × (call.new ≡ (index_of call.old call.old.place).call)) }
{
    match call.place {
        Place::Begin => coerced(call),
        Place::Receiver => {
            call.kept = call.input.share()?;
            call.place = Place::Search;
            Ok(Want::Text(call.arg(0)?))
        }
        Place::Search => {
            call.other = call.input.share()?;
            call.place = Place::Position;
            Ok(Want::Number(position(call.arg(1)?)))
        }
        _ => {
            let units = text_in(&call.kept);
            let start = clamp(number_in(&call.input), units.len());
            let index = index_in(alloc, units, text_in(&call.other), start)?;
            Ok(Want::Done(Value::Number(index)))
        }
    }
}

fn between(alloc: Global, units: &[u16], a: usize, b: usize) -> Result<Value, AllocError>
    requires first { a ≤ length units.now }
    requires second { b ≤ length units.now }
    ensures { IfOk result (λ value. value ≡ TextValue (between units.now a b)) }
{
    Ok(Value::Text(Str::of(alloc, &units[a.min(b)..a.max(b)])?))
}

/// Where a substring ends that has no end: at the length.
fn end_of(call: &BuiltinCall) -> Result<Value, AllocError>
    ensures { IfOk result (λ value. value ≡ end_of call.now) }
{
    let end = call.arg(1)?;
    if is_undefined(&end) {
        Ok(Value::Number(text_in(&call.kept).len() as i64))
    } else {
        Ok(end)
    }
}

/// substring (21.1.3.19).
pub fn substring(call: &mut BuiltinCall, alloc: Global) -> Turned
    ensures { IfOk result (λ want. (want ≡ (substring call.old call.old.place).want) × (call.new ≡ (substring call.old call.old.place).call)) }
{
    match call.place {
        Place::Begin => coerced(call),
        Place::Receiver => receiver_then_position(call, 0),
        Place::Position => {
            let end = end_of(call)?;
            call.index = number_in(&call.input);
            call.place = Place::End;
            Ok(Want::Number(end))
        }
        _ => {
            let units = text_in(&call.kept);
            let start = clamp(call.index, units.len());
            let end = clamp(number_in(&call.input), units.len());
            Ok(Want::Done(between(alloc, units, start, end)?))
        }
    }
}

fn empty_text(alloc: Global) -> Result<Value, AllocError>
    ensures { IfOk result (λ value. value ≡ TextValue []) }
{
    Ok(Value::Text(Str::of(alloc, &[])?))
}

/// String called as a function (21.1.1.1).
pub fn string_of(call: &mut BuiltinCall, alloc: Global) -> Turned
    ensures { IfOk result (λ want. (want ≡ (string_of call.old call.old.place call.old.args).want) × (call.new ≡ (string_of call.old call.old.place call.old.args).call)) }
{
    match call.place {
        Place::Begin => match call.args.as_slice().first() {
            None => Ok(Want::Done(empty_text(alloc)?)),
            Some(value) => {
                let value = value.share()?;
                call.place = Place::Receiver;
                Ok(Want::Text(value))
            }
        },
        _ => Ok(Want::Done(call.input.share()?)),
    }
}

fn string_of_prototype(alloc: Global, edition: Edition) -> Turned
    ensures { IfOk result (λ want. want ≡ prototype_text edition) }
{
    match edition {
        Edition::Sixth => Ok(Want::Leaves(9)),
        Edition::Fifth => Ok(Want::Done(empty_text(alloc)?)),
    }
}

/// toString (21.1.3.23).
pub fn text_value(call: &BuiltinCall, alloc: Global, edition: Edition) -> Turned
    ensures { IfOk result (λ want. want ≡ text_value edition call.now.this_value) }
{
    match &call.this_value {
        Value::Text(text) => Ok(Want::Done(Value::Text(text.share()?))),
        Value::Object(id) if id.0 == STRING_PROTOTYPE.0 => string_of_prototype(alloc, edition),
        _ => Ok(Want::Throws(ErrorKind::TypeError)),
    }
}
