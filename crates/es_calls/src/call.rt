//! A call of a function of the library: what it keeps between its steps, and what it answers.
ghost use Rattle.std.specs.Prelude.{◌≡◌, IfOk};
ghost use Rattle.es_calls.specs.Calls.{begun, arg, value_or_undefined, text_in, number_in, is_undefined, position, plus, index_key, object_in};

use es_heap::Key;
use es_operators::{Conversion, to_key};
use es_realm::ErrorKind;
use es_value::{ObjId, Value, add};
use sqlite_items::Items;
use std::alloc::{AllocError, Global};

/// How a generator goes on (ECMA-262, 6th edition, 25.3.1.2 to 25.3.1.4).
#[derive(Clone, Copy, Debug, PartialEq, Eq)]
pub enum Resumption {
    Next,
    Return,
    Throw,
}

/// What a step answers.
#[derive(Debug, Drop)]
pub enum BuiltinStep {
    /// The next step goes on.
    Running,
    /// This function is to be called, and what it gives is to be handed in by `receive`. A throw of it ends the call.
    CallOut {
        callee: Value,
        this_value: Value,
        args: Items<Value>,
    },
    /// This key of a namespace object is to be read, and what that gives is to be handed in by `receive`.
    ReadOut {
        object: ObjId,
        key: Key,
    },
    /// It is a method of the generator prototype: the caller resumes the receiver so, with the first argument, which ends the call.
    Resume(Resumption),
    Done(Value),
    Throws(ErrorKind),
    /// The run leaves the profile at the exit of this number.
    Leaves(u8),
    /// No function of the library has the call's number.
    Unknown,
    OutOfMemory,
}

/// Where a call's function is.
#[derive(Clone, Copy, Debug, PartialEq, Eq)]
pub enum Place {
    Begin,
    /// The receiver, or a first operand, was converted.
    Receiver,
    /// The text to search or to join by was converted.
    Search,
    /// A position was converted.
    Position,
    /// A length was read.
    Length,
    /// The next turn of the loop.
    Turn,
    /// A property was read.
    Element,
    /// A piece of text was converted.
    Piece,
    /// A function was called.
    Called,
    End,
}

/// What a call waits for.
#[derive(Clone, Copy, Debug)]
pub enum Pending {
    Nothing,
    /// What its function wanted.
    Answer,
    /// The method that a conversion looks for.
    Method(Conversion),
    /// What a conversion's method gives.
    Result(Conversion),
}

/// What a turn of a function wants, if there is memory for it.
pub type Turned = Result<Want, AllocError>;

/// What a step of a call gives, if there is memory for it.
pub type Stepped = Result<BuiltinStep, AllocError>;

/// What one turn of a function wants.
#[derive(Debug, Drop)]
pub enum Want {
    Again,
    /// ToString of a value.
    Text(Value),
    /// ToNumber of a value.
    Number(Value),
    /// A property of a value.
    Get(Value, Key),
    /// A call of a function, with its receiver and arguments.
    Call(Value, Value, Items<Value>),
    /// A method of the generator prototype.
    Resume(Resumption),
    Done(Value),
    Throws(ErrorKind),
    Leaves(u8),
    /// A function that isn't there.
    Unknown,
}

/// A call of a function of the library.
#[derive(Debug, Drop)]
pub struct BuiltinCall {
    pub builtin: u16,
    pub this_value: Value,
    pub args: Items<Value>,
    pub place: Place,
    pub pending: Pending,
    /// What the function wanted, once it is there.
    pub input: Value,
    /// The receiver as a text, or the object that is being made.
    pub kept: Value,
    /// A second operand.
    pub other: Value,
    pub index: i64,
    pub length: i64,
    /// The text so far.
    pub units: Items<u16>,
    /// The list so far.
    pub list: Items<Value>,
}

impl BuiltinCall {
    /// Begins a call of the function of this number.
    pub fn begin(alloc: Global, builtin: u16, this_value: Value, args: Items<Value>) -> BuiltinCall
        ensures { result ≡ begun builtin this_value args }
    {
        BuiltinCall {
            builtin,
            this_value,
            args,
            place: Place::Begin,
            pending: Pending::Nothing,
            input: Value::Undefined,
            kept: Value::Undefined,
            other: Value::Undefined,
            index: 0,
            length: 0,
            units: Items::new(alloc),
            list: Items::new(alloc),
        }
    }

    /// Hands in what a function that was called out to gave, or what a read of a namespace object gave.
    pub fn receive(&mut self, answer: Value)
        ensures { self.new ≡ record self.old { input = answer } }
    {
        self.input = answer;
    }

    /// An argument; one that is missing is undefined.
    pub fn arg(&self, index: usize) -> Result<Value, AllocError>
        ensures { IfOk result (λ value. value ≡ arg self.now index) }
    {
        match self.args.get(index) {
            None => Ok(Value::Undefined),
            Some(value) => value.share(),
        }
    }
}

pub fn number_in(value: &Value) -> i64
    ensures { result ≡ number_in value.now }
{
    match value {
        Value::Number(number) => *number,
        _ => 0,
    }
}

pub fn text_in(value: &Value) -> &[u16]
    ensures { result.now ≡ text_in value.now }
{
    match value {
        Value::Text(text) => text.units(),
        _ => &[],
    }
}

pub fn is_undefined(value: &Value) -> bool
    ensures { result ≡ is_undefined value.now }
{
    matches!(value, Value::Undefined)
}

/// A position; one that is missing counts as 0.
pub fn position(value: Value) -> Value
    ensures { result ≡ position value }
{
    match value {
        Value::Undefined => Value::Number(0),
        other => other,
    }
}

/// A sum of indices and lengths, which are safe numbers.
pub fn plus(a: i64, b: i64) -> i64
    ensures { result ≡ plus a b }
{
    match add(a, b) {
        Ok(sum) => sum,
        Err(_) => 0,
    }
}

pub fn index_key(alloc: Global, index: i64) -> Result<Key, AllocError>
    ensures { IfOk result (λ key. key ≡ index_key index) }
{
    to_key(alloc, &Value::Number(index))
}

/// Values equal to these.
pub fn share_all(alloc: Global, values: &[Value]) -> Result<Items<Value>, AllocError>
    ensures { IfOk result (λ list. list ≡ values.now) }
{
    let mut list = Items::new(alloc);
    for value in values {
        list.push(value.share()?)?;
    }
    Ok(list)
}

/// The object of a receiver.
pub fn object_in(value: &Value) -> ObjId
    ensures { result ≡ object_in value.now }
{
    match value {
        Value::Object(id) => *id,
        _ => ObjId(0),
    }
}
