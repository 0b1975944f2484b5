//! What the lines do.
use crate::facts::{error_kind, global, of_prims, prototype, through_prim, thrown};
use crate::operate::{binary, construct, delete, extend, instance, unary, write, written};
use crate::outcome::{Ending, Outcome};
use crate::realm::Realm;
use crate::show::{kind_name, shown};
use crate::words::{index_of, key_of, next_key, value_of};
use es_builtins::{BuiltinCall, BuiltinStep, ErrorKind, step_builtin};
use es_heap::{Class, Heap, HeapFault, Key, Prop};
use es_operators::{Conversion, Hint, Need, is_object};
use es_realm::names::{ARRAY_PROTOTYPE, FUNCTION_PROTOTYPE, OBJECT_PROTOTYPE};
use es_realm::{Edition, Read, Write, define_key, make_error, read_value, write_length};
use es_value::{ObjId, Str, Value, to_number};
use sqlite_items::Items;
use std::alloc::{AllocError, Global};
use std::str::SplitWhitespace;

/// How many steps a line may take.
const STEPS: u32 = 20_000_000;

/// How many functions a conversion may call: two methods, and a getter for each.
const TRIES: u32 = 5;

/// What a function of the list does.
#[derive(Drop)]
enum Behavior {
    Gives(Value),
    Throws(Value),
    Receiver,
    Argument(usize),
    /// It gives these two values by turns.
    Turns { first: Value, second: Value },
}

/// What is called.
#[derive(Clone, Copy)]
enum Callee {
    Library(u16),
    /// A function of the list, by its place among these.
    Listed(usize),
    Nothing,
}

#[derive(Drop)]
pub struct Play {
    heap: Heap,
    realm: Realm,
    /// How many objects the realm began with.
    library: usize,
    slots: Vec<Value>,
    functions: Vec<Behavior>,
    /// Whether each of them was called an odd number of times.
    odd: Vec<bool>,
    /// What is printed before the answer.
    calls: String,
}

impl Play {
    pub fn new(alloc: Global) -> Result<Play, AllocError> {
        Play::in_realm(alloc, Edition::Sixth, &mut "".split_whitespace())
    }

    fn in_realm(
        alloc: Global,
        edition: Edition,
        hosts: &mut SplitWhitespace,
    ) -> Result<Play, AllocError> {
        let (heap, realm) = Realm::start(alloc, edition, hosts)?;
        let library = heap.len();
        Ok(Play {
            heap,
            realm,
            library,
            slots: Vec::new(alloc),
            functions: Vec::new(alloc),
            odd: Vec::new(alloc),
            calls: String::new(alloc),
        })
    }

    /// What a line answers.
    pub fn answer(&mut self, alloc: Global, line: &str) -> Result<String, AllocError> {
        let mut words = line.split_whitespace();
        let operation = words.next().unwrap_or("");
        if operation == "realm" {
            let edition = if words.next() == Some("5") {
                Edition::Fifth
            } else {
                Edition::Sixth
            };
            *self = Play::in_realm(alloc, edition, &mut words)?;
            return String::from_str(alloc, "realm");
        }
        self.calls = String::new(alloc);
        let outcome = self.outcome_of(alloc, operation, &mut words)?;
        self.ending(alloc, outcome)
    }

    fn outcome_of(
        &mut self,
        alloc: Global,
        operation: &str,
        words: &mut SplitWhitespace,
    ) -> Ending {
        match operation {
            "call" => self.call(alloc, words),
            "read" => self.read(alloc, words),
            "write" => self.write(alloc, words),
            "delete" => self.delete(alloc, words),
            "function" => self.function(alloc, words),
            "object" | "array" | "arguments" | "namespace" => self.object(alloc, operation, words),
            "binary" | "unary" | "new" | "extends" => self.operate(alloc, operation, words),
            "prim" | "prims" | "seen" | "error" | "prototype" | "global" | "hosts" => {
                self.ask(alloc, operation, words)
            }
            _ => self.define_by(alloc, operation, words),
        }
    }

    /// An operator, or what a class or `new` takes.
    fn operate(&self, alloc: Global, operation: &str, words: &mut SplitWhitespace) -> Ending {
        let edition = self.realm.edition();
        match operation {
            "binary" => self.binary(alloc, words),
            "unary" => self.unary(alloc, words),
            "new" => construct(alloc, edition, &self.heap, &self.next_value(alloc, words)?),
            _ => extend(alloc, &self.heap, &self.next_value(alloc, words)?),
        }
    }

    /// What defines, or marks, in one of the ways that there are.
    fn define_by(&mut self, alloc: Global, operation: &str, words: &mut SplitWhitespace) -> Ending {
        match operation {
            "define" => self.define(alloc, words),
            "accessor" => self.accessor(alloc, words),
            "seal" => self.seal(alloc, words),
            "record" => self.record(alloc, words),
            "put" => self.put_key(alloc, words),
            _ => self.length(alloc, words),
        }
    }

    fn ending(&mut self, alloc: Global, outcome: Outcome) -> Result<String, AllocError> {
        match outcome {
            Outcome::Value(value) => {
                self.slots.push(value.share()?)?;
                let answer = self.shown(alloc, &value)?;
                self.after_calls(alloc, "", answer.as_str())
            }
            Outcome::ThrowsValue(value) => {
                let thrown = self.shown(alloc, &value)?;
                self.after_calls(alloc, "throws ", thrown.as_str())
            }
            Outcome::Throws(kind) => self.after_calls(alloc, "throws ", kind_name(kind)),
            Outcome::Leaves(exit) => {
                let number = format!(in alloc; "{exit}")?;
                self.after_calls(alloc, "leaves ", number.as_str())
            }
            Outcome::Stuck => self.after_calls(alloc, "stuck", ""),
        }
    }

    fn after_calls(&self, alloc: Global, word: &str, rest: &str) -> Result<String, AllocError> {
        let calls = self.calls.as_str();
        format!(in alloc; "{calls}{word}{rest}")
    }

    fn shown(&self, alloc: Global, value: &Value) -> Result<String, AllocError> {
        shown(alloc, &self.slots, self.library, value)
    }

    fn next_value(&self, alloc: Global, words: &mut SplitWhitespace) -> Result<Value, AllocError> {
        value_of(alloc, &self.slots, words.next().unwrap_or(""))
    }

    fn next_object(
        &self,
        alloc: Global,
        words: &mut SplitWhitespace,
    ) -> Result<Option<ObjId>, AllocError> {
        Ok(object_in(&self.next_value(alloc, words)?))
    }

    fn object(&mut self, alloc: Global, operation: &str, words: &mut SplitWhitespace) -> Ending {
        let id = match operation {
            "array" => {
                let id = self.heap.make(alloc, Some(ARRAY_PROTOTYPE), Class::Array)?;
                self.add_items(alloc, id, words)?;
                id
            }
            "arguments" => {
                let id = self
                    .heap
                    .make(alloc, Some(OBJECT_PROTOTYPE), Class::Arguments)?;
                let count = self.add_items(alloc, id, words)?;
                self.put(
                    alloc,
                    id,
                    key_of(alloc, "'length")?,
                    plain(Value::Number(count)),
                )?;
                id
            }
            "namespace" => self.heap.make(alloc, None, Class::Namespace(0))?,
            _ => {
                let prototype = self.next_object(alloc, words)?;
                self.heap.make(alloc, prototype, Class::Object)?
            }
        };
        Ok(Outcome::Value(Value::Object(id)))
    }

    /// What a value is to hosts and classes, and what a name is.
    fn ask(&mut self, alloc: Global, operation: &str, words: &mut SplitWhitespace) -> Ending {
        match operation {
            "prim" => through_prim(alloc, &self.next_value(alloc, words)?),
            "prims" => of_prims(alloc, self.values(alloc, words)?.as_slice()),
            "seen" => thrown(alloc, &self.heap, &self.next_value(alloc, words)?),
            "prototype" => Ok(prototype(&self.heap, &self.next_value(alloc, words)?)),
            "global" => Ok(global(words.next().unwrap_or(""))),
            "error" => self.error(alloc, words.next().unwrap_or("")),
            _ => Ok(Outcome::Value(Value::Number(self.realm.hosts()))),
        }
    }

    fn error(&mut self, alloc: Global, name: &str) -> Ending {
        let id = make_error(alloc, &mut self.heap, error_kind(name))?;
        Ok(Outcome::Value(Value::Object(id)))
    }

    /// Defines a plain property as a literal does.
    fn put_key(&mut self, alloc: Global, words: &mut SplitWhitespace) -> Ending {
        let Some(id) = self.next_object(alloc, words)? else {
            return Ok(Outcome::Stuck);
        };
        let key = next_key(alloc, words)?;
        let property = plain(self.next_value(alloc, words)?);
        let edition = self.realm.edition();
        Ok(written(define_key(alloc, edition, &mut self.heap, id, key, property)?))
    }

    /// A write to an array's length of two numbers that an object gave.
    fn length(&mut self, alloc: Global, words: &mut SplitWhitespace) -> Ending {
        let Some(list) = self.next_object(alloc, words)? else {
            return Ok(Outcome::Stuck);
        };
        let first = number_in(&self.next_value(alloc, words)?);
        let second = number_in(&self.next_value(alloc, words)?);
        Ok(written(write_length(&mut self.heap, list, first, second)))
    }

    fn values(&self, alloc: Global, words: &mut SplitWhitespace) -> Result<Vec<Value>, AllocError> {
        let mut values = Vec::new(alloc);
        for word in words {
            values.push(value_of(alloc, &self.slots, word)?)?;
        }
        Ok(values)
    }

    /// Gives an object these items, and answers how many there are, holes among them.
    fn add_items(
        &mut self,
        alloc: Global,
        id: ObjId,
        words: &mut SplitWhitespace,
    ) -> Result<i64, AllocError> {
        let mut count = 0i64;
        for word in words {
            if word != "_" {
                let value = value_of(alloc, &self.slots, word)?;
                let key = format!(in alloc; "'{count}")?;
                self.put(alloc, id, key_of(alloc, key.as_str())?, plain(value))?;
            }
            count = count.saturating_add(1);
        }
        Ok(count)
    }

    /// Defines a property, and answers whether that wasn't refused.
    fn put(
        &mut self,
        alloc: Global,
        id: ObjId,
        key: Key,
        property: Prop,
    ) -> Result<bool, AllocError> {
        match self.heap.define_own(alloc, id, key, property) {
            Ok(()) => Ok(true),
            Err(HeapFault::OutOfMemory) => Err(AllocError),
            Err(_) => Ok(false),
        }
    }

    fn function(&mut self, alloc: Global, words: &mut SplitWhitespace) -> Ending {
        let behavior = match words.next() {
            Some("gives") => Behavior::Gives(self.next_value(alloc, words)?),
            Some("throws") => Behavior::Throws(self.next_value(alloc, words)?),
            Some("receiver") => Behavior::Receiver,
            Some("turns") => Behavior::Turns {
                first: self.next_value(alloc, words)?,
                second: self.next_value(alloc, words)?,
            },
            _ => Behavior::Argument(index_of(words.next().unwrap_or(""))),
        };
        let class = Class::Function(self.functions.len());
        self.functions.push(behavior)?;
        self.odd.push(false)?;
        let parent = self
            .next_object(alloc, words)?
            .unwrap_or(FUNCTION_PROTOTYPE);
        let id = self.heap.make(alloc, Some(parent), class)?;
        Ok(Outcome::Value(Value::Object(id)))
    }

    fn define(&mut self, alloc: Global, words: &mut SplitWhitespace) -> Ending {
        let Some(id) = self.next_object(alloc, words)? else {
            return Ok(Outcome::Stuck);
        };
        let key = next_key(alloc, words)?;
        let property = Prop::Plain {
            value: self.next_value(alloc, words)?,
            writable: words.next() == Some("1"),
            configurable: words.next() == Some("1"),
        };
        Ok(Outcome::Value(Value::Bool(self.put(alloc, id, key, property)?)))
    }

    fn accessor(&mut self, alloc: Global, words: &mut SplitWhitespace) -> Ending {
        let Some(id) = self.next_object(alloc, words)? else {
            return Ok(Outcome::Stuck);
        };
        let key = next_key(alloc, words)?;
        let property = Prop::Accessor {
            get: self.next_object(alloc, words)?,
            set: self.next_object(alloc, words)?,
            configurable: words.next() == Some("1"),
        };
        Ok(Outcome::Value(Value::Bool(self.put(alloc, id, key, property)?)))
    }

    fn seal(&mut self, alloc: Global, words: &mut SplitWhitespace) -> Ending {
        let Some(id) = self.next_object(alloc, words)? else {
            return Ok(Outcome::Stuck);
        };
        self.heap.prevent_extensions(id);
        Ok(Outcome::Value(Value::Undefined))
    }

    fn read(&mut self, alloc: Global, words: &mut SplitWhitespace) -> Ending {
        let base = self.next_value(alloc, words)?;
        let key = next_key(alloc, words)?;
        match read_value(alloc, self.realm.edition(), &self.heap, &base, &key)? {
            Read::Have(value) => Ok(Outcome::Value(value)),
            Read::Getter(getter) => self.call_function(alloc, getter, base, Items::new(alloc)),
            Read::Binding(_) => Ok(Outcome::Value(read_out(alloc)?)),
            Read::NoObject => Ok(Outcome::Throws(ErrorKind::TypeError)),
            Read::Leaves(exit) => Ok(Outcome::Leaves(exit)),
        }
    }

    fn binary(&self, alloc: Global, words: &mut SplitWhitespace) -> Ending {
        let operator = words.next().unwrap_or("");
        let left = self.next_value(alloc, words)?;
        let right = self.next_value(alloc, words)?;
        if operator == "instanceof" {
            return instance(alloc, self.realm.edition(), &self.heap, &left, &right);
        }
        binary(alloc, operator, &left, &right)
    }

    fn unary(&self, alloc: Global, words: &mut SplitWhitespace) -> Ending {
        let operator = words.next().unwrap_or("");
        let value = self.next_value(alloc, words)?;
        unary(alloc, &self.heap, operator, &value)
    }

    fn write(&mut self, alloc: Global, words: &mut SplitWhitespace) -> Ending {
        let base = self.next_value(alloc, words)?;
        let key = next_key(alloc, words)?;
        let value = self.next_value(alloc, words)?;
        let edition = self.realm.edition();
        match write(alloc, edition, &mut self.heap, &base, key, value.share()?)? {
            Write::Setter(setter) => self.set(alloc, setter, base, value),
            Write::Convert => self.write_length(alloc, &base, &value),
            answer => Ok(written(answer)),
        }
    }

    /// A call of a setter, whose value is lost.
    fn set(&mut self, alloc: Global, setter: ObjId, base: Value, value: Value) -> Ending {
        let mut args = Items::new(alloc);
        args.push(value)?;
        match self.call_function(alloc, setter, base, args)? {
            Outcome::Value(_) => Ok(Outcome::Value(Value::Undefined)),
            outcome => Ok(outcome),
        }
    }

    /// A write to an array's length of an object, which is converted to a number twice.
    fn write_length(&mut self, alloc: Global, base: &Value, value: &Value) -> Ending {
        let (Value::Object(list), Value::Object(object)) = (base, value) else {
            return Ok(Outcome::Stuck);
        };
        let first = match self.number_of(alloc, *object)? {
            Ok(number) => number,
            Err(outcome) => return Ok(outcome),
        };
        let second = match self.number_of(alloc, *object)? {
            Ok(number) => number,
            Err(outcome) => return Ok(outcome),
        };
        Ok(written(write_length(&mut self.heap, *list, first, second)))
    }

    /// ToNumber of an object, or how its conversion ends else.
    fn number_of(
        &mut self,
        alloc: Global,
        object: ObjId,
    ) -> Result<Result<i64, Outcome>, AllocError> {
        let mut conversion = Conversion::begin(object, Hint::Number);
        let mut need = conversion.next_method(alloc, self.realm.edition(), &self.heap)?;
        for _ in 0..TRIES {
            let (function, is_getter) = match need {
                Need::Call(Value::Object(method)) => (method, false),
                Need::Getter(getter) => (getter, true),
                Need::Leaves(exit) => return Ok(Err(Outcome::Leaves(exit))),
                Need::Fails | Need::Skip => {
                    return Ok(Err(Outcome::Throws(ErrorKind::TypeError)));
                }
                Need::Call(_) | Need::Binding(_) => return Ok(Err(Outcome::Stuck)),
            };
            let receiver = Value::Object(object);
            let given = match self.call_function(alloc, function, receiver, Items::new(alloc))? {
                Outcome::Value(value) => value,
                outcome => return Ok(Err(outcome)),
            };
            let edition = self.realm.edition();
            if is_getter {
                need = conversion.method_given(alloc, edition, &self.heap, given)?;
            } else if is_object(&given) {
                need = conversion.next_method(alloc, edition, &self.heap)?;
            } else {
                return Ok(to_number(&given).map_err(|exit| Outcome::Leaves(exit.number())));
            }
        }
        Ok(Err(Outcome::Stuck))
    }

    /// A call of a getter, a setter or a conversion's method.
    fn call_function(
        &mut self,
        alloc: Global,
        function: ObjId,
        receiver: Value,
        args: Items<Value>,
    ) -> Ending {
        let mut stack = Vec::new(alloc);
        match self.enter(alloc, &mut stack, &Value::Object(function), receiver, args)? {
            None => self.run(alloc, stack),
            Some(outcome) => Ok(outcome),
        }
    }

    fn delete(&mut self, alloc: Global, words: &mut SplitWhitespace) -> Ending {
        let base = self.next_value(alloc, words)?;
        let key = next_key(alloc, words)?;
        delete(alloc, self.realm.edition(), &mut self.heap, &base, &key)
    }

    /// Records a key of a static member that a class inherits.
    fn record(&mut self, alloc: Global, words: &mut SplitWhitespace) -> Ending {
        let Some(id) = self.next_object(alloc, words)? else {
            return Ok(Outcome::Stuck);
        };
        let key = next_key(alloc, words)?;
        self.heap.record_key(alloc, id, key)?;
        Ok(Outcome::Value(Value::Undefined))
    }

    fn call(&mut self, alloc: Global, words: &mut SplitWhitespace) -> Ending {
        let number = words.next().unwrap_or("").parse::<u16>().unwrap_or(42);
        let this_value = self.next_value(alloc, words)?;
        let mut args = Items::new(alloc);
        for word in words {
            args.push(value_of(alloc, &self.slots, word)?)?;
        }
        let mut stack = Vec::new(alloc);
        stack.push(BuiltinCall::begin(alloc, number, this_value, args))?;
        self.run(alloc, stack)
    }

    /// Takes steps until the call at the bottom of the stack ends.
    fn run(&mut self, alloc: Global, stack: Vec<BuiltinCall>) -> Ending {
        let mut stack = stack;
        for _ in 0..STEPS {
            if let Some(outcome) = self.step(alloc, &mut stack)? {
                return Ok(outcome);
            }
        }
        Ok(Outcome::Stuck)
    }

    fn step(
        &mut self,
        alloc: Global,
        stack: &mut Vec<BuiltinCall>,
    ) -> Result<Option<Outcome>, AllocError> {
        let Some(call) = stack.last_mut() else {
            return Ok(Some(Outcome::Stuck));
        };
        match step_builtin(call, alloc, self.realm.lend(), &mut self.heap) {
            BuiltinStep::Running => Ok(None),
            BuiltinStep::CallOut {
                callee,
                this_value,
                args,
            } => self.enter(alloc, stack, &callee, this_value, args),
            BuiltinStep::ReadOut { .. } => Ok(deliver(stack, read_out(alloc)?)),
            BuiltinStep::Done(value) => {
                stack.pop();
                Ok(deliver(stack, value))
            }
            BuiltinStep::Throws(kind) => Ok(Some(Outcome::Throws(kind))),
            BuiltinStep::Leaves(exit) => Ok(Some(Outcome::Leaves(exit))),
            BuiltinStep::Resume(_) | BuiltinStep::Unknown => Ok(Some(Outcome::Stuck)),
            BuiltinStep::OutOfMemory => Err(AllocError),
        }
    }

    /// Begins a call of the library, or answers one of a function of the list.
    fn enter(
        &mut self,
        alloc: Global,
        stack: &mut Vec<BuiltinCall>,
        callee: &Value,
        this_value: Value,
        args: Items<Value>,
    ) -> Result<Option<Outcome>, AllocError> {
        match callee_of(&self.heap, callee) {
            Callee::Library(number) => {
                stack.push(BuiltinCall::begin(alloc, number, this_value, args))?;
                Ok(None)
            }
            Callee::Listed(place) => {
                self.note(alloc, callee, &this_value, args.as_slice())?;
                let outcome = self.behave(stack, place, this_value, args.as_slice())?;
                self.count(place);
                Ok(outcome)
            }
            Callee::Nothing => Ok(Some(Outcome::Stuck)),
        }
    }

    /// Notes that a function of the list was called once more.
    fn count(&mut self, place: usize) {
        if place < self.odd.len() {
            self.odd[place] = !self.odd[place];
        }
    }

    fn is_odd(&self, place: usize) -> bool {
        match self.odd.get(place) {
            Some(odd) => *odd,
            None => false,
        }
    }

    fn behave(
        &self,
        stack: &mut Vec<BuiltinCall>,
        place: usize,
        this_value: Value,
        args: &[Value],
    ) -> Result<Option<Outcome>, AllocError> {
        let value = match self.functions.get(place) {
            Some(Behavior::Throws(value)) => {
                return Ok(Some(Outcome::ThrowsValue(value.share()?)));
            }
            Some(Behavior::Gives(value)) => value.share()?,
            Some(Behavior::Receiver) => this_value,
            Some(Behavior::Argument(index)) => match args.get(*index) {
                Some(argument) => argument.share()?,
                None => Value::Undefined,
            },
            Some(Behavior::Turns { first, second }) => {
                if self.is_odd(place) {
                    second.share()?
                } else {
                    first.share()?
                }
            }
            None => Value::Undefined,
        };
        Ok(deliver(stack, value))
    }

    /// Notes a call of a function of the list, with its receiver and its arguments.
    fn note(
        &mut self,
        alloc: Global,
        callee: &Value,
        this_value: &Value,
        args: &[Value],
    ) -> Result<(), AllocError> {
        let name = self.shown(alloc, callee)?;
        let receiver = self.shown(alloc, this_value)?;
        self.calls.push_str(name.as_str())?;
        self.calls.push_str(" on ")?;
        self.calls.push_str(receiver.as_str())?;
        for argument in args {
            let text = self.shown(alloc, argument)?;
            self.calls.push_str(", ")?;
            self.calls.push_str(text.as_str())?;
        }
        self.calls.push_str("; ")?;
        Ok(())
    }
}

fn callee_of(heap: &Heap, callee: &Value) -> Callee {
    match callee {
        Value::Object(id) => match heap.class(*id) {
            Class::Builtin(number) => Callee::Library(*number),
            Class::Function(place) => Callee::Listed(*place),
            _ => Callee::Nothing,
        },
        _ => Callee::Nothing,
    }
}

/// Hands a value to the call that waits for it, or ends the line with it.
fn deliver(stack: &mut Vec<BuiltinCall>, value: Value) -> Option<Outcome> {
    match stack.last_mut() {
        Some(call) => {
            call.receive(value);
            None
        }
        None => Some(Outcome::Value(value)),
    }
}

fn object_in(value: &Value) -> Option<ObjId> {
    match value {
        Value::Object(id) => Some(*id),
        _ => None,
    }
}

fn number_in(value: &Value) -> i64 {
    match value {
        Value::Number(number) => *number,
        _ => 0,
    }
}

fn plain(value: Value) -> Prop {
    Prop::Plain {
        value,
        writable: true,
        configurable: true,
    }
}

/// What each binding of a namespace object gives.
fn read_out(alloc: Global) -> Result<Value, AllocError> {
    let mut units = Vec::new(alloc);
    units.push(u16::from(b'b'))?;
    Ok(Value::Text(Str::of_vec(alloc, units)?))
}
