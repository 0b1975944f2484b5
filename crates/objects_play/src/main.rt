//! Plays a list of operations on an object and on an array, one a line, and prints what each answers.
//! The script tests/engines/objects.sh plays the same lists in node.
//!
//! A line begins with its operation and with `o` for the object or `a` for the array; an object below each has it as its prototype:
//! - `d o KEY NUMBER WRITABLE CONFIGURABLE` defines a plain property, `g o KEY CONFIGURABLE` one with a getter, and
//!   `s o KEY CONFIGURABLE` one with a setter;
//! - `x o KEY` deletes, `l a NUMBER` sets the length, `p o` prevents extensions;
//! - `w o KEY NUMBER` writes to the object below, and `v o KEY NUMBER` does so for a receiver that is no object;
//! - `k o KEY` records the key, and `c o NUMBER` makes the object below a function of this number;
//! - `n` begins anew, with an empty heap;
//! - `r o KEY` reads the own property, `f o KEY` finds the property from the object below, and `h o KEY` says which of both has it;
//! - `i o KEY` asks for the key's array index, `q o KEY` whether it is recorded, `e o` whether the object is extensible,
//!   `u o` whether it is above the object below, and that above itself, and `y o` why the last change was refused.
//!
//! A mark is `0` or `1`. A key is its text, or `*` for Symbol.iterator.
#![tactic(auto)]

use es_access::{PutAnswer, is_above, put};
use es_heap::{Class, Heap, HeapFault, Key, Prop, array_index};
use es_value::{ObjId, Str, Value};
use std::alloc::{AllocError, Global};
use std::io;
use std::str::SplitWhitespace;

/// An object of the play, and the one below it, whose prototype it is.
#[derive(Clone, Copy)]
struct Pair {
    id: ObjId,
    below: ObjId,
}

#[derive(Drop)]
struct Play {
    heap: Heap,
    object: Pair,
    array: Pair,
    /// The getter and the setter of properties that have one.
    function: ObjId,
    /// Why the last change was refused.
    refusal: Option<HeapFault>,
}

impl Play {
    fn new(alloc: Global) -> Result<Play, AllocError> {
        let mut heap = Heap::new(alloc);
        let object = pair_of(alloc, &mut heap, Class::Object)?;
        let array = pair_of(alloc, &mut heap, Class::Array)?;
        let function = heap.make(alloc, None, Class::Function(0))?;
        Ok(Play {
            heap,
            object,
            array,
            function,
            refusal: None,
        })
    }

    /// What the operation of a line answers.
    fn answer(&mut self, alloc: Global, line: &str) -> Result<String, AllocError> {
        let mut words = line.split_whitespace();
        let operation = words.next().unwrap_or("");
        let on_array = words.next() == Some("a");
        let pair = if on_array { self.array } else { self.object };
        let word = words.next().unwrap_or("");
        match operation {
            "d" | "g" | "s" => {
                let property = self.property_of(operation, &mut words);
                let key = key_of(alloc, word)?;
                let answer = self.heap.define_own(alloc, pair.id, key, property);
                self.changed(alloc, answer)
            }
            "l" => {
                let answer = self.heap.set_length(pair.id, whole_of(word));
                self.changed(alloc, answer)
            }
            "x" => self.delete(alloc, pair.id, &key_of(alloc, word)?),
            "w" => self.write(alloc, pair, word, number_of(&mut words), Some(pair.below)),
            "v" => self.write(alloc, pair, word, number_of(&mut words), None),
            "p" | "k" | "c" => self.mark(alloc, operation, pair, word),
            "n" => {
                *self = Play::new(alloc)?;
                String::from_str(alloc, "new")
            }
            _ => self.ask(alloc, operation, pair, &key_of(alloc, word)?),
        }
    }

    fn property_of(&self, operation: &str, words: &mut SplitWhitespace) -> Prop {
        match operation {
            "g" => Prop::Accessor {
                get: Some(self.function),
                set: None,
                configurable: mark_of(words),
            },
            "s" => Prop::Accessor {
                get: None,
                set: Some(self.function),
                configurable: mark_of(words),
            },
            _ => Prop::Plain {
                value: Value::Number(number_of(words)),
                writable: mark_of(words),
                configurable: mark_of(words),
            },
        }
    }

    /// Shows what a change answered, and keeps why it was refused.
    fn changed(
        &mut self,
        alloc: Global,
        answer: Result<(), HeapFault>,
    ) -> Result<String, AllocError> {
        self.refusal = answer.err();
        let word = match self.refusal {
            None => "ok",
            Some(HeapFault::BadLength) => "range",
            Some(HeapFault::OutOfMemory) => return Err(AllocError),
            Some(_) => "refused",
        };
        String::from_str(alloc, word)
    }

    fn delete(&mut self, alloc: Global, id: ObjId, key: &Key) -> Result<String, AllocError> {
        match self.heap.delete_own(id, key) {
            Ok(was_there) => truth_shown(alloc, was_there),
            Err(fault) => self.changed(alloc, Err(fault)),
        }
    }

    /// A write to the object below.
    fn write(
        &mut self,
        alloc: Global,
        pair: Pair,
        word: &str,
        number: i64,
        receiver: Option<ObjId>,
    ) -> Result<String, AllocError> {
        let key = key_of(alloc, word)?;
        let value = Value::Number(number);
        let answer = put(alloc, &mut self.heap, pair.below, key, value, receiver)?;
        String::from_str(alloc, put_shown(answer, self.function))
    }

    /// Changes that nothing refuses.
    fn mark(
        &mut self,
        alloc: Global,
        operation: &str,
        pair: Pair,
        word: &str,
    ) -> Result<String, AllocError> {
        match operation {
            "p" => self.heap.prevent_extensions(pair.id),
            "c" => {
                let class = Class::Function(word.parse::<usize>().unwrap_or(0));
                self.heap.set_class(pair.below, class);
                return self.below_shown(alloc, pair);
            }
            _ => self.heap.record_key(alloc, pair.id, key_of(alloc, word)?)?,
        }
        String::from_str(alloc, "ok")
    }

    /// The number of the function below, and whether it is below still.
    fn below_shown(&self, alloc: Global, pair: Pair) -> Result<String, AllocError> {
        let stays = self.heap.proto(pair.below) == Some(pair.id);
        match self.heap.class(pair.below) {
            Class::Function(number) => format!(in alloc; "function {number} {stays}"),
            _ => String::from_str(alloc, "no function"),
        }
    }

    /// What doesn't change the heap.
    fn ask(
        &self,
        alloc: Global,
        operation: &str,
        pair: Pair,
        key: &Key,
    ) -> Result<String, AllocError> {
        match operation {
            "f" => match self.heap.find(pair.below, key) {
                Some((_, property)) => property_shown(alloc, property),
                None => String::from_str(alloc, "none"),
            },
            "h" => String::from_str(alloc, holder_shown(&self.heap, pair, key)),
            "i" => match array_index(key) {
                Some(index) => format!(in alloc; "{index}"),
                None => String::from_str(alloc, "none"),
            },
            "q" => truth_shown(alloc, self.heap.is_recorded(pair.id, key)),
            "e" => truth_shown(alloc, self.heap.is_extensible(pair.id)),
            "u" => above_shown(alloc, &self.heap, pair),
            "y" => String::from_str(alloc, refusal_shown(self.refusal)),
            _ => match self.heap.get_own(pair.id, key) {
                Some(property) => property_shown(alloc, property),
                None => String::from_str(alloc, "none"),
            },
        }
    }
}

/// Makes an object of this class, and one below it.
fn pair_of(alloc: Global, heap: &mut Heap, class: Class) -> Result<Pair, AllocError> {
    let id = heap.make(alloc, None, class)?;
    let below = heap.make(alloc, Some(id), Class::Object)?;
    Ok(Pair { id, below })
}

fn key_of(alloc: Global, word: &str) -> Result<Key, AllocError> {
    if word == "*" {
        return Ok(Key::Iterator);
    }
    let mut units = Vec::new(alloc);
    for byte in word.as_bytes() {
        units.push(u16::from(*byte))?;
    }
    Ok(Key::Text(Str::of_vec(alloc, units)?))
}

fn whole_of(word: &str) -> i64 {
    word.parse::<i64>().unwrap_or(0)
}

fn number_of(words: &mut SplitWhitespace) -> i64 {
    whole_of(words.next().unwrap_or(""))
}

fn mark_of(words: &mut SplitWhitespace) -> bool {
    words.next() == Some("1")
}

fn truth_shown(alloc: Global, truth: bool) -> Result<String, AllocError> {
    format!(in alloc; "{truth}")
}

fn put_shown(answer: PutAnswer, function: ObjId) -> &'static str {
    match answer {
        PutAnswer::Done => "ok",
        PutAnswer::Setter(setter) if setter.0 == function.0 => "setter",
        PutAnswer::Setter(_) => "another setter",
        PutAnswer::Refused => "refused",
        PutAnswer::OutOfRange => "range",
    }
}

fn refusal_shown(refusal: Option<HeapFault>) -> &'static str {
    match refusal {
        Some(HeapFault::NotWritable) => "not writable",
        Some(HeapFault::NotConfigurable) => "not configurable",
        Some(HeapFault::NotExtensible) => "not extensible",
        Some(HeapFault::BadLength) => "no length",
        Some(HeapFault::OutOfMemory) => "no memory",
        None => "not refused",
    }
}

/// Which object of the pair has the property that is found from the one below.
fn holder_shown(heap: &Heap, pair: Pair, key: &Key) -> &'static str {
    match heap.find(pair.below, key) {
        Some((holder, _)) if holder.0 == pair.below.0 => "below",
        Some(_) => "above",
        None => "none",
    }
}

/// Whether the object is above the one below, and that above itself.
fn above_shown(alloc: Global, heap: &Heap, pair: Pair) -> Result<String, AllocError> {
    let above = is_above(heap, pair.below, pair.id);
    let itself = is_above(heap, pair.below, pair.below);
    format!(in alloc; "{above} {itself}")
}

fn property_shown(alloc: Global, property: &Prop) -> Result<String, AllocError> {
    match property {
        Prop::Plain {
            value: Value::Number(number),
            writable,
            configurable,
        } => format!(in alloc; "plain {number} {writable} {configurable}"),
        Prop::Plain { .. } => String::from_str(alloc, "plain"),
        Prop::Accessor {
            get: Some(_),
            configurable,
            ..
        } => format!(in alloc; "getter {configurable}"),
        Prop::Accessor { configurable, .. } => format!(in alloc; "setter {configurable}"),
    }
}

fn main(rt: HostRuntime) -> io::Result<()> {
    let mut play = Play::new(rt.alloc())?;
    for line in rt.lines(rt.alloc()) {
        let line = line?;
        let answer = play.answer(rt.alloc(), line.as_str())?;
        println!(rt; "{answer}")?;
    }
    Ok(())
}
