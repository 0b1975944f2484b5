//! Conversion of an object to a primitive (7.1.1), up to the function that is to be called next.
ghost use Rattle.std.specs.Prelude.{◌≡◌, IfOk};
ghost use Rattle.es_heap.specs.declared.key.Key.TheVariants.{Text as KeyText};
ghost use Rattle.es_operators.specs.Conversions.{first_name, second_name, need_of_method, need_of_read, need_of_name, try_second, next_method, method_given, name_tried, begun};

use crate::primitives::is_callable;
use es_heap::{Heap, Key};
use es_realm::{Edition, Read, read_object};
use es_value::{ObjId, Str, Value};
use std::alloc::{AllocError, Global};

/// Which of the methods is tried first: `toString` for a text, `valueOf` for a number.
#[derive(Clone, Copy, Debug, PartialEq, Eq)]
pub enum Hint {
    Text,
    Number,
}

/// Which methods of a conversion were looked for.
#[derive(Clone, Copy, Debug, PartialEq, Eq)]
pub enum Tried {
    Nothing,
    First,
    Both,
}

/// A conversion that goes on.
#[derive(Clone, Copy, Debug)]
pub struct Conversion {
    pub object: ObjId,
    pub hint: Hint,
    pub tried: Tried,
}

/// What a conversion asks for.
#[derive(Debug, Drop)]
pub enum Need {
    /// This method is to be called on the object. A primitive is the result, and for an object `next_method` goes on.
    Call(Value),
    /// This getter is to be called on the object, and what it gives goes to `method_given`.
    Getter(ObjId),
    /// The method's name is to be read out of this namespace object.
    Binding(ObjId),
    /// What was found can't be called.
    Skip,
    /// A TypeError.
    Fails,
    /// The run leaves the profile at the exit of this number.
    Leaves(u8),
}

fn first_name(hint: Hint) -> &'static [u8]
    ensures { result.now ≡ first_name hint }
{
    match hint {
        Hint::Text => b"toString",
        Hint::Number => b"valueOf",
    }
}

fn second_name(hint: Hint) -> &'static [u8]
    ensures { result.now ≡ second_name hint }
{
    match hint {
        Hint::Text => b"valueOf",
        Hint::Number => b"toString",
    }
}

fn need_of_method(heap: &Heap, method: Value) -> Need
    ensures { result ≡ need_of_method heap.now method }
{
    if is_callable(heap, &method) {
        Need::Call(method)
    } else {
        Need::Skip
    }
}

fn need_of_read(heap: &Heap, read: Read) -> Need
    ensures { result ≡ need_of_read heap.now read }
{
    match read {
        Read::Have(method) => need_of_method(heap, method),
        Read::Getter(getter) => Need::Getter(getter),
        Read::Binding(id) => Need::Binding(id),
        Read::NoObject => Need::Skip,
        Read::Leaves(exit) => Need::Leaves(exit),
    }
}

/// The key that is the text of these ASCII characters.
pub fn key_of_word(alloc: Global, word: &[u8]) -> Result<Key, AllocError>
    ensures { IfOk result (λ key. key ≡ KeyText word.now) }
{
    Ok(Key::Text(Str::of_bytes(alloc, word)?))
}

fn need_of_name(
    alloc: Global,
    edition: Edition,
    heap: &Heap,
    id: ObjId,
    name: &[u8],
) -> Result<Need, AllocError>
    ensures { IfOk result (λ need. need ≡ need_of_name edition heap.now id name.now) }
{
    let key = key_of_word(alloc, name)?;
    Ok(need_of_read(heap, read_object(edition, heap, id, &key)?))
}

impl Conversion {
    /// The conversion of an object.
    pub fn begin(object: ObjId, hint: Hint) -> Conversion
        ensures { result ≡ begun object hint }
    {
        Conversion {
            object,
            hint,
            tried: Tried::Nothing,
        }
    }

    fn try_second(
        &mut self,
        alloc: Global,
        edition: Edition,
        heap: &Heap,
    ) -> Result<Need, AllocError>
        ensures { IfOk result (λ need. (need ≡ (try_second edition heap.now self.old).need) × (self.new ≡ (try_second edition heap.now self.old).conversion)) }
    {
        self.tried = Tried::Both;
        match need_of_name(alloc, edition, heap, self.object, second_name(self.hint))? {
            Need::Skip => Ok(Need::Fails),
            need => Ok(need),
        }
    }

    /// Looks for the next method.
    pub fn next_method(
        &mut self,
        alloc: Global,
        edition: Edition,
        heap: &Heap,
    ) -> Result<Need, AllocError>
        ensures { IfOk result (λ need. (need ≡ (next_method edition heap.now self.old).need) × (self.new ≡ (next_method edition heap.now self.old).conversion)) }
    {
        match self.tried {
            Tried::Nothing => {}
            Tried::First => return self.try_second(alloc, edition, heap),
            Tried::Both => return Ok(Need::Fails),
        }
        match need_of_name(alloc, edition, heap, self.object, first_name(self.hint))? {
            Need::Skip => self.try_second(alloc, edition, heap),
            need => {
                self.tried = Tried::First;
                Ok(need)
            }
        }
    }

    /// Goes on with a method that a getter or a namespace gave.
    pub fn method_given(
        &mut self,
        alloc: Global,
        edition: Edition,
        heap: &Heap,
        method: Value,
    ) -> Result<Need, AllocError>
        ensures { IfOk result (λ need. (need ≡ (method_given edition heap.now self.old method).need) × (self.new ≡ (method_given edition heap.now self.old method).conversion)) }
    {
        if is_callable(heap, &method) {
            return Ok(Need::Call(method));
        }
        self.next_method(alloc, edition, heap)
    }

    /// The name of the method that is being tried.
    pub fn name_tried(&self) -> &'static [u8]
        ensures { result.now ≡ name_tried self.now.tried self.now.hint }
    {
        match self.tried {
            Tried::Both => second_name(self.hint),
            Tried::Nothing | Tried::First => first_name(self.hint),
        }
    }
}
