//! One object, and the operations on it.
ghost use Rattle.std.specs.Prelude.{◌≡◌, ◌≢◌, ◌<◌, ◌&&◌, true, false, Some, OnOk, OnErr};
ghost use Rattle.std.specs.List.{list_any};
ghost use Rattle.std.specs.Option.{option_copied};
ghost use Rattle.es_heap.specs.Classes.{is_array};
ghost use Rattle.es_heap.specs.Keys.{same_key, length_key};
ghost use Rattle.es_heap.specs.Tables.{cut_end};
ghost use Rattle.es_heap.specs.Objects.{Comes, Settles, fault_of, own, with_own, new_object, recorded_after, length_property, length_of, length_writable, define_own, ordinary_define, define_element, define_length, define_length_number, cut_to, set_length, after_delete, deleted, refusal, same_function};

use crate::class::Class;
use crate::index::array_index;
use crate::key::Key;
use crate::length::Length;
use crate::prop::{HeapFault, Prop};
use crate::table::Table;
use es_value::{ObjId, Value, same};
use indexmap::IndexSet;
use std::alloc::{AllocError, Global};
use std::marker::Model;

/// An object. An array's property `length` stands apart from the others, so that it is found without a key.
#[derive(Drop)]
pub(crate) struct Object {
    proto: Option<ObjId>,
    class: Class,
    extensible: bool,
    length: Option<Length>,
    table: Table,
    recorded: IndexSet<Key>,
}

impl Model for Object {
    ghost use Rattle.std.specs.Prelude.{◌≡◌, ◌++◌, is_some};
    ghost use Rattle.es_heap.specs.Objects.{Object as ObjectValue, length_entry};
    ghost use Rattle.es_heap.specs.Classes.{is_array};

    ghost Value = { ObjectValue };

    ghost view = { λ o. record { proto = o.proto; class = o.class; extensible = o.extensible; properties = length_entry o.length ++ o.table; recorded = o.recorded.keys } };

    ghost invariant = { λ o. is_some o.length ≡ is_array o.class };
}

impl Object {
    pub(crate) fn new(alloc: Global, proto: Option<ObjId>, class: Class) -> Object
        ensures { result ≡ new_object proto class }
    {
        let length = if class.is_array() {
            Some(Length::new(0, true))
        } else {
            None
        };
        Object {
            proto,
            class,
            extensible: true,
            length,
            table: Table::new(alloc),
            recorded: IndexSet::new(alloc),
        }
    }

    pub(crate) fn own(&self, key: &Key) -> Option<&Prop>
        ensures { option_copied result ≡ own self.now key.now }
    {
        match &self.length {
            Some(length) if key.is_length() => Some(length.property()),
            _ => self.table.get(key),
        }
    }

    pub(crate) fn proto(&self) -> Option<ObjId>
        ensures { result ≡ self.now.proto }
    {
        self.proto
    }

    pub(crate) fn class(&self) -> &Class
        ensures { result.now ≡ self.now.class }
    {
        &self.class
    }

    pub(crate) fn set_class(&mut self, class: Class)
        requires { is_array class ≡ is_array self.old.class }
        ensures { self.new ≡ record self.old { class = class } }
    {
        self.class = class;
    }

    pub(crate) fn is_extensible(&self) -> bool
        ensures { result ≡ self.now.extensible }
    {
        self.extensible
    }

    pub(crate) fn prevent_extensions(&mut self)
        ensures { self.new ≡ record self.old { extensible = false } }
    {
        self.extensible = false;
    }

    pub(crate) fn record_key(&mut self, key: Key) -> Result<(), AllocError>
        ensures ok { OnOk result (self.new ≡ recorded_after self.old key) }
        ensures err { OnErr result (self.new ≡ self.old) }
    {
        self.recorded.insert(key)?;
        Ok(())
    }

    pub(crate) fn recorded(&self) -> &[Key]
        ensures { result.now ≡ self.now.recorded }
    {
        self.recorded.as_slice()
    }

    pub(crate) fn is_recorded(&self, key: &Key) -> bool
        ensures { result ≡ list_any (same_key key.now) self.now.recorded }
    {
        self.recorded.contains(key)
    }

    pub(crate) fn delete_own(&mut self, key: &Key) -> Result<bool, HeapFault>
        ensures object { self.new ≡ after_delete self.old key.now }
        ensures answer { result ≡ deleted self.old key.now }
        ensures proto { self.new.proto ≡ self.old.proto }
        ensures recorded { self.new.recorded ≡ self.old.recorded }
    {
        match self.own(key) {
            None => return Ok(false),
            Some(property) if !property.is_configurable() => return Err(HeapFault::NotConfigurable),
            Some(_) => {}
        }
        self.table.remove(key);
        Ok(true)
    }

    /// The number of an array's length, and whether it is writable.
    fn array_length(&self) -> (u32, bool)
        requires { is_array self.now.class ≡ true }
        ensures length { result.0 ≡ length_of self.now }
        ensures writable { result.1 ≡ length_writable self.now }
    {
        match &self.length {
            Some(length) => (length.get(), length.is_writable()),
            None => (0, false),
        }
    }

    fn put_length(&mut self, length: u32, writable: bool)
        requires { is_array self.old.class ≡ true }
        ensures { self.new ≡ with_own self.old length_key (length_property length writable) }
    {
        self.length = Some(Length::new(length, writable));
    }

    /// [[DefineOwnProperty]] (9.1.6 and 9.4.2.1).
    pub(crate) fn define_own(&mut self, key: Key, next: Prop) -> Result<(), HeapFault>
        ensures outcome { Comes self.old self.new result (define_own self.old key next) }
        ensures proto { self.new.proto ≡ self.old.proto }
        ensures recorded { self.new.recorded ≡ self.old.recorded }
    {
        if !self.class.is_array() {
            return self.ordinary_define(key, next);
        }
        if key.is_length() {
            return self.define_length(&next);
        }
        match array_index(&key) {
            None => self.ordinary_define(key, next),
            Some(index) => self.define_element(key, index, next),
        }
    }

    /// OrdinaryDefineOwnProperty (9.1.6.1), but for an array's `length`.
    fn ordinary_define(&mut self, key: Key, next: Prop) -> Result<(), HeapFault>
        requires { is_array self.old.class && same_key key length_key ≡ false }
        ensures outcome { Comes self.old self.new result (ordinary_define self.old key next) }
        ensures class { self.new.class ≡ self.old.class }
        ensures proto { self.new.proto ≡ self.old.proto }
        ensures recorded { self.new.recorded ≡ self.old.recorded }
    {
        match self.table.get(&key) {
            None if !self.extensible => return Err(HeapFault::NotExtensible),
            None => {}
            Some(now) => {
                if let Some(fault) = refusal(now, &next) {
                    return Err(fault);
                }
            }
        }
        self.table.insert(key, next)?;
        Ok(())
    }

    fn define_element(&mut self, key: Key, index: u32, next: Prop) -> Result<(), HeapFault>
        requires array { is_array self.old.class ≡ true }
        requires element { same_key key length_key ≡ false }
        requires small { index < 4294967295 }
        ensures outcome { Comes self.old self.new result (define_element self.old key index next) }
        ensures proto { self.new.proto ≡ self.old.proto }
        ensures recorded { self.new.recorded ≡ self.old.recorded }
    {
        if !self.extensible && self.own(&key).is_none() {
            return Err(HeapFault::NotExtensible);
        }
        let (length, writable) = self.array_length();
        if index >= length && !writable {
            return Err(HeapFault::NotWritable);
        }
        self.ordinary_define(key, next)?;
        if index >= length {
            self.put_length(index + 1, writable);
        }
        Ok(())
    }

    /// ArraySetLength (9.4.2.4).
    fn define_length(&mut self, next: &Prop) -> Result<(), HeapFault>
        requires { is_array self.old.class ≡ true }
        ensures outcome { Comes self.old self.new result (define_length self.old next.now) }
        ensures memory { fault_of result ≢ Some HeapFault.OutOfMemory }
        ensures proto { self.new.proto ≡ self.old.proto }
        ensures recorded { self.new.recorded ≡ self.old.recorded }
    {
        match next {
            Prop::Plain {
                value: Value::Number(number),
                writable,
                ..
            } => self.define_length_number(*number, next, *writable),
            Prop::Plain { .. } => Err(HeapFault::BadLength),
            Prop::Accessor { .. } => Err(HeapFault::NotConfigurable),
        }
    }

    fn define_length_number(
        &mut self,
        number: i64,
        next: &Prop,
        writable: bool,
    ) -> Result<(), HeapFault>
        requires { is_array self.old.class ≡ true }
        ensures outcome { Comes self.old self.new result (define_length_number self.old number next.now writable) }
        ensures memory { fault_of result ≢ Some HeapFault.OutOfMemory }
        ensures proto { self.new.proto ≡ self.old.proto }
        ensures recorded { self.new.recorded ≡ self.old.recorded }
    {
        let Ok(asked) = u32::try_from(number) else {
            return Err(HeapFault::BadLength);
        };
        let (length, is_writable) = self.array_length();
        if !is_writable && asked != length {
            return Err(HeapFault::NotWritable);
        }
        if let Some(fault) = refusal(Length::new(length, is_writable).property(), next) {
            return Err(fault);
        }
        self.cut_to(asked, writable)
    }

    /// Cuts an array's elements and sets its length.
    fn cut_to(&mut self, asked: u32, writable: bool) -> Result<(), HeapFault>
        requires { is_array self.old.class ≡ true }
        ensures outcome { Comes self.old self.new result (cut_to self.old (cut_end asked self.old.properties) asked writable) }
        ensures memory { fault_of result ≢ Some HeapFault.OutOfMemory }
        ensures proto { self.new.proto ≡ self.old.proto }
        ensures recorded { self.new.recorded ≡ self.old.recorded }
    {
        let end = self.table.cut(asked);
        self.put_length(end, writable);
        if end == asked {
            Ok(())
        } else {
            Err(HeapFault::NotConfigurable)
        }
    }

    /// A change of an array's length that keeps the attribute; an object that is no array refuses it.
    pub(crate) fn set_length(&mut self, length: i64) -> Result<(), HeapFault>
        ensures outcome { Settles self.new result (set_length self.old length) }
        ensures proto { self.new.proto ≡ self.old.proto }
        ensures recorded { self.new.recorded ≡ self.old.recorded }
    {
        if !self.class.is_array() {
            return Err(HeapFault::NotConfigurable);
        }
        let (_, writable) = self.array_length();
        let next = Prop::Plain {
            value: Value::Number(length),
            writable,
            configurable: false,
        };
        self.define_length(&next)
    }
}

/// Why a property can't become another one, if it can't (9.1.6.3).
fn refusal(now: &Prop, next: &Prop) -> Option<HeapFault>
    ensures { result ≡ refusal now.now next.now }
{
    if now.is_configurable() {
        return None;
    }
    match (now, next) {
        (
            Prop::Plain {
                value,
                writable,
                ..
            },
            Prop::Plain {
                value: new_value,
                writable: new_writable,
                configurable,
            },
        ) => {
            if *configurable {
                Some(HeapFault::NotConfigurable)
            } else if *writable || !*new_writable && same(value, new_value) {
                None
            } else {
                Some(HeapFault::NotWritable)
            }
        }
        (
            Prop::Accessor { get, set, .. },
            Prop::Accessor {
                get: new_get,
                set: new_set,
                configurable,
            },
        ) => {
            if !*configurable && same_function(*get, *new_get) && same_function(*set, *new_set) {
                None
            } else {
                Some(HeapFault::NotConfigurable)
            }
        }
        _ => Some(HeapFault::NotConfigurable),
    }
}

fn same_function(a: Option<ObjId>, b: Option<ObjId>) -> bool
    ensures { result ≡ same_function a b }
{
    match (a, b) {
        (None, None) => true,
        (Some(a), Some(b)) => a.0 == b.0,
        _ => false,
    }
}
