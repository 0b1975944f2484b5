//! The heap.
ghost use Rattle.std.specs.Prelude.{◌≡◌, ◌++◌, ◌∷◌, [], length, IsTrue, ◌↔◌, IfOk, OnOk, OnErr, true, false};
ghost use Rattle.std.specs.List.{list_any};
ghost use Rattle.std.specs.Option.{option_copied, option_map};
ghost use Rattle.es_value.specs.Equality.{same_truth};
ghost use Rattle.es_heap.specs.Classes.{is_array};
ghost use Rattle.es_heap.specs.Keys.{same_key};
ghost use Rattle.es_heap.specs.Objects.{Comes, Settles, own, new_object, recorded_after, after_delete, deleted};
ghost use Rattle.es_heap.specs.Heaps.{IsBelow, IsNotedAt, KeepsNotes, ChainsEnd, next_id, made, object_at, with_object, with_class, define_own, set_length, find, records_from, is_recorded_below};

use crate::class::Class;
use crate::key::Key;
use crate::object::Object;
use crate::prop::{HeapFault, Prop};
use es_value::ObjId;
use indexmap::IndexSet;
use std::alloc::{AllocError, Global};
use std::marker::Model;

/// All objects that were made, in that order. An object is never taken away.
///
/// A name that no call of `make` gave stands for an empty object that no call changes.
#[derive(Drop)]
pub struct Heap {
    objects: Vec<Object>,
    /// The class of an object that the heap didn't make, which is lent for it.
    no_class: Class,
    /// Where keys are recorded below an object: the object's place and the key. There may be more than those.
    notes: IndexSet<(usize, Key)>,
}

impl Model for Heap {
    ghost use Rattle.es_heap.specs.Heaps.{Heap as HeapValue, ChainsEnd, AreNoted};

    ghost Value = { HeapValue };

    ghost view = { λ h. h.objects.items };

    ghost use Rattle.std.specs.Prelude.{◌≡◌};
    ghost use Rattle.es_heap.specs.declared.class.Class.{Class};

    ghost invariant = { λ h. ChainsEnd h.objects.items × (h.no_class ≡ Class.Object) × AreNoted h.notes.keys h.objects.items };
}

impl Heap {
    /// A heap without objects.
    pub fn new(alloc: Global) -> Heap
        ensures { result ≡ [] }
    {
        Heap {
            objects: Vec::new(alloc),
            no_class: Class::Object,
            notes: IndexSet::new(alloc),
        }
    }

    /// A new object, which is extensible. An array has its property `length`, 0 and writable; else there are no properties.
    /// A prototype that this heap didn't make counts as none, so that chains end.
    pub fn make(
        &mut self,
        alloc: Global,
        proto: Option<ObjId>,
        class: Class,
    ) -> Result<ObjId, AllocError>
        ensures ok { IfOk result (λ id. (id ≡ next_id self.old) × (self.new ≡ made self.old proto class)) }
        ensures err { OnErr result (self.new ≡ self.old) }
    {
        let id = ObjId(self.objects.len());
        let proto = match proto {
            Some(up) if up.0 < id.0 => Some(up),
            _ => None,
        };
        self.objects.push(Object::new(alloc, proto, class))?;
        Ok(id)
    }

    /// How many objects were made.
    pub fn len(&self) -> usize
        ensures value { result ≡ length self.now }
        ensures chains { ChainsEnd self.now }
    {
        self.objects.len()
    }

    /// Whether no object was made.
    pub fn is_empty(&self) -> bool
        ensures { IsTrue result ↔ (length self.now ≡ 0) }
    {
        self.objects.is_empty()
    }

    /// The prototype.
    pub fn proto(&self, id: ObjId) -> Option<ObjId>
        ensures value { result ≡ (object_at self.now id).proto }
        ensures made { IsBelow id.0 result }
    {
        match self.objects.get(id.0) {
            Some(object) => object.proto(),
            None => None,
        }
    }

    /// The class.
    pub fn class(&self, id: ObjId) -> &Class
        ensures { result.now ≡ (object_at self.now id).class }
    {
        match self.objects.get(id.0) {
            Some(object) => object.class(),
            None => &self.no_class,
        }
    }

    /// Puts another class in the place of the class. An array stays one, and no other object becomes one: what would change that
    /// changes nothing.
    pub fn set_class(&mut self, id: ObjId, class: Class)
        ensures { self.new ≡ with_class self.old id class }
    {
        if are_both_arrays_or_neither(&class, self.class(id)) && id.0 < self.objects.len() {
            let object = &mut self.objects[id.0];
            object.set_class(class);
        }
    }

    /// Whether properties can be added.
    pub fn is_extensible(&self, id: ObjId) -> bool
        ensures { result ≡ (object_at self.now id).extensible }
    {
        match self.objects.get(id.0) {
            Some(object) => object.is_extensible(),
            None => true,
        }
    }

    /// [[PreventExtensions]] (9.1.4).
    pub fn prevent_extensions(&mut self, id: ObjId)
        ensures { self.new ≡ with_object self.old id (record (object_at self.old id) { extensible = false }) }
    {
        if id.0 < self.objects.len() {
            let object = &mut self.objects[id.0];
            object.prevent_extensions();
        }
    }

    /// The own property of a key (9.1.5).
    pub fn get_own(&self, id: ObjId, key: &Key) -> Option<&Prop>
        ensures { option_copied result ≡ own (object_at self.now id) key.now }
    {
        match self.objects.get(id.0) {
            Some(object) => object.own(key),
            None => None,
        }
    }

    /// The nearest property of a key on the object's chain, and the object that has it (9.1.8).
    pub fn find(&self, id: ObjId, key: &Key) -> Option<(ObjId, &Prop)>
        ensures { option_map (λ found. (found.0, found.1.now)) result ≡ find self.now id key.now }
    {
        let mut place = id;
        for _ in 0..self.len() {
            match self.get_own(place, key) {
                Some(property) => return Some((place, property)),
                None => place = self.proto(place)?,
            }
        }
        None
    }

    /// [[DefineOwnProperty]] (9.1.6, of an array 9.4.2.1), where the descriptor has every field. A refusal says why:
    ///
    /// - `BadLength`: the value for an array's `length` is no whole number from 0 to 2^32 - 1;
    /// - `NotExtensible`: the key isn't there, and the object isn't extensible;
    /// - `NotWritable`: an array's unwritable length would change or have to grow, or a plain property that is neither writable
    ///   nor configurable would change its value or become writable;
    /// - `NotConfigurable`: otherwise. Where nothing else refuses, an element that isn't configurable stops the cut of an array,
    ///   whose length is then past that element, writable as asked.
    pub fn define_own(
        &mut self,
        _alloc: Global,
        id: ObjId,
        key: Key,
        property: Prop,
    ) -> Result<(), HeapFault>
        ensures { Comes self.old self.new result (define_own self.old id key property) }
    {
        if id.0 >= self.objects.len() {
            return Ok(());
        }
        let object = &mut self.objects[id.0];
        object.define_own(key, property)
    }

    /// [[Delete]] (9.1.10). Answers whether the key was there, or `NotConfigurable` where it can't go.
    pub fn delete_own(&mut self, id: ObjId, key: &Key) -> Result<bool, HeapFault>
        ensures heap { self.new ≡ with_object self.old id (after_delete (object_at self.old id) key.now) }
        ensures answer { result ≡ deleted (object_at self.old id) key.now }
    {
        if id.0 >= self.objects.len() {
            return Ok(false);
        }
        let object = &mut self.objects[id.0];
        object.delete_own(key)
    }

    /// A change of an array's `length` that keeps whether it is writable (9.4.2.4). `BadLength`, then `NotWritable` where an
    /// unwritable length would change, then `NotConfigurable` as for `define_own`. An object that is no array answers
    /// `NotConfigurable`.
    pub fn set_length(&mut self, id: ObjId, length: i64) -> Result<(), HeapFault>
        ensures { Settles self.new result (set_length self.old id length) }
    {
        if id.0 >= self.objects.len() {
            return Err(HeapFault::NotConfigurable);
        }
        let object = &mut self.objects[id.0];
        object.set_length(length)
    }

    /// Adds a key to the object's list of recorded keys, which no other call reads or changes.
    pub fn record_key(&mut self, _alloc: Global, id: ObjId, key: Key) -> Result<(), AllocError>
        ensures ok { OnOk result (self.new ≡ with_object self.old id (recorded_after (object_at self.old id) key)) }
        ensures err { OnErr result (self.new ≡ self.old) }
    {
        if id.0 >= self.objects.len() {
            return Ok(());
        }
        note(&mut self.notes, self.objects[id.0].proto(), &key)?;
        let object = &mut self.objects[id.0];
        object.record_key(key)
    }

    /// The object's list of recorded keys.
    pub fn recorded(&self, id: ObjId) -> &[Key]
        ensures { result.now ≡ (object_at self.now id).recorded }
    {
        match self.objects.get(id.0) {
            Some(object) => object.recorded(),
            None => &[],
        }
    }

    /// Whether the key is in the object's list of recorded keys.
    pub fn is_recorded(&self, id: ObjId, key: &Key) -> bool
        ensures { result ≡ list_any (same_key key.now) (object_at self.now id).recorded }
    {
        match self.objects.get(id.0) {
            Some(object) => object.is_recorded(key),
            None => false,
        }
    }

    /// Whether an object whose prototype this is has the key in its list of recorded keys. The heap is gone over only where one has.
    pub fn is_recorded_below(&self, id: ObjId, key: &Key) -> bool
        ensures { result ≡ is_recorded_below self.now id key.now }
    {
        if self.is_unnoted(id, key) {
            return false;
        }
        for place in 0..self.len() {
            if self.records_from(ObjId(place), id, key) {
                return true;
            }
        }
        false
    }

    /// Whether no key is noted so, and none is recorded.
    fn is_unnoted(&self, id: ObjId, key: &Key) -> bool
        ensures { result ≡ true → is_recorded_below self.now id key.now ≡ false }
    {
        match key.share() {
            Ok(key) => !self.notes.contains(&(id.0, key)),
            Err(_) => false,
        }
    }

    fn records_from(&self, place: ObjId, id: ObjId, key: &Key) -> bool
        ensures { result ≡ records_from id key.now (object_at self.now place) }
    {
        match self.proto(place) {
            Some(up) if up.0 == id.0 => self.is_recorded(place, key),
            _ => false,
        }
    }
}

/// Whether both classes are an array's, or neither is.
fn are_both_arrays_or_neither(class: &Class, other: &Class) -> bool
    ensures { result ≡ same_truth (is_array class.now) (is_array other.now) }
{
    class.is_array() == other.is_array()
}

/// Notes a key that is recorded below a prototype.
fn note(
    notes: &mut IndexSet<(usize, Key)>,
    proto: Option<ObjId>,
    key: &Key,
) -> Result<(), AllocError>
    ensures ok { OnOk result (IsNotedAt proto key.now notes.new.keys) }
    ensures kept { KeepsNotes notes.old.keys notes.new.keys }
{
    if let Some(up) = proto {
        notes.insert((up.0, key.share()?))?;
    }
    Ok(())
}
