//! The table of an object's properties.
ghost use Rattle.std.specs.Prelude.{◌≡◌, ◌≤◌, ◌+◌, ◌-◌, ◌⊎◌, Some, [], OnOk, OnErr, IfSome, true, length, slice_get};
ghost use Rattle.std.specs.Option.{option_copied};
ghost use Rattle.std.specs.Map.{lookup};
ghost use Rattle.indexmap.specs.IndexMap.{insert_entry, swap_remove_entry};
ghost use Rattle.es_heap.specs.Keys.{same_key, array_index};
ghost use Rattle.es_heap.specs.Tables.{IsBelow, IsFirstToGo, CutsAs, cut_end, cut_at, end_past, stays_of};

use crate::index::array_index;
use crate::key::Key;
use crate::prop::Prop;
use indexmap::IndexMap;
use std::alloc::{AllocError, Global};
use std::marker::Model;

/// Properties by their keys, in an order that nothing sees.
#[derive(Drop)]
pub(crate) struct Table {
    map: IndexMap<Key, Prop>,
    /// No array index in the table is as large: so a cut to this length finds nothing.
    top: u32,
}

impl Model for Table {
    ghost use Rattle.std.specs.Prelude.{List};
    ghost use Rattle.es_heap.specs.declared.key.Key.{Key};
    ghost use Rattle.es_heap.specs.declared.prop.Prop.{Prop};
    ghost use Rattle.es_heap.specs.Tables.{IndicesBelow};

    ghost Value = { List (Key × Prop) };

    ghost view = { λ t. t.map.entries };

    ghost invariant = { λ t. IndicesBelow t.top t.map.entries };
}

impl Table {
    pub(crate) fn new(alloc: Global) -> Table
        ensures { result ≡ [] }
    {
        Table {
            map: IndexMap::new(alloc),
            top: 0,
        }
    }

    pub(crate) fn get(&self, key: &Key) -> Option<&Prop>
        ensures { option_copied result ≡ lookup (same_key key.now) self.now }
    {
        self.map.get(key)
    }

    /// A key that is there keeps its place, and a new one goes last.
    pub(crate) fn insert(&mut self, key: Key, property: Prop) -> Result<(), AllocError>
        ensures ok { OnOk result (self.new ≡ insert_entry same_key self.old key property) }
        ensures err { OnErr result (self.new ≡ self.old) }
    {
        let top = raised(self.top, &key);
        self.map.insert(key, property)?;
        self.top = top;
        Ok(())
    }

    /// The last property takes the place of the one that goes.
    pub(crate) fn remove(&mut self, key: &Key)
        ensures { self.new ≡ swap_remove_entry (same_key key.now) self.old }
    {
        let _ = self.map.swap_remove(key);
        self.top = lowered(self.top, key);
    }

    /// Cuts the elements from `length` on, up to one that isn't configurable. Answers the length that is left. Elements that came
    /// in the order of their indices take constant time each, and else each property is looked at.
    pub(crate) fn cut(&mut self, length: u32) -> u32
        ensures end { result ≡ cut_end length self.old }
        ensures table { self.new ≡ cut_at result self.old }
    {
        self.cut_from_last(length);
        self.cut_rest(length)
    }

    /// Takes the last properties away, as long as they are those that a cut takes away first.
    fn cut_from_last(&mut self, length: u32)
        ensures { CutsAs length self.old self.new }
    {
        for _ in 0..self.map.len() {
            if !self.cut_last(length) {
                break;
            }
        }
    }

    /// Takes the last property away, if a cut takes it away first.
    fn cut_last(&mut self, length: u32) -> bool
        ensures { CutsAs length self.old self.new }
    {
        match bound_without_last(&self.map, self.top, length) {
            None => false,
            Some(left) => {
                let _ = self.map.pop();
                self.top = left;
                true
            }
        }
    }

    /// A cut that looks at each property, if an index can be large enough.
    fn cut_rest(&mut self, length: u32) -> u32
        ensures end { result ≡ cut_end length self.old }
        ensures table { self.new ≡ cut_at result self.old }
    {
        if length >= self.top {
            return length;
        }
        let end = end_of_cut(&self.map, length);
        self.map.retain(
            |key: &Key, property: &mut Prop| -> bool
                ensures { (result ≡ stays_of end (array_index key.now)) × (property.new ≡ property.old) }
            { stays(key, end) },
        );
        self.top = end;
        end
    }
}

/// A bound above the key's index too.
fn raised(top: u32, key: &Key) -> u32
    ensures grows { top ≤ result }
    ensures above { IsBelow result (array_index key.now) }
{
    match array_index(key) {
        Some(index) => top.max(index + 1),
        None => top,
    }
}

/// The bound once the key is gone: one less, if the key had the largest index.
fn lowered(top: u32, key: &Key) -> u32
    ensures { (result ≡ top) ⊎ ((array_index key.now ≡ Some result) × (result + 1 ≡ top)) }
{
    match array_index(key) {
        Some(index) if index + 1 == top => index,
        _ => top,
    }
}

/// The bound once the last property is gone, if a cut to `asked` takes it away first: its index is the largest, and it may go.
fn bound_without_last(map: &IndexMap<Key, Prop>, top: u32, asked: u32) -> Option<u32>
    ensures { IfSome result (λ left. IsFirstToGo asked top left (slice_get map.now.entries (length map.now.entries - 1))) }
{
    let (key, property) = map.last()?;
    match array_index(key) {
        Some(index) if index >= asked && index + 1 == top && property.is_configurable() => {
            Some(index)
        }
        _ => None,
    }
}

/// The length that a cut to `length` leaves.
fn end_of_cut(map: &IndexMap<Key, Prop>, length: u32) -> u32
    ensures { result ≡ cut_end length map.now.entries }
{
    let mut end = length;
    for (key, property) in map.iter() {
        end = end_past(end, key, property);
    }
    end
}

/// The end of a cut once an entry was looked at.
fn end_past(end: u32, key: &Key, property: &Prop) -> u32
    ensures { result ≡ end_past end (array_index key.now) property.now }
{
    match array_index(key) {
        Some(index) if !property.is_configurable() => end.max(index + 1),
        _ => end,
    }
}

fn stays(key: &Key, end: u32) -> bool
    ensures { result ≡ stays_of end (array_index key.now) }
{
    match array_index(key) {
        Some(index) => index < end,
        None => true,
    }
}
