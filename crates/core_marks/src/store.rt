//! What is stored beside the heap.

use crate::marks::{Mark, Own};
use crate::work::CoreWork;
use core_state::{Context, Table};
use es_heap::Key;
use es_value::{ObjId, Str, Value};
use sqlite_items::{Boxed, Items};

/// A generator (ECMA-262, 6th edition, 25.3.2): a context is saved at its start or at a yield.
#[derive(Drop)]
pub enum Generator<'a> {
    AtStart(Context<'a, Mark, Own, Boxed<CoreWork<'a>>>),
    AtYield(Context<'a, Mark, Own, Boxed<CoreWork<'a>>>),
    Executing,
    Completed,
}

/// A name of a namespace object, and the function that reads its binding.
#[derive(Drop)]
pub struct Exported {
    pub name: Str,
    pub getter: Value,
}

/// A template object, by its raw texts (12.2.9.3).
#[derive(Drop)]
pub struct Template {
    pub raw: Items<Value>,
    pub object: Value,
}

/// A static member that the definition of a class made.
#[derive(Drop)]
pub struct Static {
    pub class: ObjId,
    pub key: Key,
}

/// What is stored. `this` and cells that are None are uninitialized.
#[derive(Drop)]
pub struct CoreStore<'a> {
    pub this_values: Items<Option<Value>>,
    pub cells: Items<Option<Value>>,
    pub generators: Table<Generator<'a>>,
    pub namespaces: Items<Items<Exported>>,
    pub templates: Items<Template>,
    pub statics: Items<Static>,
}
