//! Environment records (ECMA-262, 6th edition, 8.1).

use crate::texts::BorrowedName;
use es_value::Value;
use sqlite_items::Items;

/// What a name is bound to (8.1.1).
#[derive(Drop)]
pub enum Held<'a> {
    Uninitialized,
    Holds(Value),
    /// a name of the module with this number (8.1.1.5.5)
    Imported(u32, BorrowedName<'a>),
    /// the function of the host with this number
    OfHost(usize),
}

/// A name of a record.
#[derive(Drop)]
pub struct Binding<'a> {
    pub name: BorrowedName<'a>,
    pub mutable: bool,
    pub held: Held<'a>,
}

/// A record. That of a module, or the first one of a call of a function that is no arrow, has a `this` (8.1.1.3); that of a derived
/// constructor is uninitialized before `super(..)`.
#[derive(Drop)]
pub struct EnvironmentRecord<'a> {
    pub bindings: Items<Binding<'a>>,
    pub this: Option<Value>,
}
