//! Values, references, completions and bindings.

use crate::environment::Environment;
use core_ast::{FunctionId, Label, Var};
use es_heap::Key;
use es_outside::Site;
use es_value::Value;
use sqlite_items::Items;

/// A value of the program, or one that it doesn't see.
#[derive(Drop)]
pub enum CoreValue<M> {
    User(Value),
    Extra(M),
}

/// A name of an environment record (ECMA-262, 6th edition, 8.1.1; 5.1 edition, 10.2.1).
#[derive(Drop)]
pub struct Binding<M> {
    pub var: Var,
    pub value: CoreValue<M>,
    pub mutable: bool,
}

/// What a function object keeps beside the heap (9.2; 5.1 edition, 13.2): the function, its environment, and what is kept besides.
#[derive(Drop)]
pub struct Closure<O> {
    pub function: FunctionId,
    pub environment: Environment,
    pub own: O,
}

/// What an expression is at.
#[derive(Drop)]
pub enum Current<M> {
    Has(CoreValue<M>),
    /// a reference to a property (6.2.3; 5.1 edition, 8.7)
    Reference(Value, Key),
    /// the same with the value that was read there
    Old(Value, Key, Value),
    /// a function with its receiver
    Method(Value, Value),
    /// a host
    Hosted(usize),
}

/// How a step ends (6.2.2).
#[derive(Drop)]
pub enum Completion<M> {
    Gives(CoreValue<M>),
    /// a normal completion without a value
    Done,
    Throws(Value),
    Returns(CoreValue<M>),
    /// a break, or where it is true a continue
    Jumps(bool, Option<Label>),
}

/// A call that is due: `target` is the function that constructs, if it is a construction.
#[derive(Drop)]
pub struct Call {
    pub function: Value,
    pub receiver: Value,
    pub args: Items<Value>,
    pub target: Option<Value>,
    pub site: Option<Site>,
}
