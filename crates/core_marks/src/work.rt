//! What is pending besides.

use core_ast::{FunctionId, Var};
use core_state::{Environment, Links, Stats};
use es_calls::Resumption;
use es_value::{ObjId, Value};
use sqlite_items::Items;

/// A list to which elements are added: an array, or arguments.
#[derive(Drop)]
pub enum CoreList {
    OfArray(ObjId),
    OfArguments(Items<Value>),
}

/// What is pending in a context of modules.
#[derive(Drop)]
pub enum CoreWork<'a> {
    // a spread part of a list: its iterator, a step, and a value (ECMA-262, 6th edition, 12.2.5.2, 12.3.6.1)
    SpreadStart(CoreList, Links<'a>),
    SpreadStep(CoreList, Value, Links<'a>),
    SpreadValue(CoreList, Value, Links<'a>),
    /// a derived constructor is called, whose `this` has this number (9.2.2)
    Derived(usize),
    /// the prototype of a class's heritage is read
    Heritage(FunctionId, Value, Links<'a>),
    // a generator: its parameters are bound, the prototype of its object is read, for the rest of an expression too (14.4.11)
    Instantiates(Stats<'a>),
    Prototype(Stats<'a>),
    PrototypeFor(Links<'a>),
    /// the caller of a generator that runs
    Resumes(usize),
    // where a generator stands: at its start, at a yield
    Starts(Stats<'a>),
    YieldsIn(Links<'a>),
    Delegates(Value, Links<'a>),
    // `yield*`: the iterator, a turn, whether it is done, its value
    DelegateStart(Links<'a>),
    DelegateTurn(Value, Resumption, Value, Links<'a>),
    DelegateDone(Value, Resumption, Value, Links<'a>),
    DelegateValue(Resumption, Links<'a>),
    // a yield statement: its value, and where it stands
    YieldValue(Option<Var>, Var),
    YieldsAt(Option<Var>, Var),
    // the step of a generator: where it waits, and while it runs
    Steps(FunctionId, Environment),
    Stepping(FunctionId, Environment),
}
