//! Completions and references, and calls that are due.

use crate::texts::BorrowedName;
use es_calls::Resumption;
use es_heap::Key;
use es_value::Value;
use sqlite_items::Items;

/// A reference (ECMA-262, 6th edition, 6.2.3).
#[derive(Drop)]
pub enum Reference<'a> {
    OfName(BorrowedName<'a>),
    OfProperty(Value, Key),
    /// `super.k`, with the value of `this`
    OfSuper(Value, Key),
}

/// How a step ends (6.2.2).
#[derive(Drop)]
pub enum Completion<'a> {
    Gives(Value),
    Refers(Reference<'a>),
    /// a normal completion without a value
    Done,
    Throws(Value),
    Returns(Value),
    Breaks(Option<BorrowedName<'a>>),
    Continues(Option<BorrowedName<'a>>),
    /// what a generator is resumed with (25.3.3.3, 25.3.3.4)
    Resumes(Resumption, Value),
}

/// A call that is due: `target` is the function that constructs, if it is a construction.
#[derive(Drop)]
pub struct Call {
    pub function: Value,
    pub receiver: Value,
    pub args: Items<Value>,
    pub target: Option<Value>,
}
