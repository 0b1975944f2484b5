//! The internal operations by their names, and what who runs a call has to know.
ghost use Rattle.std.specs.Prelude.{◌≡◌};
ghost use Rattle.es_operations.specs.Steps.{asks_presence, drops_throw, operation};
ghost use Rattle.es_operation_steps.specs.Operations.{number_of};

use es_calls::{BuiltinCall, Place};
use es_value::Value;
use sqlite_items::Items;
use std::alloc::Global;

/// An internal operation of the standard. Its receiver and its operands are named beside it.
#[derive(Clone, Copy, Debug, PartialEq, Eq)]
pub enum Operation {
    /// GetValue of a property (6.2.3.1): the base, and the key.
    Get = 100,
    /// PutValue of a property (6.2.3.2): the base, and the key and the value.
    Put = 101,
    /// `delete` (12.5.4.2): the base, and the key.
    Delete = 102,
    /// ToPropertyKey, once the base was checked (12.3.2.1): the base, and the value.
    ToKey = 103,
    /// `in` (12.9.3): the left side, and the right side.
    HasProperty = 104,
    /// GetValue of a property of `super` (12.3.5.3): the receiver, and the home object and the key.
    SuperGet = 105,
    /// GetPrototypeFromConstructor (9.1.15): the constructor, and the default.
    PrototypeOf = 106,
    /// The prototype that a class takes from its heritage (14.5.14, 6): the heritage.
    HeritagePrototype = 107,
    /// ToString (7.1.12).
    ToText = 110,
    /// ToNumber (7.1.3), which is `+` (12.5.9).
    ToNumber = 111,
    Negate = 112,
    Invert = 113,
    // The operators on two values: the left one, and the right one.
    Add = 120,
    Subtract = 121,
    Multiply = 122,
    Divide = 123,
    Remainder = 124,
    Power = 125,
    And = 126,
    Or = 127,
    ExclusiveOr = 128,
    ShiftLeft = 129,
    ShiftRight = 130,
    ShiftRightUnsigned = 131,
    Less = 132,
    Greater = 133,
    AtMost = 134,
    AtLeast = 135,
    Equal = 136,
    NotEqual = 137,
    InstanceOf = 138,
    /// The read of the iterator key: the value.
    IteratorMethod = 140,
    /// GetIterator (7.4.1): the value.
    GetIterator = 141,
    /// IteratorStep (7.4.5): the iterator. It gives the result object, or false at the end.
    IteratorStep = 142,
    /// IteratorValue (7.4.4): the result object.
    IteratorValue = 143,
    /// IteratorClose (7.4.6): the iterator.
    IteratorClose = 144,
    /// The same under a throw.
    IteratorCloseThrown = 145,
    // A turn of `yield*` (14.4.14, 5): the iterator, and what the generator was resumed with.
    DelegateNext = 146,
    DelegateThrow = 147,
    DelegateReturn = 148,
}

impl Operation {
    /// The number that a call of the operation has.
    pub fn number(self) -> u16
        ensures { result ≡ number_of self }
    {
        self as u16
    }

    /// Begins a call of the operation.
    pub fn begin(self, alloc: Global, base: Value, operands: Items<Value>) -> BuiltinCall
        ensures { result ≡ operation (number_of self) base operands }
    {
        BuiltinCall::begin(alloc, self.number(), base, operands)
    }
}

/// Whether a throw of the function that the call waits for is dropped, and undefined is handed in for it: where an iterator is closed
/// under a throw (7.4.6, 6).
#[tactic(auto, unfolding(es_operations::specs::Steps::drops_throw))]
pub fn drops_throw(call: &BuiltinCall) -> bool
    ensures { result ≡ drops_throw call.now }
{
    call.builtin == Operation::IteratorCloseThrown.number() && call.place == Place::Called
}

/// Whether a namespace object that the call reads is only asked whether it has the name, and a truth value is handed in.
#[tactic(auto, unfolding(es_operations::specs::Steps::asks_presence))]
pub fn asks_presence(call: &BuiltinCall) -> bool
    ensures { result ≡ asks_presence call.now }
{
    call.builtin == Operation::Delete.number() || call.builtin == Operation::HasProperty.number()
}
