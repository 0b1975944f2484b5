//! The pending work of object literals and of classes, by what makes it.

ghost use Rattle.std.specs.Prelude.{◌≡◌};

use core_state::Environment;
use es_heap::Key;
use es_value::{ObjId, Value};
use es6_ast::{Class, Property};
use source_moves::PendingWork;
use source_state::{Node, Nodes};

/// What is pending in an object literal (ECMA-262, 6th edition, 12.2.6).
pub trait ObjectWork<'a>: PendingWork<'a> {
    ghost use Rattle.source_state.specs.declared.work.Work.TheVariants as work;

    /// The value of a property, before the properties that follow.
    fn property_value(object: ObjId, key: Key, rest: Nodes<'a, Property>) -> Self
        ensures { Self.seen result ≡ work.PropertyValue object key rest.entry };
}

/// What is pending where a class is defined (14.5.14).
pub trait ClassWork<'a>: PendingWork<'a> {
    ghost use Rattle.source_state.specs.declared.work.Work.TheVariants as work;

    /// The heritage.
    fn heritage(class: Node<'a, Class>) -> Self
        ensures { Self.seen result ≡ work.Heritage class.entry };

    /// The prototype of this heritage.
    fn heritage_prototype(class: Node<'a, Class>, heritage: Value) -> Self
        ensures { Self.seen result ≡ work.HeritagePrototype class.entry heritage };

    /// The scope around the class comes back.
    fn restore(environment: Environment) -> Self
        ensures { Self.seen result ≡ work.Restore environment };
}
