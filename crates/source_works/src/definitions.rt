//! What is pending in object literals and classes.

use crate::holds::Holds;
use crate::pending::{Pending, of_class, of_literal, of_scope};
use core_state::Environment;
use es_heap::Key;
use es_value::{ObjId, Value};
use es6_ast::{Class, Property};
use source_objects::{ClassWork, ObjectWork};
use source_state::{Node, Nodes};
use source_takers::{ClassTaker, LiteralTaker, ScopeTaker};

#[tactic(auto, unfolding(source_takers::specs::Takers::literal_work))]
impl<'a, H: Holds<'a>> ObjectWork<'a> for Pending<H> {
    fn property_value(object: ObjId, key: Key, rest: Nodes<'a, Property>) -> Pending<H> {
        of_literal(LiteralTaker::PropertyValue(object, key, rest))
    }
}

#[tactic(auto, unfolding(source_takers::specs::Takers::class_work, source_takers::specs::Takers::scope_work))]
impl<'a, H: Holds<'a>> ClassWork<'a> for Pending<H> {
    fn heritage(class: Node<'a, Class>) -> Pending<H> {
        of_class(ClassTaker::Heritage(class))
    }

    fn heritage_prototype(class: Node<'a, Class>, heritage: Value) -> Pending<H> {
        of_class(ClassTaker::HeritagePrototype(class, heritage))
    }

    fn restore(environment: Environment) -> Pending<H> {
        of_scope(ScopeTaker::Restore(environment))
    }
}
