//! Methods and accessors (ECMA-262, 6th edition, 14.3.9).

ghost use Rattle.std.specs.Prelude.{◌≡◌, true};
ghost use Rattle.source_meaning.specs.Objects.{define_method, method_property};
ghost use Rattle.source_moves.specs.Seen.{state_of};
ghost use Rattle.source_objects.specs.Definitions.{Defines};

use crate::definitions::{Defined, define};
use es_heap::{Key, Prop};
use es_operation_steps::with_half;
use es_value::{ObjId, Value};
use es6_ast::{Method, MethodKind};
use source_functions::closed;
use source_moves::PendingWork;
use source_state::{Code, Node, State};
use std::alloc::Global;

/// A property that can be written and configured.
pub(crate) fn plain(value: Value) -> Prop
    ensures { result ≡ Prop.Plain value true true }
{
    Prop::Plain {
        value,
        writable: true,
        configurable: true,
    }
}

/// The property that a method becomes: the other half of an accessor is kept.
fn method_property<'a, W: PendingWork<'a>>(
    kind: MethodKind,
    object: ObjId,
    key: &Key,
    value: Value,
    st: &State<'a, W>,
) -> Prop
    ensures { result ≡ method_property kind object key.now value (state_of W.seen st.now) }
{
    match (kind, value) {
        (MethodKind::GetterMethod, Value::Object(function)) => {
            with_half(&st.heap, object, key, function, false)
        }
        (MethodKind::SetterMethod, Value::Object(function)) => {
            with_half(&st.heap, object, key, function, true)
        }
        (_, value) => plain(value),
    }
}

/// Defines a method or an accessor, whose home object is this one.
#[tactic(auto, using(crate::proofs::Going::method_by))]
pub fn define_method<'a, W: PendingWork<'a>>(
    alloc: Global,
    method: &'a Method,
    object: ObjId,
    key: Key,
    st: &mut State<'a, W>,
) -> Defined<'a>
    ensures { Defines W.seen result st.new (define_method method.now object key (state_of W.seen st.old)) }
{
    let code = Code::MethodCode(Node::of(method.function.get()));
    let function = closed(alloc, code, Value::Object(object), st)?;
    let property = method_property(method.kind, object, &key, function, st);
    define(alloc, object, key, property, st)
}
