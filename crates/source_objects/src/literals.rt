//! Object literals, property by property (ECMA-262, 6th edition, 12.2.6.9): the name, and then the value.

ghost use Rattle.std.specs.Prelude.{◌≡◌};
ghost use Rattle.es_heap.specs.declared.key.Key.TheVariants.{Text};
ghost use Rattle.es6_ast.specs.declared.tree.Property.{out-Property};
ghost use Rattle.source_meaning.specs.Objects.{method_named, properties_on, property_valued, value_named};
ghost use Rattle.source_meaning.specs.References.{reads, with_key};
ghost use Rattle.source_meaning.specs.Trees.{name_units};
ghost use Rattle.source_moves.specs.Moves.{Steps};
ghost use Rattle.source_moves.specs.Seen.{state_of};
ghost use Rattle.source_objects.specs.Definitions.{Defines, method_first, property_first};
ghost use Rattle.source_state.specs.declared.completion.Reference.TheVariants.{OfName};
ghost use Rattle.source_state.specs.declared.partial.Naming.TheVariants.{OfValue};
ghost use Rattle.source_state.specs.declared.work.Work.TheVariants.{PropertyValue};

use crate::definitions::{Defined, define};
use crate::methods::{define_method, plain};
use crate::pending::ObjectWork;
use es_heap::Key;
use es_value::{ObjId, Value};
use es6_ast::{Expression, Key as WrittenKey, Method, Property};
use shared_text::Name;
use source_keys::{FoundKey, found_key, name_units};
use source_moves::{Move, Moved, begin, impossible, read};
use source_state::{BorrowedName, Naming, Node, Nodes, Reference, State};
use std::alloc::Global;

/// The name of a property is there: its value is evaluated.
pub fn value_named<'a, W: ObjectWork<'a>>(
    object: ObjId,
    x: Node<'a, Expression>,
    rest: Nodes<'a, Property>,
    key: Key,
    st: &mut State<'a, W>,
) -> Moved<'a>
    ensures { Steps W.seen result st.new (value_named object x.entry rest.entry key (state_of W.seen st.old)) }
{
    begin(W::property_value(object, key, rest), x, st)
}

/// `k: x`
#[tactic(auto, using(source_keys::proofs::FoundKeys::with_known, source_keys::proofs::FoundKeys::with_computed))]
fn keyed_value<'a, W: ObjectWork<'a>>(
    alloc: Global,
    object: ObjId,
    key: &'a WrittenKey,
    x: &'a Expression,
    rest: Nodes<'a, Property>,
    st: &mut State<'a, W>,
) -> Moved<'a>
    ensures { Steps W.seen result st.new (with_key key.now (OfValue object x.now rest.entry) (state_of W.seen st.old) (value_named object x.now rest.entry)) }
{
    match found_key(alloc, key, st)? {
        FoundKey::Known(key) => value_named(object, Node::of(x), rest, key, st),
        FoundKey::Computed(name) => {
            let naming = Naming::OfValue(object, Node::of(x), rest);
            begin(W::key_value(naming), name, st)
        }
    }
}

/// A name that stands for its value.
fn shorthand<'a, W: ObjectWork<'a>>(
    alloc: Global,
    object: ObjId,
    name: &'a Name,
    rest: Nodes<'a, Property>,
    st: &mut State<'a, W>,
) -> Moved<'a>
    ensures { Steps W.seen result st.new (reads (PropertyValue object (Text (name_units name.now)) rest.entry) (OfName name.now) (state_of W.seen st.old)) }
{
    let key = Key::Text(name_units(alloc, name.bytes())?);
    let work = W::property_value(object, key, rest);
    read(
        alloc,
        work,
        Reference::OfName(BorrowedName::of(name.bytes())),
        st,
    )
}

/// A method or an accessor.
#[tactic(auto, using(crate::proofs::Going::method_known, crate::proofs::Going::method_computed))]
fn keyed_method<'a, W: ObjectWork<'a>>(
    alloc: Global,
    object: ObjId,
    method: &'a Method,
    rest: Nodes<'a, Property>,
    st: &mut State<'a, W>,
) -> Defined<'a>
    ensures { Defines W.seen result st.new (method_first object method.now rest.entry (state_of W.seen st.old)) }
{
    match found_key(alloc, &method.key, st)? {
        FoundKey::Known(key) => define_method(alloc, method, object, key, st),
        FoundKey::Computed(name) => {
            let naming = Naming::OfMethod(object, Node::of(method), rest);
            Ok(Some(begin(W::key_value(naming), name, st)?))
        }
    }
}

/// One property, before those that follow.
#[tactic(auto, unfolding(crate::specs::Definitions::property_first, crate::specs::Definitions::method_first))]
fn one_property<'a, W: ObjectWork<'a>>(
    alloc: Global,
    object: ObjId,
    property: &'a Property,
    rest: Nodes<'a, Property>,
    st: &mut State<'a, W>,
) -> Defined<'a>
    ensures { Defines W.seen result st.new (property_first object (out-Property property.now) rest.entry (state_of W.seen st.old)) }
{
    match property {
        Property::Plain { key, value, .. } => {
            Ok(Some(keyed_value(alloc, object, key, value, rest, st)?))
        }
        Property::Shorthand { name, .. } => { Ok(Some(shorthand(alloc, object, name, rest, st)?)) }
        Property::Defined(method) => keyed_method(alloc, object, method, rest, st),
        Property::Initialized { .. } => Ok(Some(impossible(st)?)),
    }
}

/// The properties that are left of an object literal.
#[tactic(auto, using(crate::proofs::Going::property_done, crate::proofs::Going::property_ends))]
pub fn properties_on<'a, W: ObjectWork<'a>>(
    alloc: Global,
    object: ObjId,
    properties: Nodes<'a, Property>,
    st: &mut State<'a, W>,
) -> Moved<'a>
    ensures { Steps W.seen result st.new (properties_on object properties.entry (state_of W.seen st.old)) }
{
    let mut left = properties;
    while let Some((property, rest)) = left.first() {
        if let Some(ended) = one_property(alloc, object, property, rest.share(), st)? {
            return Ok(ended);
        }
        left = rest;
    }
    Ok(Move::give(Value::Object(object)))
}

/// The name of a method is there: it is defined, before the properties that follow.
#[tactic(auto, using(crate::proofs::Going::method_done, crate::proofs::Going::method_ends))]
pub fn method_named<'a, W: ObjectWork<'a>>(
    alloc: Global,
    object: ObjId,
    method: &'a Method,
    rest: Nodes<'a, Property>,
    key: Key,
    st: &mut State<'a, W>,
) -> Moved<'a>
    ensures { Steps W.seen result st.new (method_named object method.now rest.entry key (state_of W.seen st.old)) }
{
    match define_method(alloc, method, object, key, st)? {
        None => properties_on(alloc, object, rest, st),
        Some(ended) => Ok(ended),
    }
}

/// The value of a property is there: it is defined, before the properties that follow.
#[tactic(auto, using(crate::proofs::Going::value_done, crate::proofs::Going::value_ends))]
pub fn property_valued<'a, W: ObjectWork<'a>>(
    alloc: Global,
    object: ObjId,
    key: Key,
    rest: Nodes<'a, Property>,
    value: Value,
    st: &mut State<'a, W>,
) -> Moved<'a>
    ensures { Steps W.seen result st.new (property_valued object key rest.entry (state_of W.seen st.old) value) }
{
    match define(alloc, object, key, plain(value), st)? {
        None => properties_on(alloc, object, rest, st),
        Some(ended) => Ok(ended),
    }
}
