//! Expressions that begin (ECMA-262, 6th edition, 12.2 to 12.4).

ghost use Rattle.std.specs.Prelude.{None, ◌≡◌, if◌then◌else◌};
ghost use Rattle.es_heap.specs.Heaps.{next_id};
ghost use Rattle.es_heap.specs.declared.key.Key.TheVariants.{Text};
ghost use Rattle.es_value.specs.declared.value.Value.TheVariants.{Undefined};
ghost use Rattle.es6_ast.specs.declared.tree.Template.{out-Template};
ghost use Rattle.source_begins.specs.Begun.{access_begun, closure_begun, primary_begun};
ghost use Rattle.source_meaning.specs.Environments.{with_this};
ghost use Rattle.source_meaning.specs.Expressions.{template_on};
ghost use Rattle.source_meaning.specs.Functions.{closed, function_expression};
ghost use Rattle.source_meaning.specs.Lists.{list_on};
ghost use Rattle.source_meaning.specs.Nodes.{begin_super, gives_closure, with_array, with_new_object};
ghost use Rattle.source_meaning.specs.Objects.{properties_on};
ghost use Rattle.source_meaning.specs.References.{super_reference};
ghost use Rattle.source_meaning.specs.State.{ArrowCode, OfArray};
ghost use Rattle.source_meaning.specs.Steps.{gives};
ghost use Rattle.source_meaning.specs.Trees.{literal_value, name_units};
ghost use Rattle.source_moves.specs.Moves.{Steps};
ghost use Rattle.source_moves.specs.Seen.{state_of};
ghost use Rattle.source_state.specs.Parts.{elements_parts};

use crate::pending::BeginWork;
use es_calls::ErrorKind;
use es_heap::{Class, Key};
use es_realm::names::{ARRAY_PROTOTYPE, OBJECT_PROTOTYPE};
use es_value::{Str, Value};
use es6_ast::{Arrow, Element, Expression, Function, Identifier, Literal, Property, Template};
use source_expressions::template_on;
use source_functions::{closed, function_expression};
use source_keys::name_units;
use source_lists::list_on;
use source_moves::{
    Move, Moved, PendingWork, begin, is_iterator_key, literal_value, raise, read_name, refer,
    super_reference, this_of,
};
use source_objects::{begin_class, properties_on};
use source_state::{Code, Collected, ListParts, Node, Nodes, State, Use};
use source_takers::{AccessNode, ClosureNode, PrimaryNode};
use sqlite_items::Items;
use std::alloc::Global;

/// `this` (12.2.2).
fn this_value<'a, W: PendingWork<'a>>(alloc: Global, st: &mut State<'a, W>) -> Moved<'a>
    ensures { Steps W.seen result st.new (with_this (state_of W.seen st.old) (λ v. gives v (state_of W.seen st.old))) }
{
    match this_of(st)? {
        None => raise(alloc, ErrorKind::ReferenceError, st),
        Some(value) => Ok(Move::give(value)),
    }
}

/// A literal (12.2.4).
fn literal<'a, W: PendingWork<'a>>(alloc: Global, literal: &Literal, st: &State<'a, W>) -> Moved<'a>
    ensures { Steps W.seen result st.now (gives (literal_value literal.now) (state_of W.seen st.now)) }
{
    let value = literal_value(alloc, literal)?;
    Ok(Move::give(value))
}

/// A template (12.2.9).
fn template<'a, W: BeginWork<'a>>(
    alloc: Global,
    template: &'a Template,
    st: &mut State<'a, W>,
) -> Moved<'a>
    ensures { Steps W.seen result st.new (template_on (out-Template template.now).first.cooked (out-Template template.now).rest (state_of W.seen st.old)) }
{
    let text = Str::of(alloc, template.first.cooked.units())?;
    template_on(text, Nodes::of(&template.rest), st)
}

/// An array, which is there before its elements (12.2.5.3).
fn array_list<'a, W: BeginWork<'a>>(
    alloc: Global,
    elements: &'a Items<Element>,
    st: &mut State<'a, W>,
) -> Moved<'a>
    ensures { Steps W.seen result st.new (list_on (OfArray (next_id st.old.heap)) (elements_parts elements.now) (with_array (state_of W.seen st.old))) }
{
    let array = st.heap.make(alloc, Some(ARRAY_PROTOTYPE), Class::Array)?;
    let parts = ListParts::of_elements(elements);
    list_on(alloc, Collected::OfArray(array), parts, st)
}

/// An object, which is there before its properties (12.2.6.8).
fn object_list<'a, W: BeginWork<'a>>(
    alloc: Global,
    properties: Nodes<'a, Property>,
    st: &mut State<'a, W>,
) -> Moved<'a>
    ensures { Steps W.seen result st.new (properties_on (next_id st.old.heap) properties.entry (with_new_object (state_of W.seen st.old))) }
{
    let object = st.heap.make(alloc, Some(OBJECT_PROTOTYPE), Class::Object)?;
    properties_on(alloc, object, properties, st)
}

/// `new.target` (12.3.8).
fn new_target<'a, W: PendingWork<'a>>(st: &State<'a, W>) -> Moved<'a>
    ensures { Steps W.seen result st.now (gives st.now.context.own.target (state_of W.seen st.now)) }
{
    let target = st.context.own.target.share()?;
    Ok(Move::give(target))
}

/// A name, a literal, or what stands in brackets and braces begins.
pub(crate) fn begin_primary<'a, W: BeginWork<'a>>(
    alloc: Global,
    node: PrimaryNode<'a>,
    st: &mut State<'a, W>,
) -> Moved<'a>
    ensures { Steps W.seen result st.new (primary_begun node.entry (state_of W.seen st.old)) }
{
    match node {
        PrimaryNode::This(_) => this_value(alloc, st),
        PrimaryNode::Name(_, name) => read_name(alloc, name.bytes(), st),
        PrimaryNode::Literal(_, of) => literal(alloc, of.get(), st),
        PrimaryNode::Template(of) => template(alloc, of.get(), st),
        PrimaryNode::ArrayList(_, elements, _) => array_list(alloc, elements.get(), st),
        PrimaryNode::ObjectList(_, properties) => object_list(alloc, properties, st),
        PrimaryNode::NewTarget(_) => new_target(st),
    }
}

/// A function expression (14.1.20, 14.4.14).
fn function<'a, W: PendingWork<'a>>(
    alloc: Global,
    function: &Node<'a, Function>,
    st: &mut State<'a, W>,
) -> Moved<'a>
    ensures { Steps W.seen result st.new (gives_closure (function_expression function.now (state_of W.seen st.old))) }
{
    let value = function_expression(alloc, function, st)?;
    Ok(Move::give(value))
}

/// An arrow function (14.2.16).
fn arrow<'a, W: PendingWork<'a>>(
    alloc: Global,
    arrow: Node<'a, Arrow>,
    st: &mut State<'a, W>,
) -> Moved<'a>
    ensures { Steps W.seen result st.new (gives_closure (closed (ArrowCode arrow.entry) Undefined (state_of W.seen st.old))) }
{
    let value = closed(alloc, Code::ArrowCode(arrow), Value::Undefined, st)?;
    Ok(Move::give(value))
}

/// A function or a class begins.
pub(crate) fn begin_closure<'a, W: BeginWork<'a>>(
    alloc: Global,
    node: ClosureNode<'a>,
    st: &mut State<'a, W>,
) -> Moved<'a>
    ensures { Steps W.seen result st.new (closure_begun node.entry (state_of W.seen st.old)) }
{
    match node {
        ClosureNode::Function(of) => function(alloc, &of, st),
        ClosureNode::Arrow(of) => arrow(alloc, of, st),
        ClosureNode::Class(class) => begin_class(alloc, class, st),
    }
}

/// `super.k` (12.3.5).
pub(crate) fn super_member<'a, W: PendingWork<'a>>(
    alloc: Global,
    wanted: bool,
    name: &Identifier,
    st: &mut State<'a, W>,
) -> Moved<'a>
    ensures { Steps W.seen result st.new (super_reference wanted (Text (name_units name.now.name)) (state_of W.seen st.old)) }
{
    let units = name_units(alloc, name.name.bytes())?;
    super_reference(alloc, wanted, Key::Text(units), st)
}

/// `super[k]` (12.3.5).
pub(crate) fn begin_super<'a, W: BeginWork<'a>>(
    alloc: Global,
    wanted: bool,
    x: Node<'a, Expression>,
    st: &mut State<'a, W>,
) -> Moved<'a>
    ensures { Steps W.seen result st.new (begin_super wanted x.entry (state_of W.seen st.old)) }
{
    if is_iterator_key(x.get(), st) {
        super_reference(alloc, wanted, Key::Iterator, st)
    } else {
        begin(W::super_key(wanted), x, st)
    }
}

/// An access or a call begins.
pub(crate) fn begin_access<'a, W: BeginWork<'a>>(
    alloc: Global,
    node: AccessNode<'a>,
    st: &mut State<'a, W>,
) -> Moved<'a>
    ensures { Steps W.seen result st.new (access_begun node.entry (state_of W.seen st.old)) }
{
    match node {
        AccessNode::Chain(_, head, links) => refer(W::links(false, links), head, st),
        AccessNode::SuperMember(_, name) => super_member(alloc, false, name.get(), st),
        AccessNode::SuperIndex(_, index) => begin_super(alloc, false, index, st),
        AccessNode::SuperCall(_, arguments) => {
            let list = Collected::OfArguments(Use::ForSuper, Items::new(alloc));
            list_on(alloc, list, ListParts::of_arguments(arguments), st)
        }
        AccessNode::New(_, callee, arguments) => begin(W::new_callee(arguments), callee, st),
    }
}
