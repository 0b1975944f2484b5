//! Elements and properties, which stand in the literal where they come directly behind it (ECMA-262, 5.1 edition, 11.1.4, 11.1.5).

ghost use Rattle.std.specs.Prelude.{◌≡◌, ◌∷◌, ◌++◌, [], IfOk};
ghost use Rattle.emission_rules.specs.Expressions.{flag, with_element, with_getter, with_hole, with_property, with_setter};
ghost use Rattle.emission_rules.specs.Nodes.{applied, integer, key_name, key_value, plain};
ghost use Rattle.emission_rules.specs.Primitives.{helper_name};
ghost use Rattle.es5_ast.specs.declared.tree.Element5.TheVariants as element;
ghost use Rattle.es5_ast.specs.declared.tree.Expr5.TheVariants as expr;

use crate::chains::applied;
use crate::helpers::helper_name;
use crate::keys::{key_name, key_value, plain};
use crate::leaves::{flag, integer, nothing};
use core_ast::{Key, Primitive};
use es_text::Span;
use es5_ast::{Element5, Expr5, Property5};
use es5_nodes::expressions;
use es5_nodes::lists::{push, push_element};
use sqlite_items::{Boxed, Items};
use std::alloc::{AllocError, Global};

/// The list with an element more, which the mark says how to take.
fn spread(
    alloc: Global,
    list: Boxed<Expr5>,
    more: Boxed<Expr5>,
    mark: u64,
) -> Result<Boxed<Expr5>, AllocError>
    ensures { IfOk result (λ x. x ≡ applied (helper_name Primitive.SpreadList) (list ∷ more ∷ integer mark ∷ [])) }
{
    let mut operands = Items::new(alloc);
    push(&mut operands, list)?;
    push(&mut operands, more)?;
    push(&mut operands, integer(alloc, mark)?)?;
    applied(alloc, helper_name(Primitive::SpreadList), operands)
}

fn element_written(
    alloc: Global,
    span: Span,
    elements: Items<Element5>,
    more: Boxed<Expr5>,
) -> Result<Boxed<Expr5>, AllocError>
    ensures { IfOk result (λ x. x ≡ expr.ArrayList span (elements ++ element.Element more ∷ [])) }
{
    let mut elements = elements;
    push_element(&mut elements, more)?;
    Ok(expressions::array(alloc, span, elements)?.into_value())
}

/// An element more.
#[tactic(auto, unfolding(emission_rules::specs::Expressions::with_element))]
pub(crate) fn with_element(
    alloc: Global,
    value: Boxed<Expr5>,
    more: Boxed<Expr5>,
) -> Result<Boxed<Expr5>, AllocError>
    ensures { IfOk result (λ x. x ≡ with_element value more) }
{
    match value.into_inner() {
        Expr5::ArrayList { span, elements } => element_written(alloc, span, elements, more),
        value => spread(alloc, Boxed::new(alloc, value)?, more, 0),
    }
}

/// A hole more. Engines differ in what one of a literal is.
pub(crate) fn with_hole(alloc: Global, value: Boxed<Expr5>) -> Result<Boxed<Expr5>, AllocError>
    ensures { IfOk result (λ x. x ≡ with_hole value) }
{
    let none = nothing(alloc)?;
    spread(alloc, value, none, 2)
}

/// A property that a helper puts on the object.
fn put_by(
    alloc: Global,
    primitive: Primitive,
    object: Boxed<Expr5>,
    key: &Key,
    value: Boxed<Expr5>,
    marked: bool,
) -> Result<Boxed<Expr5>, AllocError>
    ensures { IfOk result (λ x. x ≡ applied (helper_name primitive) (object ∷ key_value key.now ∷ value ∷ flag marked ∷ [])) }
{
    let mut operands = Items::new(alloc);
    push(&mut operands, object)?;
    push(&mut operands, key_value(alloc, key)?)?;
    push(&mut operands, value)?;
    push(&mut operands, flag(alloc, marked)?)?;
    applied(alloc, helper_name(primitive), operands)
}

fn property_written(
    alloc: Global,
    span: Span,
    properties: Items<Property5>,
    key: &Key,
    value: Boxed<Expr5>,
) -> Result<Boxed<Expr5>, AllocError>
    ensures { IfOk result (λ x. x ≡ expr.ObjectList span (properties ++ plain (key_name key.now) value ∷ [])) }
{
    let mut properties = properties;
    let key = key_name(alloc, key)?;
    push(&mut properties, plain(alloc, key, value)?)?;
    Ok(expressions::object(alloc, span, properties)?.into_value())
}

/// A property more.
#[tactic(auto, unfolding(emission_rules::specs::Expressions::with_property))]
pub(crate) fn with_property(
    alloc: Global,
    object: Boxed<Expr5>,
    key: &Key,
    value: Boxed<Expr5>,
) -> Result<Boxed<Expr5>, AllocError>
    ensures { IfOk result (λ x. x ≡ with_property object key.now value) }
{
    match object.into_inner() {
        Expr5::ObjectList { span, properties } => property_written(
            alloc, span, properties, key, value,
        ),
        object => {
            let object = Boxed::new(alloc, object)?;
            put_by(alloc, Primitive::MethodPut, object, key, value, false)
        }
    }
}

/// A getter more.
pub(crate) fn with_getter(
    alloc: Global,
    object: Boxed<Expr5>,
    key: &Key,
    function: Boxed<Expr5>,
) -> Result<Boxed<Expr5>, AllocError>
    ensures { IfOk result (λ x. x ≡ with_getter object key.now function) }
{
    put_by(alloc, Primitive::AccessorPut, object, key, function, false)
}

/// A setter more.
pub(crate) fn with_setter(
    alloc: Global,
    object: Boxed<Expr5>,
    key: &Key,
    function: Boxed<Expr5>,
) -> Result<Boxed<Expr5>, AllocError>
    ensures { IfOk result (λ x. x ≡ with_setter object key.now function) }
{
    put_by(alloc, Primitive::AccessorPut, object, key, function, true)
}
