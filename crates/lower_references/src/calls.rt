//! Calls (ECMA-262, 6th edition, 12.3.4 to 12.3.7).

ghost use Rattle.std.specs.Prelude.{◌≡◌, ◌++◌, IfOk, OnOk};
ghost use Rattle.std.specs.List.{flat_map, list_any};
ghost use Rattle.lowering_rules.specs.declared.reference_rules.references.Reached.TheVariants.{Property};
ghost use Rattle.lowering_rules.specs.reference_rules.Drawing.{Makes};
ghost use Rattle.lowering_rules.specs.reference_rules.References.{called, called_as_tag, callee, callee_alone, callee_kept, constructed, is_iterator, is_spread, listed_call, plain_call, single};

use crate::made_calls::{listed_call, plain_call, with_first};
use crate::members::{member, member_read};
use crate::names::old_value;
use crate::reached::value_of;
use core_ast::{CoreExpr, CoreLink, CoreOp, Primitive, linked, variable};
use es_outside::Site;
use lower_parts::{lower_arguments, stored};
use lowering_rules::reference_rules::{Callee, MemberName, Reached};
use lowering_rules::{ListPart, Names};
use sqlite_items::Items;
use std::alloc::{AllocError, Global};
use std::collections::VecDeque;

fn callee_alone(function: CoreExpr) -> Callee
    ensures { result ≡ callee_alone function }
{
    Callee {
        function,
        receiver: None,
    }
}

fn callee_kept(
    alloc: Global,
    object: CoreExpr,
    name: MemberName,
    names: &mut Names,
) -> Result<Callee, AllocError>
    ensures { Makes result names.new (callee_kept object name names.old) }
{
    let kept = names.temporary()?;
    let object = stored(alloc, kept, object)?;
    let function = member_read(alloc, object, name)?;
    let receiver = Some(variable(alloc, kept));
    Ok(Callee { function, receiver })
}

#[tactic(auto, unfolding(lowering_rules::specs::reference_rules::References::is_iterator))]
fn is_iterator(name: &MemberName) -> bool
    ensures { result ≡ is_iterator name.now }
{
    match name {
        MemberName::Named(_) | MemberName::Indexed(_) => false,
        MemberName::AtIterator => true,
    }
}

#[tactic(auto, unfolding(lowering_rules::specs::reference_rules::References::callee))]
fn property_callee(
    alloc: Global,
    listed: bool,
    object: CoreExpr,
    name: MemberName,
    names: &mut Names,
) -> Result<Callee, AllocError>
    ensures { Makes result names.new (callee listed (Property object name) names.old) }
{
    if listed | is_iterator(&name) {
        return callee_kept(alloc, object, name, names);
    }
    let function = member(alloc, object, name)?;
    Ok(callee_alone(function))
}

#[tactic(auto, unfolding(lowering_rules::specs::reference_rules::References::callee))]
fn callee(
    alloc: Global,
    listed: bool,
    reached: Reached,
    names: &mut Names,
) -> Result<Callee, AllocError>
    ensures { Makes result names.new (callee listed reached names.old) }
{
    match reached {
        Reached::Value(function) => Ok(callee_alone(function)),
        Reached::Variable { target, .. } => Ok(callee_alone(old_value(alloc, target)?)),
        Reached::Property { object, name } => property_callee(alloc, listed, object, name, names),
        Reached::Inherited { value, this } => Ok(Callee {
            function: value,
            receiver: Some(this),
        }),
    }
}

#[tactic(auto, unfolding(lowering_rules::specs::reference_rules::References::is_spread))]
fn is_spread(part: &ListPart) -> bool
    ensures { result ≡ is_spread part.now }
{
    match part {
        ListPart::Spread(_) => true,
        ListPart::Single(_) | ListPart::Missing => false,
    }
}

fn has_spread(parts: &[ListPart]) -> bool
    ensures { result ≡ list_any is_spread parts.now }
{
    for part in parts {
        if is_spread(part) {
            return true;
        }
    }
    false
}

#[tactic(auto, unfolding(lowering_rules::specs::reference_rules::References::single))]
fn push_single(part: ListPart, out: &mut Items<CoreExpr>) -> Result<(), AllocError>
    ensures { OnOk result (out.new ≡ out.old ++ single part) }
{
    match part {
        ListPart::Single(value) => out.push(value),
        ListPart::Spread(_) | ListPart::Missing => Ok(()),
    }
}

fn singles(alloc: Global, parts: Vec<ListPart>) -> Result<Items<CoreExpr>, AllocError>
    ensures { IfOk result (λ xs. xs ≡ flat_map single parts.items) }
{
    let mut left = VecDeque::from_vec(parts);
    let mut out = Items::new(alloc);
    while let Some(part) = left.pop_front() {
        push_single(part, &mut out)?;
    }
    Ok(out)
}

fn called_with_list(
    alloc: Global,
    reached: Reached,
    parts: Vec<ListPart>,
    site: Option<Site>,
    names: &mut Names,
) -> Result<CoreExpr, AllocError>
    ensures { Makes result names.new (listed_call reached parts.items site names.old) }
{
    let Callee { function, receiver } = callee(alloc, true, reached, names)?;
    listed_call(alloc, function, receiver, parts, site)
}

fn called_plainly(
    alloc: Global,
    reached: Reached,
    parts: Vec<ListPart>,
    site: Option<Site>,
    names: &mut Names,
) -> Result<CoreExpr, AllocError>
    ensures { Makes result names.new (plain_call reached parts.items site names.old) }
{
    let Callee { function, receiver } = callee(alloc, false, reached, names)?;
    let parts = singles(alloc, parts)?;
    plain_call(alloc, function, receiver, parts, site)
}

/// A call of what is reached, with these arguments.
pub fn lower_called(
    alloc: Global,
    reached: Reached,
    parts: Vec<ListPart>,
    site: Option<Site>,
    names: &mut Names,
) -> Result<CoreExpr, AllocError>
    ensures { Makes result names.new (called reached parts.items site names.old) }
{
    if has_spread(parts.as_slice()) {
        return called_with_list(alloc, reached, parts, site, names);
    }
    called_plainly(alloc, reached, parts, site, names)
}

/// What is reached as the tag of a template, with the template's object and values.
pub fn lower_called_as_tag(
    alloc: Global,
    reached: Reached,
    object: CoreExpr,
    values: Items<CoreExpr>,
    site: Option<Site>,
    names: &mut Names,
) -> Result<CoreExpr, AllocError>
    ensures { Makes result names.new (called_as_tag reached object values site names.old) }
{
    let Callee { function, receiver } = callee(alloc, false, reached, names)?;
    let parts = with_first(alloc, object, values)?;
    plain_call(alloc, function, receiver, parts, site)
}

/// `new` of what is reached, with these arguments.
pub fn lower_constructed(
    alloc: Global,
    reached: Reached,
    arguments: Vec<ListPart>,
    site: Option<Site>,
) -> Result<CoreExpr, AllocError>
    ensures { IfOk result (λ x. x ≡ constructed reached arguments.items site) }
{
    let function = value_of(alloc, reached)?;
    let list = lower_arguments(alloc, arguments)?;
    let mut parts = Items::new(alloc);
    parts.push(list)?;
    let op = CoreOp::Primitive(Primitive::Construct);
    linked(function, CoreLink::Strict { op, parts, site })
}
