//! Lists of arguments and arrays (ECMA-262, 6th edition, 12.2.5 and 12.3.6).

ghost use Rattle.std.specs.Prelude.{◌≡◌, [], ◌∷◌, map, None, IfOk};
ghost use Rattle.core_ast.specs.declared.parts.CoreOp.TheVariants as op;
ghost use Rattle.core_ast.specs.declared.parts.Primitive.TheVariants.{SpreadList};
ghost use Rattle.core_ast.specs.declared.tree.CoreLink.TheVariants as link;
ghost use Rattle.lowering_rules.specs.Expressions.{arguments, array, list_link, list_of};
ghost use Rattle.lowering_rules.specs.Making.{number};

use crate::build::number;
use core_ast::{CoreExpr, CoreHead, CoreLink, CoreOp, Primitive, act, acting};
use lowering_rules::ListPart;
use sqlite_items::Items;
use std::alloc::{AllocError, Global};
use std::collections::VecDeque;

fn spread(alloc: Global, iterable: CoreExpr) -> Result<CoreLink, AllocError>
    ensures { IfOk result (λ l. l ≡ link.Strict (op.Primitive SpreadList) (iterable ∷ number 1 ∷ []) None) }
{
    let mut parts = Items::new(alloc);
    parts.push(iterable)?;
    parts.push(number(alloc, 1))?;
    let op = CoreOp::Primitive(Primitive::SpreadList);
    let site = None;
    Ok(CoreLink::Strict { op, parts, site })
}

#[tactic(auto, unfolding(lowering_rules::specs::Expressions::list_link))]
fn list_link(alloc: Global, part: ListPart) -> Result<CoreLink, AllocError>
    ensures { IfOk result (λ l. l ≡ list_link part) }
{
    match part {
        ListPart::Single(value) => acting(alloc, CoreOp::Element, value),
        ListPart::Spread(iterable) => spread(alloc, iterable),
        ListPart::Missing => Ok(act(alloc, CoreOp::Hole)),
    }
}

fn list_links(alloc: Global, parts: Vec<ListPart>) -> Result<Items<CoreLink>, AllocError>
    ensures { IfOk result (λ ls. ls ≡ map list_link parts.items) }
{
    let mut left = VecDeque::from_vec(parts);
    let mut links = Items::new(alloc);
    while let Some(part) = left.pop_front() {
        links.push(list_link(alloc, part)?)?;
    }
    Ok(links)
}

fn list_of(alloc: Global, head: CoreHead, parts: Vec<ListPart>) -> Result<CoreExpr, AllocError>
    ensures { IfOk result (λ x. x ≡ list_of head parts.items) }
{
    let links = list_links(alloc, parts)?;
    let site = None;
    Ok(CoreExpr { site, head, links })
}

/// A list of arguments, from left to right.
pub fn lower_arguments(alloc: Global, parts: Vec<ListPart>) -> Result<CoreExpr, AllocError>
    ensures { IfOk result (λ x. x ≡ arguments parts.items) }
{
    list_of(alloc, CoreHead::ArgumentList, parts)
}

/// An array, from left to right.
pub fn lower_array(alloc: Global, parts: Vec<ListPart>) -> Result<CoreExpr, AllocError>
    ensures { IfOk result (λ x. x ≡ array parts.items) }
{
    list_of(alloc, CoreHead::ArrayList, parts)
}
