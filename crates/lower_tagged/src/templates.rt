//! Tagged templates (ECMA-262, 6th edition, 12.3.7).

ghost use Rattle.std.specs.Prelude.{◌≡◌, ◌∷◌, IfOk};
ghost use Rattle.core_ast.specs.Made.{linked};
ghost use Rattle.core_ast.specs.declared.parts.CoreOp.TheVariants as op;
ghost use Rattle.core_ast.specs.declared.tree.CoreLink.TheVariants as link;
ghost use Rattle.lowering_rules.specs.Expressions.{call, tagged, template_object, texts};

use core_ast::{CoreExpr, CoreHead, CoreLink, CoreOp, Primitive, acting, linked};
use es_outside::Site;
use lower_parts::{text, through_with};
use shared_text::Units;
use sqlite_items::Items;
use std::alloc::{AllocError, Global};
use std::collections::VecDeque;

/// A list of texts.
fn texts(alloc: Global, units: Vec<Units>) -> Result<CoreExpr, AllocError>
    ensures { IfOk result (λ x. x ≡ texts units.items) }
{
    let mut left = VecDeque::from_vec(units);
    let mut links = Items::new(alloc);
    while let Some(one) = left.pop_front() {
        links.push(acting(alloc, CoreOp::Element, text(alloc, one))?)?;
    }
    let site = None;
    let head = CoreHead::ArgumentList;
    Ok(CoreExpr { site, head, links })
}

/// The object that the tag is called with first.
pub fn template_object(
    alloc: Global,
    cooked: Vec<Units>,
    raw: Vec<Units>,
) -> Result<CoreExpr, AllocError>
    ensures { IfOk result (λ x. x ≡ template_object cooked.items raw.items) }
{
    let cooked = texts(alloc, cooked)?;
    let raw = texts(alloc, raw)?;
    through_with(alloc, cooked, Primitive::TemplateObject, raw)
}

fn object_first(
    alloc: Global,
    object: CoreExpr,
    values: Items<CoreExpr>,
) -> Result<Items<CoreExpr>, AllocError>
    ensures { IfOk result (λ xs. xs ≡ object ∷ values) }
{
    let mut parts = Items::new(alloc);
    parts.push(object)?;
    parts.append(values)?;
    Ok(parts)
}

fn called(
    callee: CoreExpr,
    op: CoreOp,
    parts: Items<CoreExpr>,
    site: Option<Site>,
) -> Result<CoreExpr, AllocError>
    ensures { IfOk result (λ x. x ≡ linked callee (link.Strict op parts site)) }
{
    linked(callee, CoreLink::Strict { op, parts, site })
}

fn called_on(
    alloc: Global,
    callee: CoreExpr,
    receiver: CoreExpr,
    parts: Items<CoreExpr>,
    site: Option<Site>,
) -> Result<CoreExpr, AllocError>
    ensures { IfOk result (λ x. x ≡ linked callee (link.Strict op.CallWith (receiver ∷ parts) site)) }
{
    let parts = object_first(alloc, receiver, parts)?;
    called(callee, CoreOp::CallWith, parts, site)
}

#[tactic(auto, unfolding(lowering_rules::specs::Expressions::call))]
fn called_by(
    alloc: Global,
    callee: CoreExpr,
    receiver: Option<CoreExpr>,
    parts: Items<CoreExpr>,
    site: Option<Site>,
) -> Result<CoreExpr, AllocError>
    ensures { IfOk result (λ x. x ≡ call callee receiver parts site) }
{
    match receiver {
        Some(receiver) => called_on(alloc, callee, receiver, parts, site),
        None => called(callee, CoreOp::Call, parts, site),
    }
}

/// The call of the tag, with a receiver where there is one, with the object of the texts and the values.
pub fn lower_tagged(
    alloc: Global,
    callee: CoreExpr,
    receiver: Option<CoreExpr>,
    object: CoreExpr,
    values: Items<CoreExpr>,
    site: Option<Site>,
) -> Result<CoreExpr, AllocError>
    ensures { IfOk result (λ x. x ≡ tagged callee receiver object values site) }
{
    let parts = object_first(alloc, object, values)?;
    called_by(alloc, callee, receiver, parts, site)
}
