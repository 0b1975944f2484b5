//! Calls of a function that is found, with a receiver where there is one (ECMA-262, 6th edition, 12.3.4).

ghost use Rattle.std.specs.Prelude.{◌≡◌, ◌∷◌, IfOk};
ghost use Rattle.core_ast.specs.Made.{linked};
ghost use Rattle.core_ast.specs.declared.parts.CoreOp.TheVariants as op;
ghost use Rattle.core_ast.specs.declared.tree.CoreLink.TheVariants as link;
ghost use Rattle.lowering_rules.specs.Expressions.{call, spread_call};

use core_ast::{CoreExpr, CoreLink, CoreOp, linked};
use es_outside::Site;
use lower_parts::lower_arguments;
use lowering_rules::ListPart;
use sqlite_items::Items;
use std::alloc::{AllocError, Global};

/// Arguments with one more in front.
pub(crate) fn with_first(
    alloc: Global,
    first: CoreExpr,
    rest: Items<CoreExpr>,
) -> Result<Items<CoreExpr>, AllocError>
    ensures { IfOk result (λ xs. xs ≡ first ∷ rest) }
{
    let mut parts = Items::new(alloc);
    parts.push(first)?;
    parts.append(rest)?;
    Ok(parts)
}

fn called(
    callee: CoreExpr,
    op: CoreOp,
    parts: Items<CoreExpr>,
    site: Option<Site>,
) -> Result<CoreExpr, AllocError>
    ensures { IfOk result (λ x. x ≡ linked callee (link.Strict op parts site)) }
{
    linked(callee, CoreLink::Strict { op, parts, site })
}

fn called_on(
    alloc: Global,
    callee: CoreExpr,
    receiver: CoreExpr,
    parts: Items<CoreExpr>,
    site: Option<Site>,
) -> Result<CoreExpr, AllocError>
    ensures { IfOk result (λ x. x ≡ linked callee (link.Strict op.CallWith (receiver ∷ parts) site)) }
{
    let parts = with_first(alloc, receiver, parts)?;
    called(callee, CoreOp::CallWith, parts, site)
}

/// A call with these arguments.
#[tactic(auto, unfolding(lowering_rules::specs::Expressions::call))]
pub(crate) fn plain_call(
    alloc: Global,
    callee: CoreExpr,
    receiver: Option<CoreExpr>,
    parts: Items<CoreExpr>,
    site: Option<Site>,
) -> Result<CoreExpr, AllocError>
    ensures { IfOk result (λ x. x ≡ call callee receiver parts site) }
{
    match receiver {
        Some(receiver) => called_on(alloc, callee, receiver, parts, site),
        None => called(callee, CoreOp::Call, parts, site),
    }
}

/// A call with a list of arguments, some of which are spread.
#[tactic(auto, unfolding(lowering_rules::specs::Expressions::spread_call))]
pub(crate) fn listed_call(
    alloc: Global,
    callee: CoreExpr,
    receiver: Option<CoreExpr>,
    arguments: Vec<ListPart>,
    site: Option<Site>,
) -> Result<CoreExpr, AllocError>
    ensures { IfOk result (λ x. x ≡ spread_call callee receiver arguments.items site) }
{
    let list = lower_arguments(alloc, arguments)?;
    let mut parts = Items::new(alloc);
    match receiver {
        Some(receiver) => {
            parts.push(receiver)?;
            parts.push(list)?;
            called(callee, CoreOp::CallListWith, parts, site)
        }
        None => {
            parts.push(list)?;
            called(callee, CoreOp::CallList, parts, site)
        }
    }
}
