//! What is made of nodes that are done.

ghost use Rattle.std.specs.Prelude.{◌≡◌, [], None, IfOk};
ghost use Rattle.core_ast.specs.Made as made;

use crate::parts::{Constant, CoreHead, CoreOp, Var};
use crate::tree::{CoreExpr, CoreLink};
use sqlite_items::Items;
use std::alloc::{AllocError, Global};

/// A head alone.
pub fn expression(alloc: Global, head: CoreHead) -> CoreExpr
    ensures { result ≡ made.expression None head [] }
{
    CoreExpr {
        site: None,
        head,
        links: Items::new(alloc),
    }
}

/// The variable.
pub fn variable(alloc: Global, var: Var) -> CoreExpr
    ensures { result ≡ made.variable var }
{
    expression(alloc, CoreHead::Variable(var))
}

/// The constant.
pub fn constant(alloc: Global, value: Constant) -> CoreExpr
    ensures { result ≡ made.constant value }
{
    expression(alloc, CoreHead::Constant(value))
}

/// `undefined`.
pub fn undefined(alloc: Global) -> CoreExpr
    ensures { result ≡ made.undefined }
{
    constant(alloc, Constant::Undefined)
}

/// An operation that has no parts.
pub fn act(alloc: Global, op: CoreOp) -> CoreLink
    ensures { result ≡ made.act op }
{
    CoreLink::Strict {
        op,
        parts: Items::new(alloc),
        site: None,
    }
}

/// An operation with one part.
pub fn acting(alloc: Global, op: CoreOp, part: CoreExpr) -> Result<CoreLink, AllocError>
    ensures { IfOk result (λ x. x ≡ made.acting op part) }
{
    let mut parts = Items::new(alloc);
    parts.push(part)?;
    Ok(CoreLink::Strict {
        op,
        parts,
        site: None,
    })
}

/// The expression with one link more.
pub fn linked(expr: CoreExpr, link: CoreLink) -> Result<CoreExpr, AllocError>
    ensures { IfOk result (λ x. x ≡ made.linked expr link) }
{
    let CoreExpr {
        site,
        head,
        mut links,
    } = expr;
    links.push(link)?;
    Ok(CoreExpr { site, head, links })
}
