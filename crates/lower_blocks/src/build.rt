//! What is made of heads, operations and the names of scopes.

ghost use Rattle.std.specs.Prelude.{◌≡◌, [], ◌∷◌, ◌++◌, cond, IfOk, OnOk};
ghost use Rattle.core_ast.specs.Made.{act};
ghost use Rattle.core_ast.specs.declared.parts.CoreOp.TheVariants as op;
ghost use Rattle.core_ast.specs.declared.parts.Primitive.TheVariants.{CellMake};
ghost use Rattle.pass_rules.specs.Cells.{is_shared, owner};
ghost use Rattle.pass_rules.specs.Scopes.{begun, copied, copies, entered, reset, stored, strict};

use core_ast::{
    Constant, CoreExpr, CoreHead, CoreLink, CoreOp, CoreStat, Primitive, ScopedName, Var, act,
    acting, linked, variable,
};
use es_outside::Site;
use sqlite_items::Items;
use std::alloc::{AllocError, Global};

/// The number of what declares a shared name, and 0 for another.
pub(crate) fn owner(owners: &[usize], var: Var) -> usize
    ensures { result ≡ owner owners.now var }
{
    match owners.get(var.0 as usize) {
        Some(number) => *number,
        None => 0,
    }
}

pub(crate) fn is_shared(owners: &[usize], var: Var) -> bool
    ensures { result ≡ is_shared owners.now var }
{
    owner(owners, var) != 0
}

/// Makes a cell for the name of the value before it, and lets the name hold it.
fn push_cell(alloc: Global, var: Var, links: &mut Items<CoreLink>) -> Result<(), AllocError>
    ensures { OnOk result (links.new ≡ links.old ++ act (op.Primitive (CellMake var)) ∷ act (op.Set var) ∷ []) }
{
    links.push(act(alloc, CoreOp::Primitive(Primitive::CellMake(var))))?;
    links.push(act(alloc, CoreOp::Set(var)))
}

fn copied(alloc: Global, var: Var) -> Result<CoreLink, AllocError>
    ensures { IfOk result (λ x. x ≡ copied var) }
{
    let mut links = Items::new(alloc);
    links.push(act(alloc, CoreOp::Content))?;
    push_cell(alloc, var, &mut links)?;
    let cell = CoreExpr {
        site: None,
        head: CoreHead::Variable(var),
        links,
    };
    acting(alloc, CoreOp::Then, cell)
}

fn copies(alloc: Global, owners: &[usize], vars: &[Var]) -> Result<Items<CoreLink>, AllocError>
    ensures { IfOk result (λ xs. xs ≡ copies owners.now vars.now) }
{
    let mut links = Items::new(alloc);
    for var in vars {
        if is_shared(owners, *var) {
            links.push(copied(alloc, *var)?)?;
        }
    }
    Ok(links)
}

/// The content of a cell, with room for so many links more.
fn read(
    alloc: Global,
    owners: &[usize],
    var: Var,
    room: usize,
) -> Result<Items<CoreLink>, AllocError>
    ensures { IfOk result (λ xs. xs ≡ cond (is_shared owners.now var) (act op.Content ∷ []) []) }
{
    let mut links = Items::from_vec(Vec::with_capacity(alloc, room)?);
    if is_shared(owners, var) {
        links.push(act(alloc, CoreOp::Content))?;
    }
    Ok(links)
}

/// What an expression begins with, with room for so many links.
#[tactic(auto, unfolding(pass_rules::specs::Scopes::begun))]
pub(crate) fn begun(
    alloc: Global,
    owners: &[usize],
    site: Option<Site>,
    head: &CoreHead,
    room: usize,
) -> Result<CoreExpr, AllocError>
    ensures { IfOk result (λ x. x ≡ begun owners.now site head.now) }
{
    match head {
        CoreHead::Variable(var) => {
            let links = read(alloc, owners, *var, room)?;
            Ok(CoreExpr {
                site,
                head: CoreHead::Variable(*var),
                links,
            })
        }
        CoreHead::Copy(vars) => {
            let links = copies(alloc, owners, vars.as_slice())?;
            let head = CoreHead::Constant(Constant::Undefined);
            Ok(CoreExpr { site, head, links })
        }
        _ => Ok(CoreExpr {
            site,
            head: head.copy(alloc)?,
            links: Items::from_vec(Vec::with_capacity(alloc, room)?),
        }),
    }
}

/// The cell of the name takes the value.
fn stored(alloc: Global, var: Var, value: CoreExpr) -> Result<CoreExpr, AllocError>
    ensures { IfOk result (λ x. x ≡ stored var value) }
{
    let link = acting(alloc, CoreOp::SetContent, value)?;
    linked(variable(alloc, var), link)
}

/// A strict link behind the expression.
#[tactic(auto, unfolding(pass_rules::specs::Scopes::strict))]
pub(crate) fn strict(
    alloc: Global,
    owners: &[usize],
    op: CoreOp,
    parts: Items<CoreExpr>,
    site: Option<Site>,
    expr: CoreExpr,
) -> Result<CoreExpr, AllocError>
    ensures { IfOk result (λ x. x ≡ strict owners.now op parts site expr) }
{
    match op {
        CoreOp::Set(var) => {
            if is_shared(owners, var) {
                return stored(alloc, var, expr);
            }
            let op = CoreOp::Set(var);
            linked(expr, CoreLink::Strict { op, parts, site })
        }
        CoreOp::Init(var) => {
            if is_shared(owners, var) {
                return stored(alloc, var, expr);
            }
            let op = CoreOp::Init(var);
            linked(expr, CoreLink::Strict { op, parts, site })
        }
        op => linked(expr, CoreLink::Strict { op, parts, site }),
    }
}

fn reset(alloc: Global, name: ScopedName) -> Result<CoreStat, AllocError>
    ensures { IfOk result (λ x. x ≡ reset name) }
{
    let mut links = Items::new(alloc);
    if name.shared {
        push_cell(alloc, name.var, &mut links)?;
    } else {
        links.push(act(alloc, CoreOp::Init(name.var)))?;
    }
    Ok(CoreStat::Do(CoreExpr {
        site: None,
        head: CoreHead::Empty,
        links,
    }))
}

/// The names at their scope's entry.
pub(crate) fn entered(
    alloc: Global,
    names: &[ScopedName],
    out: &mut Items<CoreStat>,
) -> Result<(), AllocError>
    ensures { OnOk result (out.new ≡ entered names.now out.old) }
{
    for name in names {
        out.push(reset(alloc, *name)?)?;
    }
    Ok(())
}
