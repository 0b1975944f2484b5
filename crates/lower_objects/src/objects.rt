//! Object literals (ECMA-262, 6th edition, 12.2.6).

ghost use Rattle.std.specs.Prelude.{◌≡◌, map, IfOk};
ghost use Rattle.lowering_rules.specs.reference_rules.Drawing.{Makes};
ghost use Rattle.lowering_rules.specs.reference_rules.Objects.{behind, completed, literal, object, putting};

use crate::front::front;
use crate::members::{push_defining, putting};
use core_ast::{CoreExpr, CoreHead, CoreLink, Var, variable};
use lower_parts::{stored, then};
use lowering_rules::Names;
use lowering_rules::reference_rules::ObjectMember;
use sqlite_items::Items;
use std::alloc::{AllocError, Global};
use std::collections::VecDeque;

fn literal(alloc: Global, members: Vec<ObjectMember>) -> Result<CoreExpr, AllocError>
    ensures { IfOk result (λ x. x ≡ literal members.items) }
{
    let mut left = VecDeque::from_vec(members);
    let mut links = Items::new(alloc);
    while let Some(member) = left.pop_front() {
        push_defining(alloc, member, &mut links)?;
    }
    let site = None;
    let head = CoreHead::ObjectList;
    Ok(CoreExpr { site, head, links })
}

fn all_put(
    alloc: Global,
    kept: Var,
    members: Vec<ObjectMember>,
) -> Result<Items<CoreLink>, AllocError>
    ensures { IfOk result (λ ls. ls ≡ map (putting kept) members.items) }
{
    let mut left = VecDeque::from_vec(members);
    let mut links = Items::new(alloc);
    while let Some(member) = left.pop_front() {
        links.push(putting(alloc, kept, member)?)?;
    }
    Ok(links)
}

fn behind(value: CoreExpr, more: Items<CoreLink>) -> Result<CoreExpr, AllocError>
    ensures { IfOk result (λ x. x ≡ behind value more) }
{
    let CoreExpr {
        site,
        head,
        mut links,
    } = value;
    links.append(more)?;
    Ok(CoreExpr { site, head, links })
}

fn completed(
    alloc: Global,
    front: CoreExpr,
    rest: Vec<ObjectMember>,
    kept: Var,
) -> Result<CoreExpr, AllocError>
    ensures { IfOk result (λ x. x ≡ completed front rest.items kept) }
{
    let front = stored(alloc, kept, front)?;
    let whole = behind(front, all_put(alloc, kept, rest)?)?;
    then(alloc, whole, variable(alloc, kept))
}

/// An object of these members.
pub fn lower_object(
    alloc: Global,
    members: Vec<ObjectMember>,
    names: &mut Names,
) -> Result<CoreExpr, AllocError>
    ensures { Makes result names.new (object members.items names.old) }
{
    let mut members = members;
    let count = front(alloc, members.as_slice())?;
    let rest = members.split_off(count)?;
    let front = literal(alloc, members)?;
    if rest.is_empty() {
        return Ok(front);
    }
    let kept = names.temporary()?;
    completed(alloc, front, rest, kept)
}
