//! Calls whose arguments are a list (ECMA-262, 6th edition, 12.3.3 and 12.3.4).

ghost use Rattle.std.specs.Prelude.{◌≡◌, IfOk};
ghost use Rattle.lowering_rules.specs.Expressions.{construction, spread_call};

use core_ast::{CoreExpr, CoreLink, CoreOp, Primitive, linked};
use es_outside::Site;
use lower_parts::{lower_arguments, through_with};
use lowering_rules::ListPart;
use sqlite_items::Items;
use std::alloc::{AllocError, Global};

/// A call with spread arguments, with a receiver where there is one.
#[tactic(auto, unfolding(lowering_rules::specs::Expressions::spread_call))]
pub fn lower_spread(
    alloc: Global,
    callee: CoreExpr,
    receiver: Option<CoreExpr>,
    arguments: Vec<ListPart>,
    site: Option<Site>,
) -> Result<CoreExpr, AllocError>
    ensures { IfOk result (λ x. x ≡ spread_call callee receiver arguments.items site) }
{
    let list = lower_arguments(alloc, arguments)?;
    let mut parts = Items::new(alloc);
    match receiver {
        Some(receiver) => {
            let op = CoreOp::CallListWith;
            parts.push(receiver)?;
            parts.push(list)?;
            linked(callee, CoreLink::Strict { op, parts, site })
        }
        None => {
            let op = CoreOp::CallList;
            parts.push(list)?;
            linked(callee, CoreLink::Strict { op, parts, site })
        }
    }
}

/// `new`.
pub fn lower_construction(
    alloc: Global,
    callee: CoreExpr,
    arguments: Vec<ListPart>,
) -> Result<CoreExpr, AllocError>
    ensures { IfOk result (λ x. x ≡ construction callee arguments.items) }
{
    let list = lower_arguments(alloc, arguments)?;
    through_with(alloc, callee, Primitive::Construct, list)
}
