//! `try` (ECMA-262, 6th edition, 13.15).

ghost use Rattle.std.specs.Prelude.{◌≡◌, IfOk};
ghost use Rattle.lowering_rules.specs.statement_rules.Statements.{attempt, caught, ended, handled};

use core_ast::CoreStat;
use lower_parts::alone;
use lowering_rules::statement_rules::Handler;
use sqlite_items::Items;
use std::alloc::{AllocError, Global};

/// What is thrown is bound to the pattern before the handler's block is entered.
fn handled(block: Items<CoreStat>, handler: Handler) -> Result<CoreStat, AllocError>
    ensures { IfOk result (λ s. s ≡ handled block handler) }
{
    let Handler {
        thrown,
        names,
        bound,
        block: rest,
    } = handler;
    let mut handler = bound;
    handler.append(rest)?;
    Ok(CoreStat::TryCatch {
        block,
        parameter: thrown,
        names,
        handler,
    })
}

#[tactic(auto, unfolding(lowering_rules::specs::statement_rules::Statements::caught))]
fn caught(
    alloc: Global,
    block: Items<CoreStat>,
    handler: Option<Handler>,
) -> Result<Items<CoreStat>, AllocError>
    ensures { IfOk result (λ ss. ss ≡ caught block handler) }
{
    match handler {
        Some(handler) => alone(alloc, handled(block, handler)?),
        None => Ok(block),
    }
}

#[tactic(auto, unfolding(lowering_rules::specs::statement_rules::Statements::ended))]
fn ended(
    alloc: Global,
    block: Items<CoreStat>,
    last: Option<Items<CoreStat>>,
) -> Result<Items<CoreStat>, AllocError>
    ensures { IfOk result (λ ss. ss ≡ ended block last) }
{
    match last {
        Some(last) => alone(alloc, CoreStat::TryFinally { block, last }),
        None => Ok(block),
    }
}

/// A block with its handler, and its last statements round both.
pub fn lower_try(
    alloc: Global,
    block: Items<CoreStat>,
    handler: Option<Handler>,
    last: Option<Items<CoreStat>>,
) -> Result<Items<CoreStat>, AllocError>
    ensures { IfOk result (λ ss. ss ≡ attempt block handler last) }
{
    let block = caught(alloc, block, handler)?;
    ended(alloc, block, last)
}
