//! Labels, jumps and returns (ECMA-262, 6th edition, 13.8 to 13.10 and 13.13).

ghost use Rattle.std.specs.Prelude.{◌≡◌, IfOk};
ghost use Rattle.lowering_rules.specs.statement_rules.Statements.{body_label, exit_label, jump, labelled, returned};

use core_ast::{CoreExpr, CoreStat, Label, undefined};
use sqlite_items::Items;
use std::alloc::{AllocError, Global};

/// The label of the statement that begins at this place. Out of memory where it isn't below 2^32.
pub fn exit_label(at: u32) -> Result<Label, AllocError>
    ensures { IfOk result (λ l. l ≡ exit_label at) }
{
    let two: u32 = 2;
    match two.checked_mul(at) {
        Some(number) => Ok(Label(number)),
        None => Err(AllocError),
    }
}

/// The label of the body of the loop that begins at this place. Out of memory where it isn't below 2^32.
pub fn body_label(at: u32) -> Result<Label, AllocError>
    ensures { IfOk result (λ l. l ≡ body_label at) }
{
    let Label(even) = exit_label(at)?;
    match even.checked_add(1) {
        Some(number) => Ok(Label(number)),
        None => Err(AllocError),
    }
}

/// To the next turn of the loop with this label, or out of the statement with it.
pub fn jump(goes_on: bool, label: Label) -> CoreStat
    ensures { result ≡ jump goes_on label }
{
    CoreStat::Jump {
        goes_on,
        label: Some(label),
    }
}

/// Statements with a label.
pub fn labelled(label: Label, body: Items<CoreStat>) -> CoreStat
    ensures { result ≡ labelled label body }
{
    CoreStat::Labelled { label, body }
}

/// A return of this value, or of undefined.
#[tactic(auto, unfolding(lowering_rules::specs::statement_rules::Statements::returned))]
pub fn lower_return(alloc: Global, value: Option<CoreExpr>) -> CoreStat
    ensures { result ≡ returned value }
{
    match value {
        Some(value) => CoreStat::Return(value),
        None => CoreStat::Return(undefined(alloc)),
    }
}
