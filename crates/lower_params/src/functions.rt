//! Functions in the table, and arrows (ECMA-262, 6th edition, 14.2).

ghost use Rattle.std.specs.Prelude.{◌≡◌, [], ◌∷◌, ◌++◌, length, IfOk, OnOk};
ghost use Rattle.lowering_rules.specs.Functions.{arrow, closure, concise};

use core_ast::{CoreExpr, CoreFunction, CoreHead, CoreKind, CoreStat, FunctionId, expression};
use lower_parts::alone;
use sqlite_items::Items;
use std::alloc::{AllocError, Global};

/// The function goes into the table.
pub fn placed(
    function: CoreFunction,
    functions: &mut Items<CoreFunction>,
) -> Result<FunctionId, AllocError>
    ensures number { IfOk result (λ f. f ≡ record { 0 = length functions.old }) }
    ensures table { OnOk result (functions.new ≡ functions.old ++ function ∷ []) }
{
    let Ok(place) = u32::try_from(functions.len()) else {
        return Err(AllocError);
    };
    functions.push(function)?;
    Ok(FunctionId(place))
}

/// An arrow: its function goes into the table, and the expression is its closure.
pub fn lower_arrow(
    alloc: Global,
    function: CoreFunction,
    functions: &mut Items<CoreFunction>,
) -> Result<CoreExpr, AllocError>
    ensures given { IfOk result (λ x. x ≡ closure functions.old) }
    ensures table { OnOk result (functions.new ≡ functions.old ++ arrow function ∷ []) }
{
    let mut function = function;
    function.kind = CoreKind::Arrow;
    let number = placed(function, functions)?;
    Ok(expression(alloc, CoreHead::Function(number)))
}

/// The body of an arrow that is an expression.
pub fn concise(alloc: Global, value: CoreExpr) -> Result<Items<CoreStat>, AllocError>
    ensures { IfOk result (λ ss. ss ≡ concise value) }
{
    alone(alloc, CoreStat::Return(value))
}
