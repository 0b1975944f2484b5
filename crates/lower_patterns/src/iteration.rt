//! The operations of iterators, and the closing of one (ECMA-262, 6th edition, 7.4).

ghost use Rattle.std.specs.Prelude.{◌≡◌, [], ◌∷◌, true, false, IfOk};
ghost use Rattle.core_ast.specs.Made.{variable};
ghost use Rattle.core_ast.specs.declared.tree.CoreStat.TheVariants as stat;
ghost use Rattle.lowering_rules.specs.Iteration.{closed, closed_by_throw, closing, has_result, iterator_of, stepped, value_of};
ghost use Rattle.lowering_rules.specs.Making.{flag, set, when};

use core_ast::{CoreExpr, CoreStat, Primitive, variable};
use lower_parts::{alone, differs, flag, number, set, stored, through, through_with, when};
use lowering_rules::Iteration;
use sqlite_items::Items;
use std::alloc::{AllocError, Global};

/// An iterator of the value.
pub(crate) fn iterator_of(alloc: Global, value: CoreExpr) -> Result<CoreExpr, AllocError>
    ensures { IfOk result (λ x. x ≡ iterator_of value) }
{
    through_with(alloc, value, Primitive::IterStart, number(alloc, 0))
}

/// The next result object, or false.
pub(crate) fn stepped(alloc: Global, names: Iteration) -> Result<CoreExpr, AllocError>
    ensures { IfOk result (λ x. x ≡ stepped names) }
{
    let iterator = variable(alloc, names.iterator);
    let result = through(alloc, iterator, Primitive::IterStep)?;
    stored(alloc, names.result, result)
}

/// Whether there is a result object.
pub(crate) fn has_result(alloc: Global, names: Iteration) -> Result<CoreExpr, AllocError>
    ensures { IfOk result (λ x. x ≡ has_result names) }
{
    differs(alloc, variable(alloc, names.result), flag(alloc, false))
}

/// The value of the result object.
pub(crate) fn value_of(alloc: Global, names: Iteration) -> Result<CoreExpr, AllocError>
    ensures { IfOk result (λ x. x ≡ value_of names) }
{
    through(alloc, variable(alloc, names.result), Primitive::IterValue)
}

/// The iterator is to be closed from now on, or isn't.
pub(crate) fn opened(alloc: Global, names: Iteration, is_open: bool) -> Result<CoreStat, AllocError>
    ensures { IfOk result (λ s. s ≡ set names.is_open (flag is_open)) }
{
    set(alloc, names.is_open, flag(alloc, is_open))
}

/// Statements for an iterator that is to be closed.
pub(crate) fn when_open(
    alloc: Global,
    names: Iteration,
    body: Items<CoreStat>,
) -> Result<CoreStat, AllocError>
    ensures { IfOk result (λ s. s ≡ when (variable names.is_open) body) }
{
    when(alloc, variable(alloc, names.is_open), body)
}

/// The iterator is closed.
fn closed(alloc: Global, names: Iteration, throws: bool) -> Result<CoreStat, AllocError>
    ensures { IfOk result (λ s. s ≡ closed names throws) }
{
    let iterator = variable(alloc, names.iterator);
    let throws = flag(alloc, throws);
    let close = through_with(alloc, iterator, Primitive::IterClose, throws)?;
    Ok(CoreStat::Do(close))
}

fn close_once(alloc: Global, names: Iteration) -> Result<Items<CoreStat>, AllocError>
    ensures { IfOk result (λ ss. ss ≡ set names.is_open (flag false) ∷ closed names true ∷ []) }
{
    let mut close = alone(alloc, opened(alloc, names, false)?)?;
    close.push(closed(alloc, names, true)?)?;
    Ok(close)
}

/// An iterator that is open is closed, and what was thrown goes on.
fn closed_by_throw(alloc: Global, names: Iteration) -> Result<Items<CoreStat>, AllocError>
    ensures { IfOk result (λ ss. ss ≡ closed_by_throw names) }
{
    let close = close_once(alloc, names)?;
    let mut handler = alone(alloc, when_open(alloc, names, close)?)?;
    handler.push(CoreStat::Throw(variable(alloc, names.thrown)))?;
    Ok(handler)
}

fn caught(alloc: Global, names: Iteration, body: Items<CoreStat>) -> Result<CoreStat, AllocError>
    ensures { IfOk result (λ s. s ≡ stat.TryCatch body names.thrown [] (closed_by_throw names)) }
{
    let handler = closed_by_throw(alloc, names)?;
    Ok(CoreStat::TryCatch {
        block: body,
        parameter: names.thrown,
        names: Items::new(alloc),
        handler,
    })
}

fn closed_at_end(alloc: Global, names: Iteration) -> Result<Items<CoreStat>, AllocError>
    ensures { IfOk result (λ ss. ss ≡ when (variable names.is_open) (closed names false ∷ []) ∷ []) }
{
    let close = alone(alloc, closed(alloc, names, false)?)?;
    alone(alloc, when_open(alloc, names, close)?)
}

/// The statements, behind which an open iterator is closed, however they are left.
pub(crate) fn closing(
    alloc: Global,
    names: Iteration,
    body: Items<CoreStat>,
) -> Result<CoreStat, AllocError>
    ensures { IfOk result (λ s. s ≡ closing names body) }
{
    let block = alone(alloc, caught(alloc, names, body)?)?;
    let last = closed_at_end(alloc, names)?;
    Ok(CoreStat::TryFinally { block, last })
}
