//! for-of (ECMA-262, 6th edition, 13.7.5).

ghost use Rattle.std.specs.Prelude.{◌≡◌, [], ◌∷◌, ◌++◌, true, None, Some, IfOk, OnOk};
ghost use Rattle.core_ast.specs.declared.tree.CoreStat.TheVariants as stat;
ghost use Rattle.lowering_rules.specs.Iteration.{begun, closing, for_of, next_turn, turn, value_of};
ghost use Rattle.lowering_rules.specs.Making.{flag, set};

use crate::iteration::{closing, has_result, iterator_of, opened, stepped, value_of};
use core_ast::{CoreExpr, CoreStat, Label, ScopedName};
use lower_parts::{alone, flag, push_scoped, set, stored, then};
use lowering_rules::{ForOf, Iteration};
use sqlite_items::Items;
use std::alloc::{AllocError, Global};

fn push_begun(
    alloc: Global,
    names: Iteration,
    dead: Items<ScopedName>,
    subject: CoreExpr,
    out: &mut Items<CoreStat>,
) -> Result<(), AllocError>
    ensures { OnOk result (out.new ≡ out.old ++ begun names dead subject) }
{
    let iterator = iterator_of(alloc, subject)?;
    let start = alone(alloc, set(alloc, names.iterator, iterator)?)?;
    push_scoped(dead, start, out)
}

/// A step, and whether there is a turn.
fn next_turn(alloc: Global, names: Iteration) -> Result<CoreExpr, AllocError>
    ensures { IfOk result (λ x. x ≡ next_turn names) }
{
    let start = stored(alloc, names.is_open, flag(alloc, false))?;
    let step = then(alloc, start, stepped(alloc, names)?)?;
    then(alloc, step, has_result(alloc, names)?)
}

/// The value of the step; from then on the iterator is open.
fn taken(alloc: Global, names: Iteration) -> Result<Items<CoreStat>, AllocError>
    ensures { IfOk result (λ ss. ss ≡ set names.value (value_of names) ∷ set names.is_open (flag true) ∷ []) }
{
    let value = value_of(alloc, names)?;
    let mut out = alone(alloc, set(alloc, names.value, value)?)?;
    out.push(opened(alloc, names, true)?)?;
    Ok(out)
}

fn turn(
    alloc: Global,
    names: Iteration,
    scope: Items<ScopedName>,
    body: Items<CoreStat>,
) -> Result<Items<CoreStat>, AllocError>
    ensures { IfOk result (λ ss. ss ≡ turn names scope body) }
{
    let mut out = taken(alloc, names)?;
    push_scoped(scope, body, &mut out)?;
    Ok(out)
}

fn turns(
    alloc: Global,
    names: Iteration,
    labels: Items<Label>,
    body: Items<CoreStat>,
) -> Result<CoreStat, AllocError>
    ensures { IfOk result (λ s. s ≡ closing names (stat.Loop labels (Some (next_turn names)) None body ∷ [])) }
{
    let test = next_turn(alloc, names)?;
    let turns = CoreStat::Loop {
        labels,
        test: Some(test),
        update: None,
        body,
    };
    closing(alloc, names, alone(alloc, turns)?)
}

/// A loop over the values of the subject's iterator.
pub fn lower_for_of(
    alloc: Global,
    names: Iteration,
    parts: ForOf,
) -> Result<Items<CoreStat>, AllocError>
    ensures { IfOk result (λ ss. ss ≡ for_of names parts) }
{
    let mut out = Items::new(alloc);
    push_begun(alloc, names, parts.dead, parts.subject, &mut out)?;
    out.push(opened(alloc, names, false)?)?;
    let body = turn(alloc, names, parts.names, parts.turn)?;
    out.push(turns(alloc, names, parts.labels, body)?)?;
    Ok(out)
}
