//! `if` and `switch` (ECMA-262, 6th edition, 13.6 and 13.12).

ghost use Rattle.std.specs.Prelude.{◌≡◌, ◌++◌, IfOk, OnOk};
ghost use Rattle.lowering_rules.specs.statement_rules.Statements.{branch, chosen, if_chain, otherwise, switch};

use crate::blocks::lower_block;
use crate::jumps::labelled;
use core_ast::{CoreCase, CoreExpr, CoreStat, Declared, ScopedName, Var, variable};
use lower_parts::{alone, set};
use lowering_rules::statement_rules::SwitchParts;
use sqlite_items::Items;
use std::alloc::{AllocError, Global};

/// A case of an `if`.
pub fn branch(test: CoreExpr, body: Items<CoreStat>) -> CoreCase
    ensures { result ≡ branch test body }
{
    let test = Some(test);
    CoreCase { test, body }
}

#[tactic(auto, unfolding(lowering_rules::specs::statement_rules::Statements::otherwise))]
fn push_otherwise(
    other: Option<Items<CoreStat>>,
    out: &mut Items<CoreCase>,
) -> Result<(), AllocError>
    ensures { OnOk result (out.new ≡ out.old ++ otherwise other) }
{
    match other {
        Some(body) => {
            let test = None;
            out.push(CoreCase { test, body })
        }
        None => Ok(()),
    }
}

/// The first case whose test holds, or else the last statements.
pub fn lower_if(
    alloc: Global,
    first: CoreCase,
    more: Items<CoreCase>,
    other: Option<Items<CoreStat>>,
) -> Result<CoreStat, AllocError>
    ensures { IfOk result (λ s. s ≡ if_chain first more other) }
{
    let mut cases = Items::new(alloc);
    cases.push(first)?;
    cases.append(more)?;
    push_otherwise(other, &mut cases)?;
    Ok(CoreStat::If { cases })
}

fn chosen(
    alloc: Global,
    kept: Var,
    names: Items<ScopedName>,
    functions: Items<Declared>,
    cases: Items<CoreCase>,
) -> Result<Items<CoreStat>, AllocError>
    ensures { IfOk result (λ ss. ss ≡ chosen kept names functions cases) }
{
    let subject = variable(alloc, kept);
    let choice = alone(alloc, CoreStat::Switch { subject, cases })?;
    lower_block(alloc, names, functions, choice)
}

/// A switch: its subject is kept before the scope of its cases is entered.
pub fn lower_switch(alloc: Global, parts: SwitchParts) -> Result<Items<CoreStat>, AllocError>
    ensures { IfOk result (λ ss. ss ≡ switch parts) }
{
    let SwitchParts {
        label,
        kept,
        subject,
        names,
        functions,
        cases,
    } = parts;
    let mut out = alone(alloc, set(alloc, kept, subject)?)?;
    let body = chosen(alloc, kept, names, functions, cases)?;
    out.push(labelled(label, body))?;
    Ok(out)
}
