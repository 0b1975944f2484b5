//! What is declared: names that aren't initialized, and functions (ECMA-262, 6th edition, 9.2.12 and 15.2.1.16.4).

ghost use Rattle.std.specs.Prelude.{◌≡◌, ◌++◌, map, OnOk};
ghost use Rattle.lowering_rules.specs.statement_rules.Bodies.{declared};
ghost use Rattle.lowering_rules.specs.Making.{uninitialized};

use core_ast::{CoreStat, Declared, ScopedName, Var};
use lower_parts::uninitialized;
use lower_statements::push_hoisted;
use sqlite_items::Items;
use std::alloc::{AllocError, Global};

fn push_uninitialized(
    alloc: Global,
    names: &[ScopedName],
    out: &mut Items<CoreStat>,
) -> Result<(), AllocError>
    ensures { OnOk result (out.new ≡ out.old ++ map (λ n. uninitialized n.var) names.now) }
{
    for name in names {
        out.push(uninitialized(alloc, name.var)?)?;
    }
    Ok(())
}

/// Lexical names are uninitialized, and the functions are made.
pub(crate) fn push_declared(
    alloc: Global,
    lexical: &[ScopedName],
    functions: &[Declared],
    out: &mut Items<CoreStat>,
) -> Result<(), AllocError>
    ensures { OnOk result (out.new ≡ out.old ++ declared lexical.now functions.now) }
{
    push_uninitialized(alloc, lexical, out)?;
    push_hoisted(alloc, functions, out)
}

/// The variables of the names.
pub(crate) fn push_vars(names: &[ScopedName], out: &mut Items<Var>) -> Result<(), AllocError>
    ensures { OnOk result (out.new ≡ out.old ++ map (λ n. n.var) names.now) }
{
    for name in names {
        out.push(name.var)?;
    }
    Ok(())
}
