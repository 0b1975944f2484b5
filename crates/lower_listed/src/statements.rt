//! What the statements of one list declare.

ghost use Rattle.std.specs.Prelude.{◌≡◌, ◌++◌, map, IfOk};
ghost use Rattle.lower_listed.specs.Hoisted.{hoisted_of};
ghost use Rattle.module_lowering.specs.Lowered.{statement_lowered};
ghost use Rattle.module_lowering.specs.Statements.{listed};

use crate::functions::{HoistedAt, push_functions};
use crate::lexicals::push_lexicals;
use crate::names::NamedAt;
use crate::variables::push_all;
use es6_ast::Statement;
use sqlite_items::Items;
use std::alloc::{AllocError, Global};

/// The names that `var` declares in them.
pub fn statements_variables<'a>(
    alloc: Global,
    statements: &'a [Statement],
) -> Result<Items<NamedAt<'a>>, AllocError>
    ensures { IfOk result (λ names. names ≡ (listed (map statement_lowered statements.now)).variables) }
{
    let mut names = Items::new(alloc);
    push_all(statements, &mut names)?;
    Ok(names)
}

/// The places of their lexical names, but those of functions.
pub fn statements_lexicals(
    alloc: Global,
    statements: &[Statement],
) -> Result<Items<u32>, AllocError>
    ensures { IfOk result (λ ats. ats ≡ (listed (map statement_lowered statements.now)).lexicals) }
{
    let mut ats = Items::new(alloc);
    for statement in statements {
        push_lexicals(statement, &mut ats)?;
    }
    Ok(ats)
}

/// Their functions.
pub fn statements_functions<'a>(
    alloc: Global,
    statements: &'a [Statement],
) -> Result<Items<HoistedAt<'a>>, AllocError>
    ensures { IfOk result (λ hs. map hoisted_of hs ≡ (listed (map statement_lowered statements.now)).functions) }
{
    let mut hoisted = Items::new(alloc);
    for statement in statements {
        push_functions(statement, &mut hoisted)?;
    }
    Ok(hoisted)
}

/// The places of the names of a scope: of its lexical names, and then of its functions (ECMA-262, 6th edition, 13.2.5).
pub fn scope_places(
    alloc: Global,
    lexicals: &[u32],
    functions: &[HoistedAt],
) -> Result<Items<u32>, AllocError>
    ensures { IfOk result (λ ats. ats ≡ lexicals.now ++ map (λ h. h.at) (map hoisted_of functions.now)) }
{
    let mut ats = Items::from_slice(alloc, lexicals)?;
    for function in functions {
        ats.push(function.at)?;
    }
    Ok(ats)
}
