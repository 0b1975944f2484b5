//! Blocks and declarations (ECMA-262, 6th edition, 13.2, 13.3 and 14.5).

ghost use Rattle.std.specs.Prelude.{◌≡◌, ◌++◌, map, IfOk, OnOk};
ghost use Rattle.lowering_rules.specs.statement_rules.Statements.{assigned_var, block, class_declared, hoisted, lexical};

use core_ast::{
    CoreExpr, CoreHead, CoreStat, Declared, ScopedName, Var, expression, undefined, variable,
};
use lower_parts::{alone, initialize, push_scoped, set};
use sqlite_items::Items;
use std::alloc::{AllocError, Global};

fn hoisted(alloc: Global, one: Declared) -> Result<CoreStat, AllocError>
    ensures { IfOk result (λ s. s ≡ hoisted one) }
{
    let closure = expression(alloc, CoreHead::Function(one.function));
    initialize(alloc, one.var, closure)
}

/// The functions of a scope are made.
pub fn push_hoisted(
    alloc: Global,
    functions: &[Declared],
    out: &mut Items<CoreStat>,
) -> Result<(), AllocError>
    ensures { OnOk result (out.new ≡ out.old ++ map hoisted functions.now) }
{
    for function in functions {
        out.push(hoisted(alloc, *function)?)?;
    }
    Ok(())
}

/// A block with these names; its functions are there before its statements run.
pub fn lower_block(
    alloc: Global,
    names: Items<ScopedName>,
    functions: Items<Declared>,
    statements: Items<CoreStat>,
) -> Result<Items<CoreStat>, AllocError>
    ensures { IfOk result (λ ss. ss ≡ block names functions statements) }
{
    let mut body = Items::new(alloc);
    push_hoisted(alloc, functions.as_slice(), &mut body)?;
    body.append(statements)?;
    let mut out = Items::new(alloc);
    push_scoped(names, body, &mut out)?;
    Ok(out)
}

/// A name of a `let` or `const` is initialized.
#[tactic(auto, unfolding(lowering_rules::specs::statement_rules::Statements::lexical))]
pub fn lower_lexical(
    alloc: Global,
    var: Var,
    value: Option<CoreExpr>,
) -> Result<CoreStat, AllocError>
    ensures { IfOk result (λ s. s ≡ lexical var value) }
{
    match value {
        Some(value) => initialize(alloc, var, value),
        None => initialize(alloc, var, undefined(alloc)),
    }
}

/// A name of a `var` takes its value, where there is one.
#[tactic(auto, unfolding(lowering_rules::specs::statement_rules::Statements::assigned_var))]
pub fn lower_var(
    alloc: Global,
    var: Var,
    value: Option<CoreExpr>,
) -> Result<Items<CoreStat>, AllocError>
    ensures { IfOk result (λ ss. ss ≡ assigned_var var value) }
{
    match value {
        Some(value) => alone(alloc, set(alloc, var, value)?),
        None => Ok(Items::new(alloc)),
    }
}

/// A class that is declared: these statements make it, and then its outer name takes it.
pub fn lower_class_declaration(
    alloc: Global,
    outer: Var,
    class: Var,
    statements: Items<CoreStat>,
) -> Result<Items<CoreStat>, AllocError>
    ensures { IfOk result (λ ss. ss ≡ class_declared outer class statements) }
{
    let mut out = statements;
    out.push(initialize(alloc, outer, variable(alloc, class))?)?;
    Ok(out)
}
