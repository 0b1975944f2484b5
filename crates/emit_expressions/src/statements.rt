//! Parts of statements and functions (ECMA-262, 5.1 edition, 12, 13).

ghost use Rattle.std.specs.Prelude.{◌≡◌, ◌++◌, IfOk, OnOk};
ghost use Rattle.emission_rules.specs.Nodes.{block, declared, expression, function, variables};

use crate::leaves::{identifier, nowhere};
use es5_ast::{Block5, Declared5, Expr5, Identifier5, Stat5};
use es5_nodes::lists::push;
use es5_nodes::{expressions, parts, statements};
use sqlite_items::{Boxed, Items};
use std::alloc::{AllocError, Global};

/// Statements in braces (12.1).
pub fn block(statements: Items<Stat5>) -> Block5
    ensures { result ≡ block statements }
{
    Block5 {
        span: nowhere(),
        statements,
    }
}

/// An expression as a statement (12.4).
pub fn expression(alloc: Global, value: Boxed<Expr5>) -> Result<Boxed<Stat5>, AllocError>
    ensures { IfOk result (λ x. x ≡ expression value) }
{
    statements::expression(alloc, nowhere(), value)
}

/// A variable with this name, from its bytes, and what it is initialized with (12.2).
pub fn declared(
    alloc: Global,
    text: &[u8],
    init: Option<Boxed<Expr5>>,
) -> Result<Boxed<Declared5>, AllocError>
    ensures { IfOk result (λ x. x ≡ declared text.now init) }
{
    let name = identifier(alloc, text)?;
    parts::declared(alloc, nowhere(), name, init)
}

/// A statement that declares these, if there are any (12.2).
pub fn push_variables(
    alloc: Global,
    declared: Items<Declared5>,
    out: &mut Items<Stat5>,
) -> Result<(), AllocError>
    ensures { OnOk result (out.new ≡ out.old ++ variables declared) }
{
    if declared.is_empty() {
        return Ok(());
    }
    push(out, statements::variables(alloc, nowhere(), declared)?)
}

fn boxed(alloc: Global, own: Option<Identifier5>) -> Result<Option<Boxed<Identifier5>>, AllocError>
    ensures { IfOk result (λ x. x ≡ own) }
{
    match own {
        Some(own) => Ok(Some(Boxed::new(alloc, own)?)),
        None => Ok(None),
    }
}

/// A function as an expression (13).
pub fn function(
    alloc: Global,
    own: Option<Identifier5>,
    parameters: Items<Identifier5>,
    body: Items<Stat5>,
) -> Result<Boxed<Expr5>, AllocError>
    ensures { IfOk result (λ x. x ≡ function own parameters body) }
{
    let own = boxed(alloc, own)?;
    let made = parts::function(alloc, nowhere(), own, parameters, body)?;
    Ok(expressions::function(alloc, made)?.into_value())
}
