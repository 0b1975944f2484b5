//! The names that statements declare (13.1.2 to 13.1.8), each list in text order.

ghost use Rattle.std.specs.Prelude.{◌≡◌, ◌++◌, map, OnOk};
ghost use Rattle.es6_static_semantics.specs.Findings.{joined};
ghost use Rattle.es6_static_semantics.specs.Early.{block_lexical, lexical_names, parameter_names, part_found, some_name, statement_found};

use crate::names::PlacedName;
use crate::patterns::{add_optional_name, add_part_names};
use es6_ast::{Part, Statement, VariableKind};
use std::alloc::AllocError;

/// Adds the names of variables that are lexical.
pub fn add_lexical_names<'a>(
    names: &mut Vec<PlacedName<'a>>,
    kind: VariableKind,
    parts: &'a [Part],
) -> Result<(), AllocError>
    ensures { OnOk result (names.new.items ≡ names.old.items ++ lexical_names kind (parameter_names (map part_found parts.now))) }
{
    match kind {
        VariableKind::Var => Ok(()),
        VariableKind::Let | VariableKind::Const => add_part_names(names, parts),
    }
}

/// Adds the lexical names that a statement declares, without that of a function.
fn add_lexical<'a>(
    names: &mut Vec<PlacedName<'a>>,
    statement: &'a Statement,
) -> Result<(), AllocError>
    ensures { OnOk result (names.new.items ≡ names.old.items ++ (statement_found statement.now).lexical) }
{
    match statement {
        Statement::Variables { kind, parts, .. } => {
            add_lexical_names(names, *kind, parts.as_slice())
        }
        Statement::ClassDeclaration(class) => add_optional_name(names, &class.get().name),
        _ => Ok(()),
    }
}

/// The name of the function that a statement declares, behind labels too (13.2.5, 13.13.6).
pub fn function_name<'a>(statement: &'a Statement) -> Option<PlacedName<'a>>
    ensures { some_name result ≡ (statement_found statement.now).functions }
{
    match statement {
        Statement::FunctionDeclaration(function) => match &function.get().name {
            None => None,
            Some(name) => Some(PlacedName::of(name)),
        },
        Statement::Labelled { body, .. } => function_name(body.get()),
        _ => None,
    }
}

/// Adds the lexical names that a statement declares, where a function's is one.
pub fn add_statement_lexical<'a>(
    names: &mut Vec<PlacedName<'a>>,
    statement: &'a Statement,
) -> Result<(), AllocError>
    ensures { OnOk result (names.new.items ≡ names.old.items ++ (statement_found statement.now).lexical ++ (statement_found statement.now).functions) }
{
    add_lexical(names, statement)?;
    if let Some(name) = function_name(statement) {
        names.push(name)?;
    }
    Ok(())
}

/// Adds the lexical names of a block's statements, where a function's is one.
pub fn add_block_lexical<'a>(
    names: &mut Vec<PlacedName<'a>>,
    statements: &'a [Statement],
) -> Result<(), AllocError>
    ensures { OnOk result (names.new.items ≡ names.old.items ++ block_lexical (map statement_found statements.now)) }
{
    for statement in statements {
        add_statement_lexical(names, statement)?;
    }
    Ok(())
}

/// Adds the lexical names of a body's statements, where a function's is none.
pub fn add_body_lexical<'a>(
    names: &mut Vec<PlacedName<'a>>,
    statements: &'a [Statement],
) -> Result<(), AllocError>
    ensures { OnOk result (names.new.items ≡ names.old.items ++ joined (λ s. s.lexical) (map statement_found statements.now)) }
{
    for statement in statements {
        add_lexical(names, statement)?;
    }
    Ok(())
}

/// Whether a statement is a loop, behind labels too (13.13).
pub fn is_loop(statement: &Statement) -> bool
    ensures { result ≡ (statement_found statement.now).is_loop }
{
    match statement {
        Statement::DoWhile { .. }
        | Statement::While { .. }
        | Statement::For { .. }
        | Statement::ForOf { .. } => true,
        Statement::Labelled { body, .. } => is_loop(body.get()),
        _ => false,
    }
}

/// Whether a statement is a function by itself (13.13.1).
pub fn is_function(statement: &Statement) -> bool
    ensures { result ≡ (statement_found statement.now).is_function }
{
    match statement {
        Statement::FunctionDeclaration(_) => true,
        _ => false,
    }
}
