//! The names that `var` declares in a statement (VarDeclaredNames, ECMA-262, 6th edition, 13). No function in it is entered.

ghost use Rattle.std.specs.Prelude.{◌≡◌, ◌++◌, map, OnOk};
ghost use Rattle.std.specs.Option.{option_map};
ghost use Rattle.es6_static_semantics.specs.Findings.{joined, maybe};
ghost use Rattle.es6_static_semantics.specs.Early.{block_found, block_vars, case_found, catch_found, condition_found, statement_found};
ghost use Rattle.declared_names.specs.Tried.{tried_vars};

use crate::heads::{add_first_vars, add_target_vars, add_vars};
use early_names::PlacedName;
use es6_ast::{Block, Case, Catch, Condition, Statement};
use sqlite_items::Boxed;
use std::alloc::AllocError;

/// Adds the names that `var` declares in a statement.
#[cycle(vars)]
pub fn add_var_names<'a>(
    names: &mut Vec<PlacedName<'a>>,
    statement: &'a Statement,
) -> Result<(), AllocError>
    ensures { OnOk result (names.new.items ≡ names.old.items ++ (statement_found statement.now).vars) }
{
    match statement {
        Statement::Block(block) => add_block(names, block),
        Statement::Variables { kind, parts, .. } => add_vars(names, *kind, parts.as_slice()),
        Statement::If {
            first,
            more,
            otherwise,
            ..
        } => {
            add_var_names(names, first.body.get())?;
            add_conditions(names, more.as_slice())?;
            add_otherwise(names, otherwise)
        }
        Statement::For { first, body, .. } => {
            add_first_vars(names, first.get())?;
            add_var_names(names, body.get())
        }
        Statement::ForOf { target, body, .. } => {
            add_target_vars(names, target.get())?;
            add_var_names(names, body.get())
        }
        Statement::DoWhile { body, .. }
        | Statement::While { body, .. }
        | Statement::Labelled { body, .. } => add_var_names(names, body.get()),
        Statement::Switch { cases, .. } => add_cases(names, cases.as_slice()),
        Statement::Try { .. } => add_tried(names, statement),
        _ => Ok(()),
    }
}

/// The parts of a try statement.
#[cycle(vars)]
fn add_tried<'a>(
    names: &mut Vec<PlacedName<'a>>,
    statement: &'a Statement,
) -> Result<(), AllocError>
    ensures { OnOk result (names.new.items ≡ names.old.items ++ tried_vars statement.now) }
{
    match statement {
        Statement::Try {
            block,
            catch,
            finally,
            ..
        } => {
            add_block(names, block)?;
            add_catch(names, catch)?;
            add_finally(names, finally)
        }
        _ => Ok(()),
    }
}

#[cycle(vars)]
#[tactic(auto, using(crate::proofs::Layers::block_out))]
fn add_block<'a>(names: &mut Vec<PlacedName<'a>>, block: &'a Block) -> Result<(), AllocError>
    ensures { OnOk result (names.new.items ≡ names.old.items ++ block_vars (block_found block.now)) }
{
    add_all(names, block.statements.as_slice())
}

#[cycle(vars)]
fn add_all<'a>(
    names: &mut Vec<PlacedName<'a>>,
    statements: &'a [Statement],
) -> Result<(), AllocError>
    ensures { OnOk result (names.new.items ≡ names.old.items ++ block_vars (map statement_found statements.now)) }
{
    for statement in statements {
        add_var_names(names, statement)?;
    }
    Ok(())
}

#[cycle(vars)]
fn add_conditions<'a>(
    names: &mut Vec<PlacedName<'a>>,
    conditions: &'a [Condition],
) -> Result<(), AllocError>
    ensures { OnOk result (names.new.items ≡ names.old.items ++ joined (λ c. c.vars) (map condition_found conditions.now)) }
{
    for condition in conditions {
        add_var_names(names, condition.body.get())?;
    }
    Ok(())
}

#[cycle(vars)]
fn add_otherwise<'a>(
    names: &mut Vec<PlacedName<'a>>,
    statement: &'a Option<Boxed<Statement>>,
) -> Result<(), AllocError>
    ensures { OnOk result (names.new.items ≡ names.old.items ++ maybe (λ s. s.vars) (option_map statement_found statement.now)) }
{
    match statement {
        None => Ok(()),
        Some(statement) => add_var_names(names, statement.get()),
    }
}

#[cycle(vars)]
fn add_cases<'a>(names: &mut Vec<PlacedName<'a>>, cases: &'a [Case]) -> Result<(), AllocError>
    ensures { OnOk result (names.new.items ≡ names.old.items ++ block_vars (joined (λ c. c.body) (map case_found cases.now))) }
{
    for case in cases {
        add_all(names, case.body.as_slice())?;
    }
    Ok(())
}

#[cycle(vars)]
fn add_catch<'a>(
    names: &mut Vec<PlacedName<'a>>,
    catch: &'a Option<Boxed<Catch>>,
) -> Result<(), AllocError>
    ensures { OnOk result (names.new.items ≡ names.old.items ++ maybe (λ h. h.vars) (option_map catch_found catch.now)) }
{
    match catch {
        None => Ok(()),
        Some(catch) => add_all(names, catch.get().body.statements.as_slice()),
    }
}

#[cycle(vars)]
fn add_finally<'a>(
    names: &mut Vec<PlacedName<'a>>,
    block: &'a Option<Block>,
) -> Result<(), AllocError>
    ensures { OnOk result (names.new.items ≡ names.old.items ++ maybe block_vars (option_map block_found block.now)) }
{
    match block {
        None => Ok(()),
        Some(block) => add_block(names, block),
    }
}
