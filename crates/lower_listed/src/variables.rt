//! The names that `var` declares in a statement (VarDeclaredNames, ECMA-262, 6th edition, 13). No function in it is entered.

ghost use Rattle.std.specs.Prelude.{◌≡◌, ◌++◌, map, OnOk};
ghost use Rattle.std.specs.Option.{option_map};
ghost use Rattle.es6_static_semantics.specs.Findings.{joined, maybe};
ghost use Rattle.module_lowering.specs.Lowered.{block_lowered, case_lowered, catch_lowered, condition_lowered, for_first_lowered, for_target_lowered, part_lowered, pattern_lowered, statement_lowered};
ghost use Rattle.module_lowering.specs.Statements.{listed, parts_names, variables_of};

use crate::names::NamedAt;
use crate::patterns::{push_parts, push_pattern};
use es6_ast::{
    Block, Case, Catch, Condition, ForFirst, ForTarget, Part, Pattern, Statement, VariableKind,
};
use sqlite_items::{Boxed, Items};
use std::alloc::AllocError;

fn push_vars<'a>(
    kind: VariableKind,
    parts: &'a [Part],
    out: &mut Items<NamedAt<'a>>,
) -> Result<(), AllocError>
    ensures { OnOk result (out.new ≡ out.old ++ variables_of kind (parts_names (map part_lowered parts.now))) }
{
    match kind {
        VariableKind::Var => push_parts(parts, out),
        VariableKind::Let | VariableKind::Const => Ok(()),
    }
}

fn push_var_pattern<'a>(
    kind: VariableKind,
    pattern: &'a Pattern,
    out: &mut Items<NamedAt<'a>>,
) -> Result<(), AllocError>
    ensures { OnOk result (out.new ≡ out.old ++ variables_of kind (pattern_lowered pattern.now).names) }
{
    match kind {
        VariableKind::Var => push_pattern(pattern, out),
        VariableKind::Let | VariableKind::Const => Ok(()),
    }
}

#[tactic(auto, unfolding(module_lowering::specs::Lowered::for_first_lowered, module_lowering::specs::Lowered::part_lowered))]
fn push_first<'a>(first: &'a ForFirst, out: &mut Items<NamedAt<'a>>) -> Result<(), AllocError>
    ensures { OnOk result (out.new ≡ out.old ++ (for_first_lowered first.now).variables) }
{
    match first {
        ForFirst::FirstVariables { kind, parts, .. } => push_vars(*kind, parts.as_slice(), out),
        ForFirst::NoFirst | ForFirst::FirstExpression(_) => Ok(()),
    }
}

#[tactic(auto, unfolding(module_lowering::specs::Lowered::for_target_lowered, module_lowering::specs::Lowered::pattern_lowered))]
fn push_for_target<'a>(
    target: &'a ForTarget,
    out: &mut Items<NamedAt<'a>>,
) -> Result<(), AllocError>
    ensures { OnOk result (out.new ≡ out.old ++ (for_target_lowered target.now).variables) }
{
    match target {
        ForTarget::Declared { kind, pattern, .. } => push_var_pattern(*kind, pattern, out),
        ForTarget::Assigned(_) => Ok(()),
    }
}

/// Adds the names that `var` declares in a statement.
#[cycle(variables)]
#[tactic(auto, unfolding(module_lowering::specs::Lowered::statement_lowered, module_lowering::specs::Lowered::block_lowered, module_lowering::specs::Lowered::case_lowered, module_lowering::specs::Lowered::catch_lowered, module_lowering::specs::Lowered::condition_lowered, module_lowering::specs::Lowered::for_first_lowered, module_lowering::specs::Lowered::for_target_lowered, module_lowering::specs::Lowered::part_lowered), using(crate::proofs::Labels::labelled_variables))]
pub fn push_variables<'a>(
    statement: &'a Statement,
    out: &mut Items<NamedAt<'a>>,
) -> Result<(), AllocError>
    ensures { OnOk result (out.new ≡ out.old ++ (statement_lowered statement.now).listed.variables) }
{
    match statement {
        Statement::Block(block) => push_block(block, out),
        Statement::Variables { kind, parts, .. } => push_vars(*kind, parts.as_slice(), out),
        Statement::If {
            first,
            more,
            otherwise,
            ..
        } => {
            push_condition(first, out)?;
            push_conditions(more.as_slice(), out)?;
            push_otherwise(otherwise, out)
        }
        Statement::For { first, body, .. } => {
            push_first(first.get(), out)?;
            push_variables(body.get(), out)
        }
        Statement::ForOf { target, body, .. } => {
            push_for_target(target.get(), out)?;
            push_variables(body.get(), out)
        }
        Statement::DoWhile { body, .. }
        | Statement::While { body, .. }
        | Statement::Labelled { body, .. } => push_variables(body.get(), out),
        Statement::Switch { cases, .. } => push_cases(cases.as_slice(), out),
        Statement::Try {
            block,
            catch,
            finally,
            ..
        } => {
            push_block(block, out)?;
            push_catch(catch, out)?;
            push_finally(finally, out)
        }
        _ => Ok(()),
    }
}

#[cycle(variables)]
#[tactic(auto, using(lower_walk::proofs::Layers::block_out))]
fn push_block<'a>(block: &'a Block, out: &mut Items<NamedAt<'a>>) -> Result<(), AllocError>
    ensures { OnOk result (out.new ≡ out.old ++ (block_lowered block.now).variables) }
{
    push_all(block.statements.as_slice(), out)
}

#[cycle(variables)]
pub(crate) fn push_all<'a>(
    statements: &'a [Statement],
    out: &mut Items<NamedAt<'a>>,
) -> Result<(), AllocError>
    ensures { OnOk result (out.new ≡ out.old ++ (listed (map statement_lowered statements.now)).variables) }
{
    for statement in statements {
        push_variables(statement, out)?;
    }
    Ok(())
}

#[cycle(variables)]
#[tactic(auto, using(lower_walk::proofs::Layers::condition_out))]
fn push_condition<'a>(
    condition: &'a Condition,
    out: &mut Items<NamedAt<'a>>,
) -> Result<(), AllocError>
    ensures { OnOk result (out.new ≡ out.old ++ (condition_lowered condition.now).variables) }
{
    push_variables(condition.body.get(), out)
}

#[cycle(variables)]
fn push_conditions<'a>(
    conditions: &'a [Condition],
    out: &mut Items<NamedAt<'a>>,
) -> Result<(), AllocError>
    ensures { OnOk result (out.new ≡ out.old ++ joined (λ c. c.variables) (map condition_lowered conditions.now)) }
{
    for condition in conditions {
        push_condition(condition, out)?;
    }
    Ok(())
}

#[cycle(variables)]
fn push_otherwise<'a>(
    statement: &'a Option<Boxed<Statement>>,
    out: &mut Items<NamedAt<'a>>,
) -> Result<(), AllocError>
    ensures { OnOk result (out.new ≡ out.old ++ maybe (λ s. s.listed.variables) (option_map statement_lowered statement.now)) }
{
    match statement {
        None => Ok(()),
        Some(statement) => push_variables(statement.get(), out),
    }
}

#[cycle(variables)]
#[tactic(auto, unfolding(module_lowering::specs::Lowered::case_lowered, module_lowering::specs::Lowered::statement_lowered))]
fn push_cases<'a>(cases: &'a [Case], out: &mut Items<NamedAt<'a>>) -> Result<(), AllocError>
    ensures { OnOk result (out.new ≡ out.old ++ joined (λ c. c.body.variables) (map case_lowered cases.now)) }
{
    for case in cases {
        push_all(case.body.as_slice(), out)?;
    }
    Ok(())
}

#[cycle(variables)]
#[tactic(auto, using(lower_walk::proofs::Layers::catch_out))]
fn push_catch<'a>(
    catch: &'a Option<Boxed<Catch>>,
    out: &mut Items<NamedAt<'a>>,
) -> Result<(), AllocError>
    ensures { OnOk result (out.new ≡ out.old ++ maybe (λ h. h.block.variables) (option_map catch_lowered catch.now)) }
{
    match catch {
        None => Ok(()),
        Some(catch) => push_block(&catch.get().body, out),
    }
}

#[cycle(variables)]
fn push_finally<'a>(
    block: &'a Option<Block>,
    out: &mut Items<NamedAt<'a>>,
) -> Result<(), AllocError>
    ensures { OnOk result (out.new ≡ out.old ++ maybe (λ l. l.variables) (option_map block_lowered block.now)) }
{
    match block {
        None => Ok(()),
        Some(block) => push_block(block, out),
    }
}
