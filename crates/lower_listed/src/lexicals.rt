//! The names that are lexical, but those of functions (LexicallyScopedDeclarations, ECMA-262, 6th edition, 13.2.6).

ghost use Rattle.std.specs.Prelude.{◌≡◌, ◌++◌, map, OnOk};
ghost use Rattle.module_lowering.specs.Lowered.{class_lowered, part_lowered, statement_lowered};
ghost use Rattle.module_lowering.specs.Statements.{class_named, lexicals_of, parts_names};

use crate::places::push_parts_places;
use es6_ast::{Class, Part, Statement, VariableKind};
use sqlite_items::Items;
use std::alloc::AllocError;

fn push_part_places(
    kind: VariableKind,
    parts: &[Part],
    out: &mut Items<u32>,
) -> Result<(), AllocError>
    ensures { OnOk result (out.new ≡ out.old ++ lexicals_of kind (parts_names (map part_lowered parts.now))) }
{
    match kind {
        VariableKind::Var => Ok(()),
        VariableKind::Let | VariableKind::Const => push_parts_places(parts, out),
    }
}

#[tactic(auto, unfolding(module_lowering::specs::Lowered::class_lowered))]
fn push_class(class: &Class, out: &mut Items<u32>) -> Result<(), AllocError>
    ensures { OnOk result (out.new ≡ out.old ++ (class_named (class_lowered class.now) (class_lowered class.now).name).lexicals) }
{
    match &class.name {
        None => Ok(()),
        Some(name) => out.push(name.span.begin),
    }
}

/// Adds the places of the lexical names that a statement declares for what is round it, but those of functions.
#[tactic(auto, unfolding(module_lowering::specs::Lowered::statement_lowered, module_lowering::specs::Lowered::class_lowered, module_lowering::specs::Lowered::part_lowered), using(crate::proofs::Labels::labelled_lexicals))]
pub fn push_lexicals(statement: &Statement, out: &mut Items<u32>) -> Result<(), AllocError>
    ensures { OnOk result (out.new ≡ out.old ++ (statement_lowered statement.now).listed.lexicals) }
{
    match statement {
        Statement::Variables { kind, parts, .. } => push_part_places(*kind, parts.as_slice(), out),
        Statement::ClassDeclaration(class) => push_class(class.get(), out),
        Statement::Labelled { body, .. } => push_lexicals(body.get(), out),
        // what these hold is declared in a scope of its own, or by `var`
        Statement::Block(_) => Ok(()),
        Statement::If { .. } => Ok(()),
        Statement::DoWhile { .. } => Ok(()),
        Statement::While { .. } => Ok(()),
        Statement::For { .. } => Ok(()),
        Statement::ForOf { .. } => Ok(()),
        Statement::Switch { .. } => Ok(()),
        Statement::Try { .. } => Ok(()),
        Statement::FunctionDeclaration(_) => Ok(()),
        Statement::Empty { .. } => Ok(()),
        Statement::Expression { .. } => Ok(()),
        Statement::Continue { .. } => Ok(()),
        Statement::Break { .. } => Ok(()),
        Statement::Return { .. } => Ok(()),
        Statement::Throw { .. } => Ok(()),
        Statement::Debugger { .. } => Ok(()),
    }
}
