//! What is known of one module's bindings and references.

ghost use Rattle.std.specs.Prelude.{◌≡◌, ℕ, ◌++◌, IfOk, OnOk};
ghost use Rattle.binding_tables.specs.Rows.{rows_of};
ghost use Rattle.scope_analysis.specs.Scopes.{AreModuleScopes, captured_row, captured_rows, count_uncertain, declared_rows, referred_rows, unsure_rows};

use crate::globals::id_of;
use binding_tables::{BindingId, NumberedNames, Row, Table};
use scope_rules::scope_tables::{Declared, Names, Reference, Resolved};
use std::alloc::{AllocError, Global};

/// A module's bindings by their numbers and by scope and name, and tables of what its names declare and refer to by place, of the references that are not
/// certain by place, and of those from a function inside the binding's scope by the binding's number.
#[derive(Drop)]
pub(crate) struct ModuleScopes<'a> {
    pub(crate) names: Names<'a>,
    pub(crate) declared: Table,
    pub(crate) referred: Table,
    pub(crate) unsure: Table,
    pub(crate) captured: Table,
    pub(crate) uncertain: usize,
}

/// What is known of the module of a number, by what its marks say, among the names that no scope declares.
pub(crate) fn module_scopes<'a>(
    alloc: Global,
    home: usize,
    globals: &NumberedNames<'a>,
    resolved: Resolved<'a>,
) -> Result<ModuleScopes<'a>, AllocError>
    ensures { IfOk result (λ s. AreModuleScopes home globals.now resolved.entry.names resolved.entry.declared.items resolved.entry.references.items s) }
{
    let Resolved {
        names,
        declared,
        references,
    } = resolved;
    let references = references.as_slice();
    Ok(ModuleScopes {
        declared: declared_table(alloc, home, declared.as_slice())?,
        referred: referred_table(alloc, home, globals, references)?,
        unsure: unsure_table(alloc, home, globals, references)?,
        captured: captured_table(alloc, home, references)?,
        uncertain: count_uncertain(references),
        names,
    })
}

fn declared_table(alloc: Global, home: usize, declared: &[Declared]) -> Result<Table, AllocError>
    ensures { IfOk result (λ t. (at : ℕ) → rows_of at t ≡ rows_of at (declared_rows home declared.now)) }
{
    let mut rows = Vec::new(alloc);
    for name in declared {
        let binding = BindingId::Own {
            home,
            number: name.binding,
        };
        let key = name.at as usize;
        rows.push(Row { key, binding })?;
    }
    Table::of(alloc, rows)
}

fn referred_table<'a>(
    alloc: Global,
    home: usize,
    globals: &NumberedNames<'a>,
    references: &[Reference<'a>],
) -> Result<Table, AllocError>
    ensures { IfOk result (λ t. (at : ℕ) → rows_of at t ≡ rows_of at (referred_rows home globals.now references.now)) }
{
    let mut rows = Vec::new(alloc);
    for reference in references {
        let key = reference.at as usize;
        let binding = id_of(globals, home, reference);
        rows.push(Row { key, binding })?;
    }
    Table::of(alloc, rows)
}

fn unsure_table<'a>(
    alloc: Global,
    home: usize,
    globals: &NumberedNames<'a>,
    references: &[Reference<'a>],
) -> Result<Table, AllocError>
    ensures { IfOk result (λ t. (at : ℕ) → rows_of at t ≡ rows_of at (unsure_rows home globals.now references.now)) }
{
    let mut rows = Vec::new(alloc);
    for reference in references {
        if reference.is_certain {
            continue;
        }
        let key = reference.at as usize;
        let binding = id_of(globals, home, reference);
        rows.push(Row { key, binding })?;
    }
    Table::of(alloc, rows)
}

fn captured_table(alloc: Global, home: usize, references: &[Reference]) -> Result<Table, AllocError>
    ensures { IfOk result (λ t. (n : ℕ) → rows_of n t ≡ rows_of n (captured_rows home references.now)) }
{
    let mut rows = Vec::new(alloc);
    for reference in references {
        push_captured(&mut rows, home, reference.is_captured, reference.binding)?;
    }
    Table::of(alloc, rows)
}

/// The row of a reference to a binding of this number, if it is from a function inside the binding's scope.
fn push_captured(
    rows: &mut Vec<Row>,
    home: usize,
    is_captured: bool,
    binding: Option<usize>,
) -> Result<(), AllocError>
    ensures { OnOk result (rows.new.items ≡ rows.old.items ++ captured_row home is_captured binding) }
{
    if !is_captured {
        return Ok(());
    }
    match binding {
        None => Ok(()),
        Some(number) => {
            let binding = BindingId::Own { home, number };
            rows.push(Row {
                key: number,
                binding,
            })?;
            Ok(())
        }
    }
}

fn count_uncertain(references: &[Reference]) -> usize
    ensures { result ≡ count_uncertain references.now }
{
    let mut count = 0;
    for reference in references {
        if reference.is_uncertain {
            count += 1;
        }
    }
    count
}
