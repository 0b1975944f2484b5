//! Names that patterns, parts, parameters and statements declare (ECMA-262, 6th edition, 13.2.11, 13.3.1.2, 13.3.3.1, 14.1.3), lent.

ghost use Rattle.std.specs.Prelude.{◌≡◌, ◌++◌, map, IfOk, OnOk};
ghost use Rattle.es6_static_semantics.specs.Early.{statement_found};
ghost use Rattle.source_meaning.specs.Trees.{has_name, name_of, parameters_names, parts_names, pattern_names, variables_in};

use declared_names::add_var_names;
use early_names::{PlacedName, add_parameter_names, add_part_names, add_pattern_names};
use es6_ast::{Parameter, Part, Pattern, Statement};
use source_state::{BorrowedName, Statements};
use sqlite_items::Items;
use std::alloc::{AllocError, Global};

/// Adds names without their places.
fn add_names<'a>(
    names: &mut Items<BorrowedName<'a>>,
    placed: &[PlacedName<'a>],
) -> Result<(), AllocError>
    ensures { OnOk result (names.new ≡ names.old ++ map name_of placed.now) }
{
    for name in placed {
        names.push(BorrowedName::of(name.bytes()))?;
    }
    Ok(())
}

/// The names by themselves, without their places.
fn names_of<'a>(
    alloc: Global,
    placed: &[PlacedName<'a>],
) -> Result<Items<BorrowedName<'a>>, AllocError>
    ensures { IfOk result (λ names. names ≡ map name_of placed.now) }
{
    let mut names = Items::new(alloc);
    add_names(&mut names, placed)?;
    Ok(names)
}

/// The names that a pattern binds.
pub fn pattern_names<'a>(
    alloc: Global,
    pattern: &'a Pattern,
) -> Result<Items<BorrowedName<'a>>, AllocError>
    ensures { IfOk result (λ names. names ≡ pattern_names pattern.now) }
{
    let mut placed = Vec::new(alloc);
    add_pattern_names(&mut placed, pattern)?;
    names_of(alloc, placed.as_slice())
}

/// The names that declared variables bind.
#[tactic(auto, using(crate::proofs::Listed::parts_listed))]
pub fn parts_names<'a>(
    alloc: Global,
    parts: &'a [Part],
) -> Result<Items<BorrowedName<'a>>, AllocError>
    ensures { IfOk result (λ names. names ≡ parts_names parts.now) }
{
    let mut placed = Vec::new(alloc);
    add_part_names(&mut placed, parts)?;
    names_of(alloc, placed.as_slice())
}

/// The names that parameters bind.
#[tactic(auto, using(crate::proofs::Listed::parameters_listed))]
pub fn parameters_names<'a>(
    alloc: Global,
    parameters: &'a [Parameter],
) -> Result<Items<BorrowedName<'a>>, AllocError>
    ensures { IfOk result (λ names. names ≡ parameters_names parameters.now) }
{
    let mut placed = Vec::new(alloc);
    add_parameter_names(&mut placed, parameters)?;
    names_of(alloc, placed.as_slice())
}

/// Adds the names that `var` declares in a statement.
pub fn add_variables<'a>(
    alloc: Global,
    names: &mut Items<BorrowedName<'a>>,
    statement: &'a Statement,
) -> Result<(), AllocError>
    ensures { OnOk result (names.new ≡ names.old ++ map name_of (statement_found statement.now).vars) }
{
    let mut placed = Vec::new(alloc);
    add_var_names(&mut placed, statement)?;
    add_names(names, placed.as_slice())
}

/// The names that `var` declares in statements.
pub fn variables_in<'a>(
    alloc: Global,
    statements: &Statements<'a>,
) -> Result<Items<BorrowedName<'a>>, AllocError>
    ensures { IfOk result (λ names. names ≡ variables_in statements.now) }
{
    let mut names = Items::new(alloc);
    let mut rest = statements.share();
    'statements: while let Some((statement, behind)) = rest.first() {
        add_variables(alloc, &mut names, statement)?;
        rest = behind;
    }
    Ok(names)
}

/// Whether the name is among these.
pub fn has_name<'a>(names: &[BorrowedName<'a>], name: &[u8]) -> bool
    ensures { result ≡ has_name names.now name.now }
{
    for one in names {
        if name == one.bytes() {
            return true;
        }
    }
    false
}
