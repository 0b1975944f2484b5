//! The names of a declaration, in text order: the lexical ones, then those that `var` declares.

ghost use Rattle.std.specs.Prelude.{◌≡◌, map, IfOk};
ghost use Rattle.es6_static_semantics.specs.Early.{exporting, of_statement, statement_found};

use crate::var_names::add_var_names;
use early_names::{PlacedName, add_statement_lexical};
use es6_ast::Statement;
use shared_text::Name;
use sqlite_items::Items;
use std::alloc::{AllocError, Global};

/// The names that `export` before a declaration exports, in text order.
pub fn declared_names(alloc: Global, statement: &Statement) -> Result<Items<Name>, AllocError>
    ensures { IfOk result (λ names. names ≡ map (λ n. n.name) (exporting (of_statement (statement_found statement.now))).exported) }
{
    let mut names = Vec::new(alloc);
    add_statement_lexical(&mut names, statement)?;
    add_var_names(&mut names, statement)?;
    names_of(alloc, names.as_slice())
}

/// The names by themselves, without their places.
fn names_of(alloc: Global, placed: &[PlacedName]) -> Result<Items<Name>, AllocError>
    ensures { IfOk result (λ names. names ≡ map (λ n. n.name) placed.now) }
{
    let mut names = Items::new(alloc);
    for name in placed {
        names.push(Name::of_bytes(alloc, name.bytes())?)?;
    }
    Ok(names)
}
