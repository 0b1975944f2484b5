//! The bindings of a module and what its references find.

ghost use Rattle.std.specs.Prelude.{◌≡◌, ◌++◌, IfOk, OnOk};
ghost use Rattle.scope_rules.specs.scope_tables.Scoping.{all_references, module_bindings, module_declared, module_references, reference, reference_to, referred, start};

use crate::Mark;
use crate::scope_tables::declarations::{Declared, declared_of};
use crate::scope_tables::names::Names;
use crate::scope_tables::place::Place;
use crate::scope_tables::position::Position;
use crate::scope_tables::reference::{Found, Reference};
use std::alloc::{AllocError, Global};

/// The bindings of a module, in the order in which they are declared first, and where they are declared, and its references, in text
/// order.
#[derive(Drop)]
pub struct Resolved<'a> {
    pub names: Names<'a>,
    pub declared: Vec<Declared>,
    pub references: Vec<Reference<'a>>,
}

/// What the names of a module declare and find, by its marks. It fails where memory runs out.
pub fn resolve_marks<'a>(alloc: Global, marks: &[Mark<'a>]) -> Result<Resolved<'a>, AllocError>
    ensures bindings { IfOk result (λ r. r.names ≡ module_bindings marks.now) }
    ensures declared { IfOk result (λ r. r.declared.items ≡ module_declared marks.now) }
    ensures references { IfOk result (λ r. r.references.items ≡ module_references marks.now) }
{
    let names = names_of(alloc, marks)?;
    let declared = declared_of(alloc, &names, marks)?;
    let references = references_of(alloc, &names, marks)?;
    Ok(Resolved {
        names,
        declared,
        references,
    })
}

/// The bindings.
fn names_of<'a>(alloc: Global, marks: &[Mark<'a>]) -> Result<Names<'a>, AllocError>
    ensures { IfOk result (λ names. names ≡ module_bindings marks.now) }
{
    let mut names = Names::new(alloc);
    let mut position = Position::new(alloc);
    for mark in marks {
        names.meet(position.top(), mark)?;
        position.pass(mark)?;
    }
    Ok(names)
}

/// The references, in text order.
fn references_of<'a>(
    alloc: Global,
    names: &Names<'a>,
    marks: &[Mark<'a>],
) -> Result<Vec<Reference<'a>>, AllocError>
    ensures { IfOk result (λ list. list.items ≡ all_references names.now marks.now start) }
{
    let mut list = Vec::new(alloc);
    let mut position = Position::new(alloc);
    for mark in marks {
        refer(&mut list, names, &position, mark)?;
        position.pass(mark)?;
    }
    Ok(list)
}

/// What a mark refers to.
fn refer<'a>(
    list: &mut Vec<Reference<'a>>,
    names: &Names<'a>,
    position: &Position,
    mark: &Mark<'a>,
) -> Result<(), AllocError>
    ensures { OnOk result (list.new.items ≡ list.old.items ++ referred names.now mark.now position.now.places) }
{
    match mark {
        Mark::Refers { name, at } => {
            list.push(reference(names, name.bytes(), *at, position))?;
            Ok(())
        }
        _ => Ok(()),
    }
}

/// A reference from a position.
fn reference<'a>(names: &Names<'a>, name: &'a [u8], at: u32, position: &Position) -> Reference<'a>
    ensures { result ≡ reference names.now name.now at position.now.places }
{
    match names.find(name, position.places()) {
        None => Reference::free(name, at),
        Some(found) => reference_to(names, name, at, position.top(), found),
    }
}

fn reference_to<'a>(
    names: &Names<'a>,
    name: &'a [u8],
    at: u32,
    from: Place,
    found: Found,
) -> Reference<'a>
    ensures { result ≡ reference_to names.now name.now at from found }
{
    match names.bindings().get(found.number) {
        None => Reference::free(name, at),
        Some(binding) => Reference::bound(name, at, from, found, binding),
    }
}
