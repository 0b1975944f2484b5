//! Which bindings names declare.

ghost use Rattle.std.specs.Prelude.{◌≡◌, ◌++◌, IfOk, OnOk};
ghost use Rattle.scope_rules.specs.scope_tables.Scoping.{all_declared, declared_as, declared_by, start};

use crate::Mark;
use crate::scope_tables::binding::declaring_scope;
use crate::scope_tables::names::Names;
use crate::scope_tables::place::Place;
use crate::scope_tables::position::Position;
use std::alloc::{AllocError, Global};

/// A place where a name is declared, an offset in bytes, and the number of its binding. `arguments` is declared where its function
/// begins, and a default export without a name at its `default`.
#[derive(Clone, Copy, Debug, PartialEq, Eq)]
pub struct Declared {
    pub at: u32,
    pub binding: usize,
}

/// What is declared where, in text order.
pub(crate) fn declared_of<'a>(
    alloc: Global,
    names: &Names<'a>,
    marks: &[Mark<'a>],
) -> Result<Vec<Declared>, AllocError>
    ensures { IfOk result (λ list. list.items ≡ all_declared names.now marks.now start) }
{
    let mut list = Vec::new(alloc);
    let mut position = Position::new(alloc);
    for mark in marks {
        declare(&mut list, names, position.top(), mark)?;
        position.pass(mark)?;
    }
    Ok(list)
}

/// What a mark declares, at a place.
fn declare<'a>(
    list: &mut Vec<Declared>,
    names: &Names<'a>,
    place: Place,
    mark: &Mark<'a>,
) -> Result<(), AllocError>
    ensures { OnOk result (list.new.items ≡ list.old.items ++ declared_by names.now mark.now place) }
{
    match mark {
        Mark::Declares { kind, name, at, .. } => {
            let scope = declaring_scope(*kind, place);
            push_declared(list, *at, names.number_of(scope, name.bytes()))
        }
        _ => Ok(()),
    }
}

fn push_declared(list: &mut Vec<Declared>, at: u32, number: Option<usize>) -> Result<(), AllocError>
    ensures { OnOk result (list.new.items ≡ list.old.items ++ declared_as at number) }
{
    match number {
        None => Ok(()),
        Some(binding) => {
            list.push(Declared { at, binding })?;
            Ok(())
        }
    }
}
