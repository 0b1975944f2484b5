//! The names that no scope declares.

ghost use Rattle.std.specs.Prelude.{◌≡◌, OnOk};
ghost use Rattle.scope_analysis.specs.Scopes.{id_of, named_by, with_globals};

use binding_tables::{BindingId, NumberedNames};
use scope_rules::scope_tables::Reference;
use std::alloc::AllocError;

/// Adds the names of references that no scope declares.
pub(crate) fn add_globals<'a>(
    names: &mut NumberedNames<'a>,
    references: &[Reference<'a>],
) -> Result<(), AllocError>
    ensures { OnOk result (names.new ≡ with_globals names.old references.now) }
{
    for reference in references {
        add_global(names, reference)?;
    }
    Ok(())
}

fn add_global<'a>(
    names: &mut NumberedNames<'a>,
    reference: &Reference<'a>,
) -> Result<(), AllocError>
    ensures { OnOk result (names.new ≡ named_by names.old reference.now.name reference.now.binding) }
{
    match reference.binding {
        None => names.add(reference.name.bytes()),
        Some(_) => Ok(()),
    }
}

/// The binding of a reference in the module of a number.
pub(crate) fn id_of<'a>(
    names: &NumberedNames<'a>,
    home: usize,
    reference: &Reference<'a>,
) -> BindingId
    ensures { result ≡ id_of home names.now reference.now }
{
    match reference.binding {
        None => BindingId::Global {
            number: names.number(reference.name.bytes()),
        },
        Some(number) => BindingId::Own { home, number },
    }
}
