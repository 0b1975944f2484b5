//! The names that an import binds (ECMA-262, 6th edition, 15.2.2).

ghost use Rattle.std.specs.Prelude.{◌≡◌, [], ◌∷◌, ◌++◌, map, OnOk};
ghost use Rattle.es6_static_semantics.specs.Findings.{joined};
ghost use Rattle.es6_static_semantics.specs.Outside.{more_names};
ghost use Rattle.scope_rules.specs.Marks.{declares, import_kind, import_marks};

use es6_ast::{Identifier, ImportName, ImportedNames};
use scope_rules::{Kind, Marks};
use std::alloc::AllocError;

/// What an import binds names as, from the host or from a module.
pub fn import_kind(is_host: bool) -> Kind
    ensures { result ≡ import_kind is_host }
{
    if is_host {
        Kind::HostImport
    } else {
        Kind::Import
    }
}

/// The names that an import binds, each in a declarator that ends at an offset in bytes.
pub fn declare_imports<'a>(
    marks: &mut Marks<'a>,
    kind: Kind,
    end: u32,
    default: &'a Option<Identifier>,
    names: &'a ImportedNames,
) -> Result<(), AllocError>
    ensures { OnOk result (marks.new ≡ marks.old ++ import_marks kind end default.now names.now) }
{
    marks.declare_optional(kind, end, default)?;
    match names {
        ImportedNames::NoNames => Ok(()),
        ImportedNames::Namespace(name) => marks.declare_name(kind, end, name),
        ImportedNames::Listed(names) => declare_listed(marks, kind, end, names.as_slice()),
    }
}

fn declare_listed<'a>(
    marks: &mut Marks<'a>,
    kind: Kind,
    end: u32,
    names: &'a [ImportName],
) -> Result<(), AllocError>
    ensures { OnOk result (marks.new ≡ marks.old ++ map (declares kind end) (joined (λ n. n.local ∷ []) names.now)) }
{
    for name in names {
        marks.declare_name(kind, end, &name.local)?;
    }
    Ok(())
}
