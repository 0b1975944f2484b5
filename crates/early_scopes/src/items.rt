//! The names that a module's items declare and export (ECMA-262, 6th edition, 15.2.1 to 15.2.3), each list in text order.

ghost use Rattle.std.specs.Prelude.{◌≡◌, ◌++◌, ◌∷◌, [], map, OnOk};
ghost use Rattle.es6_static_semantics.specs.Findings.{joined};
ghost use Rattle.es6_static_semantics.specs.Early.{default_found, item_found, more_names, own_names};

use early_names::{PlacedName, add_optional_name, add_statement_lexical};
use es_text::Span;
use es6_ast::{DefaultExport, ExportName, ImportName, ImportedNames, Item, Specifier};
use std::alloc::AllocError;

/// Adds the lexical names, where a function's is one.
pub(crate) fn add_lexical<'a>(
    names: &mut Vec<PlacedName<'a>>,
    items: &'a [Item],
) -> Result<(), AllocError>
    ensures { OnOk result (names.new.items ≡ names.old.items ++ joined (λ x. x.lexical) (map item_found items.now)) }
{
    for item in items {
        add_item_lexical(names, item)?;
    }
    Ok(())
}

fn add_item_lexical<'a>(names: &mut Vec<PlacedName<'a>>, item: &'a Item) -> Result<(), AllocError>
    ensures { OnOk result (names.new.items ≡ names.old.items ++ (item_found item.now).lexical) }
{
    match item {
        Item::Import {
            default,
            names: imported,
            ..
        } => {
            add_optional_name(names, default)?;
            add_imported(names, imported)
        }
        Item::ExportNames { .. } | Item::ExportAll { .. } => Ok(()),
        Item::ExportDeclaration { declaration, .. } => add_statement_lexical(names, declaration),
        Item::ExportDefault { word, value, .. } => add_default(names, *word, value),
        Item::Statement(statement) => add_statement_lexical(names, statement),
    }
}

fn add_default<'a>(
    names: &mut Vec<PlacedName<'a>>,
    word: Span,
    value: &'a DefaultExport,
) -> Result<(), AllocError>
    ensures { OnOk result (names.new.items ≡ names.old.items ++ (default_found value.now word).lexical) }
{
    match value {
        DefaultExport::DefaultFunction(function) => add_optional_name(names, &function.get().name),
        DefaultExport::DefaultClass(class) => add_optional_name(names, &class.get().name),
        DefaultExport::DefaultValue(_) => Ok(()),
    }
}

pub(crate) fn add_exports<'a>(
    names: &mut Vec<PlacedName<'a>>,
    exports: &'a [ExportName],
) -> Result<(), AllocError>
    ensures { OnOk result (names.new.items ≡ names.old.items ++ joined (λ n. n.exported ∷ []) exports.now) }
{
    for name in exports {
        names.push(PlacedName::of(&name.exported))?;
    }
    Ok(())
}

/// Adds the names of this module that are exported in a list.
pub(crate) fn add_local<'a>(
    names: &mut Vec<PlacedName<'a>>,
    items: &'a [Item],
) -> Result<(), AllocError>
    ensures { OnOk result (names.new.items ≡ names.old.items ++ joined (λ x. x.local) (map item_found items.now)) }
{
    for item in items {
        add_local_of(names, item)?;
    }
    Ok(())
}

fn add_local_of<'a>(names: &mut Vec<PlacedName<'a>>, item: &'a Item) -> Result<(), AllocError>
    ensures { OnOk result (names.new.items ≡ names.old.items ++ (item_found item.now).local) }
{
    match item {
        Item::ExportNames {
            names: listed,
            from,
            ..
        } => add_own(names, from, listed.as_slice()),
        Item::ExportDefault { value, .. } => match value {
            DefaultExport::DefaultFunction(_) => Ok(()),
            DefaultExport::DefaultClass(_) => Ok(()),
            DefaultExport::DefaultValue(_) => Ok(()),
        },
        Item::Import { .. }
        | Item::ExportAll { .. }
        | Item::ExportDeclaration { .. }
        | Item::Statement(_) => Ok(()),
    }
}

fn add_own<'a>(
    names: &mut Vec<PlacedName<'a>>,
    from: &Option<Specifier>,
    exports: &'a [ExportName],
) -> Result<(), AllocError>
    ensures { OnOk result (names.new.items ≡ names.old.items ++ own_names from.now exports.now) }
{
    if from.is_some() {
        return Ok(());
    }
    for name in exports {
        names.push(PlacedName::of(&name.local))?;
    }
    Ok(())
}

/// Adds the names that an import binds beside its default.
pub fn add_imported<'a>(
    names: &mut Vec<PlacedName<'a>>,
    imported: &'a ImportedNames,
) -> Result<(), AllocError>
    ensures { OnOk result (names.new.items ≡ names.old.items ++ more_names imported.now) }
{
    match imported {
        ImportedNames::NoNames => Ok(()),
        ImportedNames::Namespace(name) => {
            names.push(PlacedName::of(name))?;
            Ok(())
        }
        ImportedNames::Listed(listed) => add_listed(names, listed.as_slice()),
    }
}

fn add_listed<'a>(
    names: &mut Vec<PlacedName<'a>>,
    listed: &'a [ImportName],
) -> Result<(), AllocError>
    ensures { OnOk result (names.new.items ≡ names.old.items ++ joined (λ n. n.local ∷ []) listed.now) }
{
    for name in listed {
        names.push(PlacedName::of(&name.local))?;
    }
    Ok(())
}
