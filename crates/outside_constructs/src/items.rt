//! The items of a module: imports, exports and statements (ECMA-262, 6th edition, 15.2).

ghost use Rattle.std.specs.Prelude.{◌≡◌, [], ◌∷◌, ◌++◌, ◌&&◌, not, OnOk};
ghost use Rattle.es6_static_semantics.specs.Findings.{joined, when};
ghost use Rattle.es6_static_semantics.specs.Outside.{all_named, default_found, export_pairs, host_pairs, imported_names, is_bare_or_list, is_host, item_found, more_names, named, some_name};
ghost use Rattle.outside_constructs.specs.Walked.{meets};

use crate::walk::Walk;
use es6_ast::{DefaultExport, ExportName, Identifier, ImportName, ImportedNames, Item, Specifier};
use module_scopes::is_host;
use std::alloc::AllocError;

impl Walk {
    pub(crate) fn item(&mut self, item: &Item) -> Result<(), AllocError>
        ensures { OnOk result (self.new ≡ meets (item_found item.now).pairs self.old) }
    {
        match item {
            Item::Import {
                default,
                names,
                from,
                ..
            } => {
                self.imported(default, names, from);
                Ok(())
            }
            Item::ExportNames { names, from, .. } => {
                self.exported(from, names.as_slice());
                Ok(())
            }
            Item::ExportAll { from, .. } => {
                self.finder.when(is_host(from), 15, from.span.begin);
                Ok(())
            }
            Item::ExportDeclaration { declaration, .. } => self.statement(declaration),
            Item::ExportDefault { value, .. } => self.exported_default(value),
            Item::Statement(statement) => self.statement(statement),
        }
    }

    fn exported_default(&mut self, value: &DefaultExport) -> Result<(), AllocError>
        ensures { OnOk result (self.new ≡ meets (default_found value.now).pairs self.old) }
    {
        match value {
            DefaultExport::DefaultFunction(function) => self.function(function.get(), false),
            DefaultExport::DefaultClass(class) => self.class(class.get()),
            DefaultExport::DefaultValue(value) => self.expression(value),
        }
    }

    /// U10 at the names of an import, and U15.
    fn imported(&mut self, default: &Option<Identifier>, names: &ImportedNames, from: &Specifier)
        ensures { self.new ≡ meets (λ _. all_named (some_name default.now ++ more_names names.now ++ imported_names names.now) ++ when (is_host from.now && not (is_bare_or_list default.now names.now)) 15 from.now.span.begin) self.old }
    {
        self.optional_name(default);
        self.more_names(names);
        self.imported_names(names);
        let is_refused = is_host(from) & !is_bare_or_list(default, names);
        self.finder.when(is_refused, 15, from.span.begin);
    }

    fn more_names(&mut self, names: &ImportedNames)
        ensures { self.new ≡ meets (λ _. all_named (more_names names.now)) self.old }
    {
        match names {
            ImportedNames::NoNames => (),
            ImportedNames::Namespace(name) => self.named(name),
            ImportedNames::Listed(names) => self.local_names(names.as_slice()),
        }
    }

    fn local_names(&mut self, names: &[ImportName])
        ensures { self.new ≡ meets (λ _. all_named (joined (λ n. n.local ∷ []) names.now)) self.old }
    {
        for name in names {
            self.named(&name.local);
        }
    }

    fn imported_names(&mut self, names: &ImportedNames)
        ensures { self.new ≡ meets (λ _. all_named (imported_names names.now)) self.old }
    {
        match names {
            ImportedNames::NoNames | ImportedNames::Namespace(_) => (),
            ImportedNames::Listed(names) => self.foreign_names(names.as_slice()),
        }
    }

    fn foreign_names(&mut self, names: &[ImportName])
        ensures { self.new ≡ meets (λ _. all_named (joined (λ n. n.imported ∷ []) names.now)) self.old }
    {
        for name in names {
            self.named(&name.imported);
        }
    }

    /// U10 at the names of an export, U14 at a name of the host that is exported, and U15.
    fn exported(&mut self, from: &Option<Specifier>, names: &[ExportName])
        ensures { self.new ≡ meets (export_pairs from.now names.now) self.old }
    {
        match from {
            None => self.exported_here(names),
            Some(from) => {
                self.exported_from(names);
                self.finder.when(is_host(from), 15, from.span.begin);
            }
        }
    }

    fn exported_here(&mut self, names: &[ExportName])
        ensures { self.new ≡ meets (λ scope. joined (λ n. named n.local ++ named n.exported ++ host_pairs n.local.name n.local.span.begin scope) names.now) self.old }
    {
        for name in names {
            self.exported_name(name);
            let is_host = self.environment.is_host_import(name.local.name.bytes());
            self.finder.when(is_host, 14, name.local.span.begin);
        }
    }

    fn exported_from(&mut self, names: &[ExportName])
        ensures { self.new ≡ meets (λ _. joined (λ n. named n.local ++ named n.exported) names.now) self.old }
    {
        for name in names {
            self.exported_name(name);
        }
    }

    fn exported_name(&mut self, name: &ExportName)
        ensures { self.new ≡ meets (λ _. named name.now.local ++ named name.now.exported) self.old }
    {
        self.named(&name.local);
        self.named(&name.exported);
    }
}

fn is_bare_or_list(default: &Option<Identifier>, names: &ImportedNames) -> bool
    ensures { result ≡ is_bare_or_list default.now names.now }
{
    match names {
        ImportedNames::NoNames | ImportedNames::Listed(_) => default.is_none(),
        ImportedNames::Namespace(_) => false,
    }
}
