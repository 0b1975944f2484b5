//! The names that the items of a module declare in it (ECMA-262, 6th edition, 15.2.1.11 and 15.2.1.13).

ghost use Rattle.std.specs.Prelude.{◌≡◌, ◌∷◌, [], ◌++◌, map, false, OnOk};
ghost use Rattle.es6_static_semantics.specs.Findings.{joined};
ghost use Rattle.es6_static_semantics.specs.Outside.{default_found, is_host, item_found, knows, more_names, some_name, statement_found};

use crate::bindings::Bindings;
use es6_ast::{DefaultExport, Identifier, ImportName, ImportedNames, Item, Specifier, Statement};
use std::alloc::AllocError;

impl Bindings {
    /// The names that a module declares.
    pub fn items(&mut self, items: &[Item]) -> Result<(), AllocError>
        ensures { OnOk result (self.new ≡ self.old ++ joined (λ x. x.known) (map item_found items.now)) }
    {
        for item in items {
            self.item(item)?;
        }
        Ok(())
    }

    fn item(&mut self, item: &Item) -> Result<(), AllocError>
        ensures { OnOk result (self.new ≡ self.old ++ (item_found item.now).known) }
    {
        match item {
            Item::Import {
                default,
                names,
                from,
                ..
            } => self.imported(default, names, is_host(from)),
            Item::ExportNames { .. } | Item::ExportAll { .. } => Ok(()),
            Item::ExportDeclaration { declaration, .. } => self.statement(declaration),
            Item::ExportDefault { value, .. } => self.default(value),
            Item::Statement(statement) => self.statement(statement),
        }
    }

    fn statement(&mut self, statement: &Statement) -> Result<(), AllocError>
        ensures { OnOk result (self.new ≡ self.old ++ map (knows false) ((statement_found statement.now).lexical ++ (statement_found statement.now).functions ++ (statement_found statement.now).vars)) }
    {
        self.declaration(statement)?;
        self.variables_in(statement)
    }

    fn default(&mut self, value: &DefaultExport) -> Result<(), AllocError>
        ensures { OnOk result (self.new ≡ self.old ++ (default_found value.now).known) }
    {
        match value {
            DefaultExport::DefaultFunction(function) => self.function(function.get()),
            DefaultExport::DefaultClass(class) => self.class(class.get()),
            DefaultExport::DefaultValue(_) => Ok(()),
        }
    }

    fn imported(
        &mut self,
        default: &Option<Identifier>,
        names: &ImportedNames,
        is_host: bool,
    ) -> Result<(), AllocError>
        ensures { OnOk result (self.new ≡ self.old ++ map (knows is_host) (some_name default.now ++ more_names names.now)) }
    {
        if let Some(default) = default {
            self.push(default.name.bytes(), is_host)?;
        }
        match names {
            ImportedNames::NoNames => Ok(()),
            ImportedNames::Namespace(name) => self.push(name.name.bytes(), is_host),
            ImportedNames::Listed(names) => self.listed(names.as_slice(), is_host),
        }
    }

    fn listed(&mut self, names: &[ImportName], is_host: bool) -> Result<(), AllocError>
        ensures { OnOk result (self.new ≡ self.old ++ map (knows is_host) (joined (λ n. n.local ∷ []) names.now)) }
    {
        for name in names {
            self.push(name.local.name.bytes(), is_host)?;
        }
        Ok(())
    }
}

/// Whether the specifier is `"host"`.
pub fn is_host(from: &Specifier) -> bool
    ensures { result ≡ is_host from.now }
{
    let host = [b'h', b'o', b's', b't'].map(u16::from);
    from.text.units() == host.as_slice()
}
