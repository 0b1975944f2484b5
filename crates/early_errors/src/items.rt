//! The items of a module: imports, exports and statements (ECMA-262, 6th edition, 15.2).

ghost use Rattle.std.specs.Prelude.{◌≡◌, ◌++◌, [], OnOk};
ghost use Rattle.es6_static_semantics.specs.Findings.{joined};
ghost use Rattle.es6_static_semantics.specs.Early.{bound, default_found, item_found, more_names, some_name};
ghost use Rattle.early_errors.specs.Walked.{met};

use crate::place::Place;
use crate::walk::Walk;
use early_names::{add_optional_name, names_bound};
use early_scopes::add_imported;
use es_text::Span;
use es6_ast::{DefaultExport, Identifier, ImportedNames, Item};
use std::alloc::AllocError;

impl Walk {
    /// An item, where no label is round it.
    pub(crate) fn item(&mut self, item: &Item) -> Result<(), AllocError>
        ensures { OnOk result (self.old.labels ≡ [] → self.new ≡ met (item_found item.now).pairs self.old) }
    {
        match item {
            Item::Import { default, names, .. } => self.import(default, names),
            Item::ExportNames { .. } | Item::ExportAll { .. } => Ok(()),
            Item::ExportDeclaration { declaration, .. } => self.statement(declaration, Place::TOP),
            Item::ExportDefault { word, value, .. } => self.default_export(*word, value),
            Item::Statement(statement) => self.statement(statement, Place::TOP),
        }
    }

    /// E7, at the names that an import binds (15.2.2.1).
    fn import(
        &mut self,
        default: &Option<Identifier>,
        imported: &ImportedNames,
    ) -> Result<(), AllocError>
        ensures { OnOk result (self.new ≡ met (joined bound (some_name default.now ++ more_names imported.now)) self.old) }
    {
        let mut names = Vec::new(self.alloc());
        add_optional_name(&mut names, default)?;
        add_imported(&mut names, imported)?;
        names_bound(&mut self.finder, names.as_slice());
        Ok(())
    }

    fn default_export(&mut self, word: Span, value: &DefaultExport) -> Result<(), AllocError>
        ensures { OnOk result (self.new ≡ met (default_found value.now word).pairs self.old) }
    {
        match value {
            DefaultExport::DefaultFunction(function) => {
                self.function(function.get(), Place::of_function(false, false))
            }
            DefaultExport::DefaultClass(class) => self.class(class.get(), Place::TOP),
            DefaultExport::DefaultValue(value) => self.expression(value, Place::TOP),
        }
    }
}
