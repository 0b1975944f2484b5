//! Names that are imported and exported.

use crate::text::Text;
use es6_ast::{ExportName, Identifier, ImportName, ImportedNames, Specifier};

impl Text {
    /// The name that a default import binds, if there is one.
    pub(crate) fn default_name(&mut self, default: &Option<Identifier>) {
        match default {
            None => (),
            Some(name) => {
                self.word("Default");
                self.identifier(name);
            }
        }
    }

    pub(crate) fn imported_names(&mut self, names: &ImportedNames) {
        match names {
            ImportedNames::NoNames => (),
            ImportedNames::Namespace(name) => {
                self.word("Namespace");
                self.identifier(name);
            }
            ImportedNames::Listed(list) => self.import_names(list.as_slice()),
        }
    }

    fn import_names(&mut self, names: &[ImportName]) {
        for name in names {
            self.node("ImportName", name.span);
            self.identifier(&name.imported);
            self.identifier(&name.local);
        }
    }

    pub(crate) fn export_names(&mut self, names: &[ExportName]) {
        for name in names {
            self.node("ExportName", name.span);
            self.identifier(&name.local);
            self.identifier(&name.exported);
        }
    }

    /// The module that the exported names come from, if they come from another one.
    pub(crate) fn source(&mut self, from: &Option<Specifier>) {
        match from {
            None => (),
            Some(from) => self.specifier(from),
        }
    }
}
