//! Imports, exports and the items of a module.

use crate::nodes::Nodes;
use es_text::Span;
use es6_ast::{DefaultExport, Item, Module};

impl<'a> Nodes<'a> {
    /// A module.
    pub(crate) fn module(&mut self, tree: &'a Module) {
        self.text.node("Module", tree.span);
        self.items(tree.items.as_slice());
    }

    fn items(&mut self, items: &'a [Item]) {
        for item in items {
            self.item(item);
        }
    }

    fn item(&mut self, item: &'a Item) {
        match item {
            Item::Import {
                span,
                default,
                names,
                from,
            } => {
                self.text.node("Import", *span);
                self.text.default_name(default);
                self.text.imported_names(names);
                self.text.specifier(from);
            }
            Item::ExportNames { span, names, from } => {
                self.text.node("ExportNames", *span);
                self.text.export_names(names.as_slice());
                self.text.source(from);
            }
            Item::ExportAll { span, from } => {
                self.text.node("ExportAll", *span);
                self.text.specifier(from);
            }
            Item::ExportDeclaration { span, declaration } => {
                self.text.node("ExportDeclaration", *span);
                self.statement(declaration);
            }
            Item::ExportDefault { span, word, value } => self.default_export(*span, *word, value),
            Item::Statement(statement) => self.statement(statement),
        }
    }

    fn default_export(&mut self, span: Span, word: Span, value: &'a DefaultExport) {
        self.text.node_of_span("ExportDefault", span, word);
        match value {
            DefaultExport::DefaultFunction(function) => self.function(function.get()),
            DefaultExport::DefaultClass(class) => self.class(class.get()),
            DefaultExport::DefaultValue(value) => self.expression(value),
        }
    }
}
