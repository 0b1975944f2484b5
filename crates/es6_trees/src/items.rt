//! The trees of a module's items (ECMA-262, 6th edition, 15.2).

use crate::Trees;
use crate::reading::Reading;
use es_text::Span;
use es6_ast::{
    Class, DefaultExport, ExportName, Function, Identifier, ImportedNames, Item, Module, Specifier,
    Statement,
};
use es6_makers::{
    MakesClassExports, MakesExports, MakesFunctionExports, MakesItems, MakesModules,
    MakesStatementItems, MakesValueExports, MakesWholeModules,
};
use sqlite_items::{Boxed, Items};
use std::alloc::{AllocError, Global};

impl MakesItems for Trees {
    type Item = Item;

    ghost seen_item = { λ x. x };

    fn import(
        span: Span,
        default: Option<Identifier>,
        names: ImportedNames,
        from: Specifier,
    ) -> Item {
        Item::Import {
            span,
            default,
            names,
            from,
        }
    }

    fn export_names(span: Span, names: Items<ExportName>, from: Option<Specifier>) -> Item {
        Item::ExportNames { span, names, from }
    }

    fn export_all(span: Span, from: Specifier) -> Item {
        Item::ExportAll { span, from }
    }
}

impl MakesModules for Trees {
    type Items = Items<Item>;

    type Module = Module;

    ghost seen_items = { λ x. x };

    ghost seen_module = { λ x. x };

    fn no_items(alloc: Global) -> Items<Item> {
        Items::new(alloc)
    }

    fn push_item(list: &mut Items<Item>, item: Item) -> Result<(), AllocError> {
        list.push(item)
    }

    fn module(span: Span, items: Items<Item>) -> Module {
        Module { span, items }
    }
}

impl MakesStatementItems for Trees {
    fn export_declaration(span: Span, declaration: Statement) -> Item {
        Item::ExportDeclaration { span, declaration }
    }

    fn statement_item(statement: Statement) -> Item {
        Item::Statement(statement)
    }
}

impl MakesValueExports for Trees {
    fn export_value(span: Span, word: Span, value: Reading) -> Item {
        let value = DefaultExport::DefaultValue(value.into_value());
        Item::ExportDefault { span, word, value }
    }
}

impl MakesFunctionExports for Trees {
    fn export_function(
        alloc: Global,
        span: Span,
        word: Span,
        function: Function,
    ) -> Result<Item, AllocError> {
        let value = DefaultExport::DefaultFunction(Boxed::new(alloc, function)?);
        Ok(Item::ExportDefault { span, word, value })
    }
}

impl MakesClassExports for Trees {
    fn export_class(
        alloc: Global,
        span: Span,
        word: Span,
        class: Class,
    ) -> Result<Item, AllocError> {
        let value = DefaultExport::DefaultClass(Boxed::new(alloc, class)?);
        Ok(Item::ExportDefault { span, word, value })
    }
}

impl MakesExports for Trees {}

impl MakesWholeModules for Trees {}
