//! The nodes of a module's items (ECMA-262, 6th edition, 15.2).

ghost use Rattle.std.specs.Prelude.{[], ◌++◌, ◌∷◌, ◌≡◌, IfOk, List, OnOk};
ghost use Rattle.es6_ast.specs.declared.module.DefaultExport.TheVariants as exported;
ghost use Rattle.es6_ast.specs.declared.module.Item.TheVariants as item;
ghost use Rattle.es6_ast.specs.declared.module.Item.{Item};
ghost use Rattle.es6_ast.specs.declared.module.Module.{Module};

use crate::classes::MakesClasses;
use crate::declarations::MakesDeclarations;
use crate::functions::MakesFunctions;
use crate::readings::MakesReadings;
use crate::statements::MakesSimpleStatements;
use es_text::Span;
use es6_ast::{ExportName, Identifier, ImportedNames, Specifier};
use sqlite_items::Items;
use std::alloc::{AllocError, Global};

/// Makes imports and exports that hold names at most (15.2.2, 15.2.3).
pub trait MakesItems {
    type Item: Drop;

    ghost seen_item: { Self.Item → Item };

    /// 15.2.2
    fn import(
        span: Span,
        default: Option<Identifier>,
        names: ImportedNames,
        from: Specifier,
    ) -> Self::Item
        ensures { Self.seen_item result ≡ item.Import span default names from };

    /// 15.2.3
    fn export_names(span: Span, names: Items<ExportName>, from: Option<Specifier>) -> Self::Item
        ensures { Self.seen_item result ≡ item.ExportNames span names from };

    fn export_all(span: Span, from: Specifier) -> Self::Item
        ensures { Self.seen_item result ≡ item.ExportAll span from };
}

/// Makes modules of their items (15.2.1).
pub trait MakesModules: MakesItems {
    type Items: Drop;

    type Module: Drop;

    ghost seen_items: { Self.Items → List Item };

    ghost seen_module: { Self.Module → Module };

    fn no_items(alloc: Global) -> Self::Items
        ensures { Self.seen_items result ≡ [] };

    fn push_item(list: &mut Self::Items, item: Self::Item) -> Result<(), AllocError>
        ensures { OnOk result (Self.seen_items list.new ≡ Self.seen_items list.old ++ Self.seen_item item ∷ []) };

    /// 15.2.1
    fn module(span: Span, items: Self::Items) -> Self::Module
        ensures { Self.seen_module result ≡ record { span = span; items = Self.seen_items items } };
}

/// Makes items that are statements.
pub trait MakesStatementItems: MakesItems + MakesSimpleStatements {
    fn export_declaration(span: Span, declaration: Self::Statement) -> Self::Item
        ensures { Self.seen_item result ≡ item.ExportDeclaration span (Self.seen_statement declaration) };

    fn statement_item(statement: Self::Statement) -> Self::Item
        ensures { Self.seen_item result ≡ item.Statement (Self.seen_statement statement) };
}

/// Makes exports of values.
pub trait MakesValueExports: MakesItems + MakesReadings {
    fn export_value(span: Span, word: Span, value: Self::Reading) -> Self::Item
        ensures { Self.seen_item result ≡ item.ExportDefault span word (exported.DefaultValue (Self.seen value).value) };
}

/// Makes exports of functions.
pub trait MakesFunctionExports: MakesItems + MakesFunctions {
    fn export_function(
        alloc: Global,
        span: Span,
        word: Span,
        function: Self::Function,
    ) -> Result<Self::Item, AllocError>
        ensures { IfOk result (λ made. Self.seen_item made ≡ item.ExportDefault span word (exported.DefaultFunction (Self.seen_function function))) };
}

/// Makes exports of classes.
pub trait MakesClassExports: MakesItems + MakesClasses {
    fn export_class(
        alloc: Global,
        span: Span,
        word: Span,
        class: Self::Class,
    ) -> Result<Self::Item, AllocError>
        ensures { IfOk result (λ made. Self.seen_item made ≡ item.ExportDefault span word (exported.DefaultClass (Self.seen_class class))) };
}

/// Makes exports with all their parts (15.2.3).
pub trait MakesExports: MakesStatementItems
    + MakesValueExports
    + MakesFunctionExports
    + MakesClassExports
    + MakesDeclarations {}

/// Makes modules with all their parts (15.2.1).
pub trait MakesWholeModules: MakesModules + MakesExports {}
