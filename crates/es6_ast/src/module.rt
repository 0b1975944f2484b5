//! Modules, and their imports and exports.

use crate::tree::{Class, Expression, Function, Identifier, Statement};
use es_text::Span;
use shared_text::Units;
use sqlite_items::{Boxed, Items};

/// A module: its items in text order, and the span of the whole text (ECMA-262, 6th edition, 15.2).
#[derive(Drop)]
pub struct Module {
    pub span: Span,
    pub items: Items<Item>,
}

/// A part of a module's top level.
#[derive(Drop)]
pub enum Item {
    /// 15.2.2: `default` is the name that a default import binds
    Import {
        span: Span,
        default: Option<Identifier>,
        names: ImportedNames,
        from: Specifier,
    },
    /// `export { .. };` and `export { .. } from ..;` (15.2.3)
    ExportNames {
        span: Span,
        names: Items<ExportName>,
        from: Option<Specifier>,
    },
    /// `export * from ..;`
    ExportAll {
        span: Span,
        from: Specifier,
    },
    /// Variables, a function or a class.
    ExportDeclaration {
        span: Span,
        declaration: Statement,
    },
    /// `word` is the place of `default`, the name that is exported.
    ExportDefault {
        span: Span,
        word: Span,
        value: DefaultExport,
    },
    Statement(Statement),
}

/// The module that an import or an export names.
#[derive(Debug, Drop)]
pub struct Specifier {
    pub span: Span,
    pub text: Units,
}

/// What an import names beside its default.
#[derive(Drop)]
pub enum ImportedNames {
    NoNames,
    Namespace(Identifier),
    Listed(Items<ImportName>),
}

/// An exported name, and the name that it is imported as. They are one where no `as` stands.
#[derive(Drop)]
pub struct ImportName {
    pub span: Span,
    pub imported: Identifier,
    pub local: Identifier,
}

/// A name of this module, or of the one that the export names, and the name that it is exported as. They are one where no
/// `as` stands.
#[derive(Drop)]
pub struct ExportName {
    pub span: Span,
    pub local: Identifier,
    pub exported: Identifier,
}

/// What `export default` exports.
#[derive(Drop)]
pub enum DefaultExport {
    DefaultFunction(Boxed<Function>),
    DefaultClass(Boxed<Class>),
    DefaultValue(Expression),
}
