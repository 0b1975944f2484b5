//! Modules of ECMAScript 2015: their trees, and in `specs/` which tokens spell them.
//!
//! The grammar is that of ECMA-262, 6th edition, without annex B, with the power operators of the 7th. Offsets are
//! counted in bytes from 0.
#![tactic(auto)]

mod graph;
mod module;
mod operators;
mod settings;
mod spans;
mod tree;

pub use graph::{EndOf, Graph, LoadedModule, Request};
pub use module::{DefaultExport, ExportName, ImportName, ImportedNames, Item, Module, Specifier};
pub use operators::{
    AssignOperator, BinaryOperator, Literal, MethodKind, UnaryOperator, UpdateOperator,
    VariableKind,
};
pub use settings::{Flags, Role, Shape, Stand, Stop};
pub use tree::{
    Argument, ArrayPart, Arrow, ArrowBody, Block, Case, Catch, Class, ClassMember, Condition,
    Element, Expression, ForFirst, ForTarget, Function, Identifier, Key, Link, Method, ObjectPart,
    Operand, Parameter, Part, Pattern, Property, Rest, Statement, Stretch, Template, TemplatePart,
};
