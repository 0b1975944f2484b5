//! Parts of function bodies and of modules.

use core_ast::{Declared, FunctionId, ScopedName, Var};
use shared_text::Units;
use sqlite_items::Items;

/// Where the arguments object, `this` and `new.target` of a function are kept, if they are mentioned. The last two are kept by
/// a generator.
#[derive(Clone, Copy)]
pub struct Receiver {
    pub arguments: Option<Var>,
    pub this: Option<Var>,
    pub target: Option<Var>,
}

/// The names that a body declares and that are no parameters: of its `var` and function declarations, and of its lexical
/// declarations. Its functions have names of the first kind or of parameters.
#[derive(Drop)]
pub struct BodyNames {
    pub variables: Items<Var>,
    pub lexical: Items<ScopedName>,
    pub functions: Items<Declared>,
}

/// A name that a module exports, and the function that reads its binding.
#[derive(Drop)]
pub struct Export {
    pub name: Units,
    pub getter: FunctionId,
}

/// The namespace object of a module: the variable that keeps it, and what it has.
#[derive(Drop)]
pub struct Namespace {
    pub var: Var,
    pub exports: Items<Export>,
}

/// What a module declares: all its names, those of them that are lexical, its functions, and namespace objects.
#[derive(Drop)]
pub struct ModuleScope {
    pub names: Items<ScopedName>,
    pub lexical: Items<ScopedName>,
    pub functions: Items<Declared>,
    pub namespaces: Items<Namespace>,
}
