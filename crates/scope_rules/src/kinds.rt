//! Kinds of scopes and of declared names.

/// What a scope is made for. A name that `var` declares is declared in the innermost scope of a module, a function or a body,
/// whatever blocks stand between (ECMA-262, 6th edition, 8.1, 9.2.12, 13.2, 13.12 and 15.2.1.16.4).
#[derive(Clone, Copy, Debug, PartialEq, Eq)]
pub enum ScopeKind {
    Module,
    /// a function's parameters, and its body where no expression stands among them
    Function,
    /// a function's body, where an expression stands among the parameters
    Body,
    /// a block, the head of a loop, a catch clause, and the name of a function expression or a class by itself
    Block,
    /// the clauses of a switch
    Cases,
}

/// What declares a name (ECMA-262, 6th edition, 13.3, 14 and 15.2).
#[derive(Clone, Copy, Debug, PartialEq, Eq)]
pub enum Kind {
    Variable,
    Let,
    Constant,
    Class,
    Function,
    Parameter,
    /// a catch clause's parameter
    Caught,
    /// a function expression, of its own name
    OwnFunction,
    /// a class, of its own name inside itself
    OwnClass,
    /// an import from a module
    Import,
    /// an import from the host
    HostImport,
    /// a function, of `arguments`
    Arguments,
    /// `export default` with an expression, of `*default*`
    Default,
}

/// What the targets of a pattern are there for: something is assigned to them, or they declare names, each in a declarator that
/// ends at an offset in bytes.
#[derive(Clone, Copy, Debug, PartialEq, Eq)]
pub enum Role {
    Assigned,
    Declared { kind: Kind, end: u32 },
}
