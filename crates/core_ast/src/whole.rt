//! Functions, the parts of a core, and cores.

use crate::naming::Fresh;
use crate::parts::{FunctionId, ScopedName, Var};
use crate::tree::CoreStat;
use sqlite_items::Items;

/// What a function is to the program.
#[derive(Clone, Copy, Debug, PartialEq, Eq)]
pub enum CoreKind {
    Plain,
    Arrow,
    Method,
    Accessor,
    Class { derived: bool },
    Generator,
}

/// A name that is a function from a scope's start on.
#[derive(Clone, Copy, Debug, PartialEq, Eq)]
pub struct Declared {
    pub var: Var,
    pub function: FunctionId,
}

/// Where the step of a generator finds what it is resumed with: the kind (0 next, 1 throw, 2 return) and the value.
#[derive(Clone, Copy, Debug, PartialEq, Eq)]
pub struct Resumption {
    pub kind: Var,
    pub value: Var,
}

/// A function of the table. A function that another holds stands before that one.
#[derive(Drop)]
pub struct CoreFunction {
    pub kind: CoreKind,
    /// its own name, which only its body sees
    pub own: Option<Var>,
    pub parameters: Items<Var>,
    /// the value of its property `length`
    pub length: u32,
    /// where the arguments object goes, if it is mentioned
    pub arguments: Option<Var>,
    /// the cells that are kept when the closure is made; from the flattening of scopes on
    pub cells: Items<Var>,
    /// names that are undefined at the start
    pub locals: Items<Var>,
    /// in scripts and helpers alone
    pub declared: Items<Declared>,
    /// initializes the parameters; in a generator before its object is made
    pub setup: Items<CoreStat>,
    pub body: Items<CoreStat>,
    /// of a generator, from the states on: the parameters of what its object is given, and the statements of that
    pub resumption: Option<Resumption>,
    pub step: Items<CoreStat>,
}

/// What is made of one module.
#[derive(Drop)]
pub struct CorePart {
    pub names: Items<ScopedName>,
    pub instantiate: Items<CoreStat>,
    pub body: Items<CoreStat>,
}

/// A program: its functions, its modules in load order, the order in which these are evaluated, and the names of all.
#[derive(Drop)]
pub struct Core {
    pub functions: Items<CoreFunction>,
    pub parts: Items<CorePart>,
    pub order: Items<u32>,
    pub fresh: Fresh,
}
