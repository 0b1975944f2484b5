//! The core: the one small tree that the passes of the back end turn, from the lowering of modules to the script.
//!
//! An expression is a head and a list of links, what is done to it from left to right. Functions stand in a table, and a
//! head holds the number of one. `specs/` says when a core is lawful.
#![tactic(auto)]

mod build;
mod copies;
mod counting;
mod gathering;
mod naming;
mod parts;
mod tree;
mod whole;

pub use build::{act, acting, constant, expression, linked, undefined, variable};
pub use counting::checks;
pub use gathering::Mentions;
pub use naming::Fresh;
pub use parts::{
    Binary, Constant, CoreHead, CoreOp, FunctionId, Global, Key, Label, Primitive, ScopedName,
    Unary, Update, Var, When,
};
pub use tree::{CoreCase, CoreExpr, CoreLink, CoreStat};
pub use whole::{Core, CoreFunction, CoreKind, CorePart, Declared, Resumption};
