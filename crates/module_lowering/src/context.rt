//! What is round a node.

use core_ast::Var;
use shared_text::Name;
use sqlite_items::Items;

/// What `this` and `new.target` are: those of the innermost function that is no arrow, or of the module.
#[derive(Clone, Copy)]
pub enum ThisKind {
    OfModule,
    OfFunction,
    /// a method or an accessor, which can't be constructed
    OfMethod,
    OfConstructor { derived: bool },
    /// a generator, whose `this` is kept in this variable
    OfGenerator { this: Var },
}

/// What a function's node is there for.
#[derive(Clone, Copy)]
pub enum FunctionForm {
    PlainForm,
    MethodForm,
    AccessorForm,
    ConstructorForm { derived: bool },
}

/// What a jump goes to: a loop, a switch, or another statement with a label.
#[derive(Clone, Copy)]
pub enum JumpForm {
    /// whether the test stands behind the body
    Turns { tests_last: bool },
    Cases,
    Stays,
}

/// A statement that a jump may go to: its label where it is reached by that, and its place, an offset in bytes.
#[derive(Drop)]
pub struct JumpTarget {
    pub label: Option<Name>,
    pub at: u32,
    pub form: JumpForm,
}

/// A name of the head of a for-of, and the variable that stands for it in the subject.
#[derive(Clone, Copy)]
pub struct Dead {
    pub name: Var,
    pub stand_in: Var,
}

/// What the names of a pattern are there for: something is assigned to them, they are initialized, or `var` declares them.
#[derive(Clone, Copy)]
pub enum Role {
    Assigns,
    Initializes,
    Sets,
}

/// What is round a node: the number of its module, what `this` is, the places of the names whose parameter lists or catch
/// parameters stand round it, the names of heads of for-of whose subjects do, and the statements that jumps may go to, the
/// innermost first.
#[derive(Drop)]
pub struct Context {
    pub home: u32,
    pub this: ThisKind,
    pub heads: Items<u32>,
    pub dead: Items<Dead>,
    pub targets: Items<JumpTarget>,
}
