//! Contexts, and states. What is pending is a type parameter, since a function whose types reach all kinds of work is dear to check: the
//! definitions have Work there.

use crate::environment::EnvironmentRecord;
use crate::function::{Closure, Own};
use crate::nodes::Nodes;
use crate::texts::{BorrowedName, BorrowedText};
use core_state::{Environment, Stack, Table};
use es_heap::{Heap, Key};
use es_outside::Site;
use es_value::{ObjId, Str, Value};
use es6_ast::Item;
use sqlite_items::Items;

/// Work with the place of the node that it is of.
#[derive(Drop)]
pub struct Frame<W> {
    pub place: Site,
    pub work: W,
}

/// An execution context (ECMA-262, 6th edition, 8.3). `home` is the number of its module; the place is that of the node which acts, and
/// before the first one that of the caller's.
#[derive(Drop)]
pub struct Context<W> {
    pub environment: Environment,
    pub home: u32,
    pub own: Own,
    pub place: Site,
    pub frames: Stack<Frame<W>>,
}

/// A generator (25.3.2): a context is saved at its start or at a yield.
#[derive(Drop)]
pub enum Generator<W> {
    AtStart(Context<W>),
    AtYield(Context<W>),
    Executing,
    Completed,
}

/// A name of a namespace object, and the binding that it stands for (9.4.6).
#[derive(Drop)]
pub struct Exported<'a> {
    pub name: Str,
    pub home: u32,
    pub local: BorrowedName<'a>,
}

/// A template object, by its raw texts (12.2.9.3).
#[derive(Drop)]
pub struct TemplateObject<'a> {
    pub raw: Items<BorrowedText<'a>>,
    pub object: Value,
}

/// A static member that the definition of a class made.
#[derive(Drop)]
pub struct Static {
    pub class: ObjId,
    pub key: Key,
}

/// A module that is still to be evaluated (15.2.1.16.5).
#[derive(Drop)]
pub struct Due<'a> {
    pub home: u32,
    pub items: Nodes<'a, Item>,
}

/// A state, without what its next step does. The record of a module has the module's number.
pub struct State<'a, W> {
    pub heap: Heap,
    pub records: Table<EnvironmentRecord<'a>>,
    pub closures: Table<Closure<'a>>,
    pub generators: Table<Generator<W>>,
    pub namespaces: Table<Items<Exported<'a>>>,
    pub templates: Table<TemplateObject<'a>>,
    pub statics: Table<Static>,
    pub context: Context<W>,
    pub callers: Stack<Context<W>>,
    pub due: Stack<Due<'a>>,
}
