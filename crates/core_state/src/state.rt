//! States.

use crate::environment::Environment;
use crate::frame::Frame;
use crate::stack::Stack;
use crate::stats::Stats;
use crate::table::Table;
use crate::value::{Binding, Closure};
use es_heap::Heap;
use es_outside::Site;
use es_value::Value;
use sqlite_items::Items;

/// An execution context (ECMA-262, 6th edition, 8.3; 5.1 edition, 10.3). The site is that of the call that made it.
#[derive(Drop)]
pub struct Context<'a, M, O, W> {
    pub environment: Environment,
    pub receiver: Value,
    pub site: Site,
    pub own: O,
    pub frames: Stack<Frame<'a, M, W>>,
}

/// A state, without what its next step does. `ahead` are the bodies that run when this one ends.
pub struct State<'a, M, O, W, S> {
    pub heap: Heap,
    pub records: Table<Items<Binding<M>>>,
    pub closures: Table<Closure<O>>,
    pub context: Context<'a, M, O, W>,
    pub callers: Stack<Context<'a, M, O, W>>,
    pub ahead: Stack<Stats<'a>>,
    pub store: S,
}
