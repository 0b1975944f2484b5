//! What is pending.

use crate::environment::Environment;
use crate::nodes::{Cases, Expr, Exprs, Labels, Links, Names, Op};
use crate::stats::Stats;
use crate::value::{Call, Completion, CoreValue, Current};
use core_ast::{Label, Update, Var};
use es_calls::BuiltinCall;
use es_heap::Key;
use es_outside::Site;
use es_value::Value;
use sqlite_items::Items;

/// A strict link whose parts are being evaluated.
#[derive(Drop)]
pub struct Strict<'a, M> {
    pub op: Op<'a>,
    pub site: Option<Site>,
    pub current: Current<M>,
    pub values: Items<CoreValue<M>>,
    pub parts: Exprs<'a>,
    pub links: Links<'a>,
}

/// A loop that is under way.
#[derive(Drop)]
pub struct Loop<'a> {
    pub labels: Labels<'a>,
    pub test: Option<Expr<'a>>,
    pub update: Option<Expr<'a>>,
    pub body: Stats<'a>,
}

/// What is pending in a context, and what it does with what is handed to it.
#[derive(Drop)]
pub enum Frame<'a, M, W> {
    /// The next part of a link is evaluated.
    Part(Strict<'a, M>),
    /// The property of a reference is read, before the parts.
    Fetch(Value, Key, Strict<'a, M>),
    /// What is given is the current value.
    After(Links<'a>),
    /// This is the current value, whatever is given.
    Behind(CoreValue<M>, Links<'a>),
    /// The key of a reference is converted.
    Keyed(Value, Links<'a>),
    /// What is given is written to the property.
    Store(Value, Key, Links<'a>),
    /// The number that is given is changed by one, and written to the property.
    StepAt(Update, Value, Key, Links<'a>),
    /// The same, and written to the name.
    StepName(Update, Var, Links<'a>),
    /// A function that was called by an operation or by a function of the library.
    Operation(Option<Site>, BuiltinCall),
    /// The prototype of what a function constructs is read.
    Making(Value, Items<Value>, Value),
    /// The object that a function constructs.
    Made(Value),
    Rest(Stats<'a>),
    Choice(Stats<'a>, Cases<'a>),
    Subject(Cases<'a>),
    Matching(Value, Cases<'a>, Cases<'a>),
    LoopTest(Loop<'a>),
    LoopBody(Loop<'a>),
    LoopUpdate(Loop<'a>),
    Target(Option<Label>),
    Returning,
    Throwing,
    Catching(Var, Names<'a>, Stats<'a>),
    Finishing(Stats<'a>),
    Pending(Completion<M>),
    Restore(Environment),
    Work(W),
}

/// What a step does next.
#[derive(Drop)]
pub enum Control<'a, M> {
    Begin(Expr<'a>),
    Go(Current<M>, Links<'a>),
    Run(Stats<'a>),
    Turn(Option<Site>, BuiltinCall),
    Calls(Call),
    Hand(Completion<M>),
}
