//! What the machine of a generator is made of.

use core_ast::{CoreCase, CoreStat, Fresh, Label, Var};
use sqlite_items::Items;

/// Where a completion stands: its kind (0 none, 1 a throw, 2 a return, 3 + r a jump to a state of the region r), and its
/// value, of a jump the number of the state.
#[derive(Clone, Copy, Debug, PartialEq, Eq)]
pub struct Completion {
    pub kind: Var,
    pub value: Var,
}

/// The names that a machine works with, and the label of its turns.
#[derive(Clone, Copy, Debug, PartialEq, Eq)]
pub struct Registers {
    /// what the step is resumed with
    pub resumption: Completion,
    /// the completion under way
    pub ending: Completion,
    /// the number of the next state
    pub state: Var,
    /// the number of the region that the machine is in
    pub region: Var,
    /// what is caught
    pub thrown: Var,
    pub turn: Label,
}

/// Where the jumps to a label go: its region, how many blocks with a finally are round it, and the states of a break and of
/// a continue.
#[derive(Clone, Copy, Debug, PartialEq, Eq)]
pub struct Target {
    pub label: Label,
    pub region: u32,
    pub finals: u32,
    pub leaves: u32,
    pub goes_on: u32,
}

/// Where a statement stands: the region (0 is the function's, the others are blocks of a try), how many blocks with a
/// finally are round it, and the labels.
#[derive(Drop)]
pub struct Place {
    pub registers: Registers,
    pub region: u32,
    pub finals: u32,
    pub targets: Items<Target>,
}

/// A machine so far.
#[derive(Drop)]
pub struct Machine {
    /// the states that are done, cases by their numbers
    pub states: Items<CoreCase>,
    /// the number of the state that is open, its statements, and whether they end in a jump
    pub here: u32,
    pub stats: Items<CoreStat>,
    pub over: bool,
    /// how many states have a number
    pub next: u32,
    /// what each region does with a completion, cases by their numbers
    pub rows: Items<CoreCase>,
    pub regions: u32,
    /// the names that are kept between the steps
    pub locals: Items<Var>,
    pub fresh: Fresh,
}
