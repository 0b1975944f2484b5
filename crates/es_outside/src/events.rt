use crate::{Prim, Prims};

/// Where a call stands: the number of its module, which is 0 for a single script, and the offset in bytes of
/// the call's first token.
#[derive(Clone, Copy, Debug, PartialEq, Eq)]
pub struct Site {
    pub module: u32,
    pub at: u32,
}

/// A call of a host: the host's number, what it is handed, and where the call stands.
#[derive(Debug, Drop)]
pub struct Event {
    pub host: usize,
    pub args: Prims,
    pub site: Site,
}

/// What is seen of a thrown value: a primitive itself, and of an object only its kind.
#[derive(Debug, Drop)]
pub enum Seen {
    Prim(Prim),
    Error,
    TypeError,
    ReferenceError,
    RangeError,
    Object,
}

/// How a run ends: at the program's end, by a throw that nothing catches, or by leaving the profile through an
/// exit, at the step that stands there.
#[derive(Debug, Drop)]
pub enum Ending {
    Ended,
    Threw(Seen),
    Left { exit: u8, site: Site },
}

/// What a step of a run answers: the run goes on, asks a host and awaits its reply, or is over.
#[derive(Debug, Drop)]
pub enum Step {
    Running,
    Asks { event: Event },
    Is(Ending),
    OutOfMemory,
}
