//! How a line ends.
use es_builtins::ErrorKind;
use es_value::Value;
use std::alloc::AllocError;

#[derive(Drop)]
pub enum Outcome {
    Value(Value),
    Throws(ErrorKind),
    ThrowsValue(Value),
    Leaves(u8),
    /// It took too many steps, or asked for what the play doesn't do.
    Stuck,
}

/// How a line ends, if there is memory for it.
pub type Ending = Result<Outcome, AllocError>;
