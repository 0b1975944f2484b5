//! The internal operations of the standard as calls of the machine of the library's functions, one step at a time, and what
//! evaluation makes.
#![tactic(auto)]

mod iteration;
mod making;
mod operation;
mod operators;
mod properties;
mod prototypes;
mod step;
mod turning;

pub use es_calls::{BuiltinCall, BuiltinStep, ErrorKind, Resumption, Stepped};
pub use making::{
    ClassObjects, class_function, generator_function, made_generator, made_namespace,
    made_template, method_function, plain_function, with_half, with_recorded,
};
pub use operation::{Operation, asks_presence, drops_throw};
pub use step::step_operation;
pub use turning::key_operand;
