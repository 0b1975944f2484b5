//! The functions of the library, one step at a time.
#![tactic(auto)]

mod step;
mod turn;

pub use es_calls::{BuiltinCall, BuiltinStep, ErrorKind, Resumption};
pub use es_operators::{of_prim, to_prim};
pub use es_realm::{Realm5, Realm6, RealmOf};
pub use step::{step_builtin, step_of};
