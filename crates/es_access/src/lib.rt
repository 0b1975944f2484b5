//! Writing of properties, up to the function that is to be called, and the walk of `instanceof`.
#![tactic(auto)]

mod access;

pub use access::{PutAnswer, define, is_above, put};
