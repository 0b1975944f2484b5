//! The primitive values of ECMAScript in this profile, and what its operators do to them.
//!
//! Numbers are whole and safe (from -(2^53 - 1) to 2^53 - 1), and texts are lists of 16-bit units. An operation whose
//! result in the standard is no such number answers an `Exit` in its place.
#![tactic(auto)]

mod arithmetic;
mod bits;
mod convert;
mod text;
mod value;

pub use arithmetic::{Exit, add, div, mul, power, rem, sub};
pub use bits::{and, not, or, shl, shr, to_uint32, ushr, xor};
pub use convert::{to_number, to_text};
pub use text::{Str, compare, concat};
pub use value::{ObjId, Value, same};
