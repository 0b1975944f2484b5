//! The tokens of a module, taken one at a time (ECMA-262, 6th edition, 11).
//!
//! Contracts see a cursor as the input of the model of the reader (`es6_reading`), and say of each answer what the model does
//! there.
#![tactic(auto)]

mod ahead;
mod classes;
mod cursor;
mod faults;
mod group;
mod halt;
mod key;
mod names;
mod nested;
mod operator_tokens;
pub mod operators;
mod turns;
mod values;
mod words;

pub use classes::{is_mark, is_word};
pub use cursor::Cursor;
pub use es6_ast::{Flags, Role, Stand, Stop};
pub use group::{enter, open, open_template};
pub use halt::Halt;
pub use key::{KeyToken, PlacedKey};
pub use nested::Nested;
pub use turns::TURNS;
pub use words::{is_among, is_identifier};
