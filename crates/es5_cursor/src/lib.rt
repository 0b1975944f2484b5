//! The tokens of a script, taken one at a time (ECMA-262, 5.1 edition, 7), and what all readers share: the marks that open a
//! construct, names, the ends of statements, and how readers are handed in.
#![tactic(auto)]

mod ahead;
mod classes;
mod cursor;
mod ending;
mod group;
mod halt;
pub mod names;
mod nested;
pub mod operators;
mod turns;

pub use ahead::begins_line;
pub use classes::{begins_expression, is_mark, is_one_of, is_word};
pub use cursor::Cursor;
pub use ending::{optional_label, semicolon};
pub use group::{enter, open};
pub use halt::{Halt, Stop};
pub use nested::Nested;
pub use operators::binary_level;
pub use turns::TURNS;
