//! What is written for the expressions of a core: for what one begins with, and for what each link does to the current value.
#![tactic(auto)]

mod chains;
mod current;
mod heads;
mod helpers;
mod keys;
mod leaves;
mod literals;
mod operands;
mod operations;
mod operators;
mod primitives;
mod scenes;
mod statements;

pub use chains::{applied, called, called_by, chained, index, member};
pub use current::CurrentValue;
pub use heads::{head_emitted, object};
pub use helpers::helper_name;
pub use keys::plain;
pub use leaves::{identifier, integer, name, nothing, nowhere, text, this, word_text};
pub use operands::{assigned, conditional, operated, stored, then, unary};
pub use operations::{lazy_emitted, op_emitted};
pub use scenes::{ask, name_of, no_uses};
pub use statements::{block, declared, expression, function, push_variables};
