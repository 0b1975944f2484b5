//! Reads the parts of expressions and statements that stand in brackets (ECMA-262, 6th edition, 12.2.6, 12.3, 13.2, 13.3.3, 14):
//! the names of properties, arguments, patterns that bind, parameters, blocks, and the functions, methods and classes they make up.
//!
//! A part holds expressions and statements, which are read above: the readers here are given the reader of expressions, of a
//! StatementListItem, or both, as it reads where at most so many constructs may still open as at the part. The nodes are made by the
//! makers that they are given.
#![tactic(auto)]

mod argument_list;
mod blocks;
mod class;
mod class_members;
mod function;
mod inner;
mod keys;
mod method;
mod parameters;
mod patterns;
mod readers;
mod signature;

pub use argument_list::{argument, arguments};
pub use blocks::block;
pub use class::class_after_word;
pub use class_members::members;
pub use function::{function_after_word, named_function};
pub use inner::{inner_block, inner_part, inner_target, inner_variable};
pub use keys::key;
pub use method::{accessor, accessor_name, generator_method, method_after_key};
pub use patterns::initialized;
pub use readers::Here;
