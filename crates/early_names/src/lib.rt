//! What the rules for early errors ask of a part of a module by itself (ECMA-262, 6th edition, 12 to 15): which names it
//! declares and whether they clash, which part of a target no pattern spells, and whether it is a directive. Rules are numbers
//! of table E in docs/PROFILE.md, places are offsets in bytes from 0.
#![tactic(auto)]

mod declared;
mod directives;
mod keys;
mod misfits;
mod names;
mod patterns;
mod places;
mod targets;
mod twice;

pub use declared::{
    add_block_lexical, add_body_lexical, add_lexical_names, add_statement_lexical, function_name,
    is_function, is_loop,
};
pub use directives::{Directive, strict_directive};
pub use keys::{is_constructor_key, is_prototype_key, key_begin};
pub use misfits::target_misfit;
pub use names::PlacedName;
pub use patterns::{
    add_optional_name, add_parameter_names, add_part_names, add_pattern_names, are_plain, constant,
};
pub use places::Places;
pub use targets::{begin_of, is_simple, name_of};
pub use twice::{bound, clashes, names_bound, repeated, restricted, shared};
