//! What the operators of the language do to primitive values, and what they ask of objects.
#![tactic(auto)]

mod conversion;
mod functions;
mod operators;
mod primitives;
mod thrown;

pub use conversion::{Conversion, Hint, Need, Tried, key_of_word};
pub use functions::{
    Constructor, Instance, Prototype, constructor_of, heritage_of, instance_of, instance_walk,
    prototype_for,
};
pub use operators::{
    Arithmetic, Equality, Outcome, Relation, add_values, arithmetic_of, complement_of, is_nothing,
    loose_equality, negation_of, plus_of, relation_of,
};
pub use primitives::{
    is_callable, is_object, of_prim, to_key, to_prim, to_prims, truth_of, type_name,
};
pub use thrown::seen;
