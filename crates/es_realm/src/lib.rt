//! The fresh realms, and what both editions do to objects and primitive values.
#![tactic(auto)]

mod access;
mod edition;
mod errors;
mod globals;
mod left_out;
mod look;
pub mod names;
mod realm;
mod start;
mod table;

pub use access::{
    Read, Write, converted_length, define_key, definition_exit, delete_key, delete_value,
    own_of_text, read_object, read_value, write_length, write_object, write_primitive,
};
pub use edition::Edition;
pub use errors::{ErrorKind, make_error};
pub use globals::{Global, global_of};
pub use left_out::{is_builtin, is_left_out};
pub use look::{Look, is_closure, is_function, is_named, is_reserved_key, look_own, look_up};
pub use realm::{Library, Realm5, Realm6, RealmOf};
