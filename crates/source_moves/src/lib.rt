//! What a step of a run of modules answers in code, and what it does to a state: names, `this`, references and keys.
#![tactic(auto)]

mod assignment;
mod keys;
mod literals;
mod moves;
mod names;
mod operations;
mod pending;
mod records;
mod references;
mod states;
mod this;

pub use assignment::{Holder, initialize, where_held, write_name};
pub use keys::is_iterator_key;
pub use literals::literal_value;
pub use moves::{Finish, Move, Moved};
pub use names::{
    binding_at, binding_in, find, held_by, host_named, read_held, read_name, resolve, share_held_by,
};
pub use operations::{operate, turn};
pub use pending::PendingWork;
pub use records::{copy_innermost, enter_bindings, enter_record, this_at};
pub use references::{get_value, put_value, read, super_reference, value_key};
pub use states::{at_node, begin, call, due, impossible, leave, push, raise, refer};
pub use this::{bind_this, this_of};
