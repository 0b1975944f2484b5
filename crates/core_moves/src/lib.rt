//! What a step of the small tree's machine answers in code, what it does to a state, and the trait of what scripts don't have.
#![tactic(auto)]

mod calls;
mod elements;
mod moves;
mod names;
mod places;
mod rows;
mod states;
mod values;

pub use calls::{call_current, call_host, construct, due, reply_of};
pub use elements::{add_element, add_hole, defined, function_at};
pub use moves::{Entered, Finish, Move, Moved};
pub use names::{
    Holder, binding_in, initialize, record_at, resolve, set_value, share_value, store, value_of,
    where_held,
};
pub use places::{leave, place_of, place_or, unlawful};
pub use rows::{CoreRows, StateOf};
pub use states::{begin, call, enter_record, operate, push, raise, run};
pub use values::{single, single_user, user_at, user_in, users};
