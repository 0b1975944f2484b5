//! Calls of the functions of the library: what a call keeps between its steps, what one turn of its function wants, and how it is
//! given that.
#![tactic(auto)]

mod call;
mod making;
mod properties;
mod settling;

pub use call::{
    BuiltinCall, BuiltinStep, Pending, Place, Resumption, Stepped, Turned, Want, index_key,
    is_undefined, number_in, object_in, plus, position, share_all, text_in,
};
pub use es_realm::ErrorKind;
pub use making::{iter_result, make_arguments, make_list};
pub use properties::{add_property, class_text};
pub use settling::{receive_method, receive_result, settle};
