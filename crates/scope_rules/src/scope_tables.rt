//! Which binding each reference of a module finds, by the module's marks (ECMA-262, 6th edition, 8.1).

mod binding;
mod declarations;
mod names;
mod place;
mod position;
mod reference;
mod resolved;

pub use binding::Binding;
pub use declarations::Declared;
pub use names::Names;
pub use place::Place;
pub use reference::Reference;
pub use resolved::{Resolved, resolve_marks};
