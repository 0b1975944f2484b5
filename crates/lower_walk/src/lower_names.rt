//! What names stand for in a core, as the walk over the modules of a graph asks it: the variables that names declare, the value and
//! the target that a reference is, and the names of scopes.

mod bindings;
mod bodies;
mod declarations;
mod globals;
mod kinds;
mod references;
mod sites;
mod texts;

pub use bindings::{Bindings, behind, first_id, offset_at};
pub use bodies::ListsName;
pub use kinds::can_be_unready;
pub use references::{imported_value, target_of};
pub use sites::{sees_arguments, sees_this, site_at};
pub use texts::units_of;
