//! What a module says of scopes and names, as a list of marks in text order, and in `specs/` which marks each node of its tree gives
//! (ECMA-262, 6th edition, 8.1 and 13 to 15).
#![tactic(auto)]

mod kinds;
mod mark;
mod marks;
pub mod scope_tables;
mod spelling;

pub use kinds::{Kind, Role, ScopeKind};
pub use mark::Mark;
pub use marks::Marks;
pub use spelling::Spelling;
