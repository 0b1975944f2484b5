//! What the namespace objects of a graph have: which names, and the binding where each ends (ECMA-262, 6th edition, 9.4.6, 15.2.1.16.2),
//! by the summaries of its modules.
#![tactic(auto)]

mod ends;
mod exported;
mod names;
mod pair;
mod steps;

pub use ends::ends_alone;
pub use exported::namespace_of;
pub use names::exported_names;
pub use pair::Pair;
