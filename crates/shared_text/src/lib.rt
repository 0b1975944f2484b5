//! Texts as trees and tokens hold them: what contracts see of one is a plain list.
#![tactic(auto)]

mod name;
mod units;

pub use name::Name;
pub use units::Units;
