//! What linking asks of a loaded module: which names it exports and wants, and where one goes on from each.
#![tactic(auto)]

mod declares;
mod exports;
mod homes;
mod imports;
mod stars;
mod summaries;
mod summary;
mod wants;

pub use declares::Declares;
pub use summaries::summaries_of;
pub use summary::{Summarized, summary_of};
