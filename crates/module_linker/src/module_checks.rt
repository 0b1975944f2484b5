//! The checks of one module, in their order: its length, its encoding, its syntax, its early errors, and what in it is outside the
//! profile. Nothing here owns a tree.

mod checked;
mod fault;
mod placing;
mod text;

pub use checked::checked_requests;
pub use fault::ModuleFault;
pub use placing::unparsed;
pub use text::{Text, text_of};
