//! The states of a run of modules, with what is handed on and what is pending in them.
#![tactic(auto)]

mod completion;
mod control;
mod environment;
mod function;
mod lists;
mod members;
mod nodes;
mod partial;
mod state;
mod statements;
mod texts;
mod work;

pub use completion::{Call, Completion, Reference};
pub use control::Control;
pub use environment::{Binding, EnvironmentRecord, Held};
pub use function::{Closure, Code, Own};
pub use lists::{ListPart, ListParts};
pub use members::{Members, is_constructor};
pub use nodes::{Node, Nodes};
pub use partial::{
    Binds, Callee, Collected, Defining, ForOfLoop, Labels, Listing, Loop, Naming, Passing, Slot,
    Taking, Use,
};
pub use state::{Context, Due, Exported, Frame, Generator, State, Static, TemplateObject};
pub use statements::Statements;
pub use texts::{BorrowedName, BorrowedText};
pub use work::Work;
