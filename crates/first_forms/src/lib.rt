//! The reader of the module forms that the program reads today: bytes to tokens, and tokens to a tree. It stands in until
//! whole modules are lowered.
#![tactic(auto)]

mod lexer;
mod names;
mod reader;
mod token;

pub use lexer::tokens;
pub use reader::{ReadFault, one_module, read_module};
pub use token::{Token, TokenKind};
