//! Reads the items of modules (ECMA-262, 6th edition, 15.2): imports, exports, and the statements between them. The readers of
//! expressions and of statements are handed in.
#![tactic(auto)]

mod export;
mod import;
mod items;
mod readers;
mod specifier;

pub use items::whole_module;
