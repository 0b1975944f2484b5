//! Graphs of modules.

use crate::module::Module;
use es_text::Lines;
use shared_text::{Name, Units};
use sqlite_items::Items;

/// Modules in the order in which they are loaded: the entry first, and depth first by requests.
#[derive(Drop)]
pub struct Graph {
    pub modules: Items<LoadedModule>,
}

/// A module with its path in normal form, the places of its text, what it requests, and in text order where each imported
/// name and each name of an `export { .. } from` ends. There are no endings before the graph is linked.
#[derive(Drop)]
pub struct LoadedModule {
    pub path: Name,
    pub lines: Lines,
    pub tree: Module,
    pub requests: Items<Request>,
    pub endings: Items<EndOf>,
}

/// A specifier, and the module in the graph that it names: none for the host.
#[derive(Debug, Drop)]
pub struct Request {
    pub at: u32,
    pub specifier: Units,
    pub module: Option<u32>,
}

/// The binding where an import ends.
#[derive(Debug, Drop)]
pub enum EndOf {
    Local { module: u32, name: Name },
    Host { index: usize },
}
