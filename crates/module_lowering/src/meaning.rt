//! What names stand for.

use core_ast::Var;
use shared_text::Name;
use sqlite_items::Items;

/// What a binding of a module stands for: itself, what another module exports, the namespace object of a module, or a function
/// of the host.
#[derive(Clone, Copy)]
pub enum Meaning {
    Itself,
    Elsewhere(Var),
    NamespaceOf(Var),
    OfHost(u32),
}

/// A name in a namespace object, and the binding that it ends at: the number of its module, and the name there.
#[derive(Drop)]
pub struct Entry {
    pub name: Name,
    pub home: u32,
    pub local: Name,
}

/// What the namespace object of a module has, in its order.
#[derive(Drop)]
pub struct NamespaceEntries {
    pub entries: Items<Entry>,
}
