//! Numbers of bindings, and places of references.

/// Where a reference by name stands: its home, which is the number of its module in the graph, and where the name begins there, an
/// offset in bytes.
#[derive(Clone, Copy, Debug, PartialEq, Eq)]
pub struct RefId {
    pub home: usize,
    pub at: u32,
}

/// A binding.
#[derive(Clone, Copy, Debug, PartialEq, Eq)]
pub enum BindingId {
    /// what a scope of a module declares, by the module's number and its own number there, in the order of first declaration
    Own { home: usize, number: usize },
    /// a name that no scope declares, by its number among such names of the graph, in the order of first reference
    Global { number: usize },
    /// a function of the host, by its number among the hosts
    Host { number: usize },
}

/// A binding under a key, as a place or a number.
#[derive(Clone, Copy, Debug, PartialEq, Eq)]
pub struct Row {
    pub key: usize,
    pub binding: BindingId,
}
