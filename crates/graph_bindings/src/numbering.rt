//! The variables of bindings and of namespace objects.

ghost use Rattle.std.specs.Prelude.{◌≡◌, IfOk, slice_get};
ghost use Rattle.graph_bindings.specs.Meanings.{namespace_by, space_by, var_by};

use crate::spaces::Spaces;
use core_ast::Var;
use lower_walk::lower_names::{behind, offset_at};
use scope_analysis::Scopes;
use sqlite_items::at;
use std::alloc::AllocError;

/// The scopes of a graph, of each module the variable of its first binding, how many bindings there are, and the namespaces that each
/// module imports.
#[derive(Clone, Copy)]
pub(crate) struct Numbering<'a, 'b> {
    pub(crate) scopes: &'a Scopes<'a>,
    pub(crate) offsets: &'b [u32],
    pub(crate) count: u32,
    pub(crate) spaces: &'b [Spaces],
}

impl<'a, 'b> Numbering<'a, 'b> {
    /// The variable of a binding.
    pub(crate) fn var(&self, home: usize, number: usize) -> Result<Var, AllocError>
        ensures { IfOk result (λ x. x ≡ var_by self.now home number) }
    {
        behind(offset_at(self.offsets, home), number)
    }

    /// The variable of the namespace object of a module.
    pub(crate) fn namespace(&self, home: u32) -> Result<Var, AllocError>
        ensures { IfOk result (λ x. x ≡ namespace_by self.now home) }
    {
        behind(self.count, home as usize)
    }

    /// The module whose namespace an import binds to the name at a place of a module.
    pub(crate) fn space(&self, home: usize, place: u32) -> Option<u32>
        ensures { result ≡ space_by self.now home place }
    {
        match at(self.spaces, home) {
            None => None,
            Some(spaces) => spaces.at(place),
        }
    }
}
