//! What is found so far, and the nodes from which it has still to flow on.

ghost use Rattle.std.specs.Prelude.{◌≡◌, ◌<◌, ◌∷◌, [], length, OnOk};
ghost use Rattle.std.specs.List.{All};
ghost use Rattle.module_flows.specs.Flows.{found_at, users_of};
ghost use Rattle.module_flows.specs.Steps.{Spreads};

use crate::found::{Found, found_at};
use sqlite_items::{Items, at};
use std::alloc::AllocError;

/// What is found at each node, and the nodes at which more was found than has flowed on.
#[derive(Drop)]
pub(crate) struct Flow {
    pub(crate) found: Items<Found>,
    pub(crate) todo: Items<usize>,
}

impl Flow {
    /// Adds to what is found at a node.
    pub(crate) fn raise(&mut self, node: usize, value: Found) -> Result<(), AllocError>
        requires { node < length self.old.found }
        ensures { OnOk result (Spreads (node ∷ []) value self.old self.new) }
    {
        match found_at(self.found.as_slice(), node).raised(value) {
            None => Ok(()),
            Some(after) => {
                self.found.set(node, after);
                self.todo.push(node)?;
                Ok(())
            }
        }
    }

    /// Adds to what is found at each of these nodes.
    pub(crate) fn spread(&mut self, nodes: &[usize], value: Found) -> Result<(), AllocError>
        requires { All (λ node. node < length self.old.found) nodes.now }
        ensures { OnOk result (Spreads nodes.now value self.old self.new) }
    {
        for node in nodes {
            self.raise(*node, value)?;
        }
        Ok(())
    }

    /// Adds what is found at a node to each node that uses it.
    pub(crate) fn flow_on(&mut self, users: &[Items<usize>], node: usize) -> Result<(), AllocError>
        requires size { length self.old.found ≡ length users.now }
        requires users { All (λ list. All (λ n. n < length users.now) list) users.now }
        ensures { OnOk result (Spreads (users_of users.now node) (found_at self.old.found node) self.old self.new) }
    {
        let value = found_at(self.found.as_slice(), node);
        self.spread(users_of(users, node), value)?;
        Ok(())
    }
}

/// The nodes that use a node.
fn users_of<'a>(users: &'a [Items<usize>], node: usize) -> &'a [usize]
    ensures { result.now ≡ users_of users.now node }
{
    match at(users, node) {
        None => &[],
        Some(list) => list.as_slice(),
    }
}
