//! From the ends to the nodes from which they are reached.

ghost use Rattle.std.specs.Prelude.{◌≡◌, ◌<◌, length, map, IfOk};
ghost use Rattle.std.specs.List.{All};
ghost use Rattle.module_flows.specs.Flows.{AreRight};
ghost use Rattle.module_flows.specs.Steps.{Holds};
ghost use Rattle.module_flows.specs.declared.found.Found.TheVariants.{Nothing};

use crate::flow::Flow;
use crate::found::Found;
use sqlite_items::Items;
use std::alloc::{AllocError, Global};

/// What is reached from each node: `users` has for each node the nodes that use it, and `ends` the nodes that are ends.
///
/// The time is linear in the uses.
pub fn reached(
    alloc: Global,
    users: &[Items<usize>],
    ends: &[usize],
) -> Result<Items<Found>, AllocError>
    requires users { All (λ list. All (λ node. node < length users.now) list) users.now }
    requires ends { All (λ node. node < length users.now) ends.now }
    ensures { IfOk result (λ found. AreRight users.now ends.now found) }
{
    let mut flow = begin(alloc, users, ends)?;
    while let Some(node) = flow.todo.pop() {
        flow.flow_on(users, node)?;
    }
    let Flow { found, .. } = flow;
    Ok(found)
}

/// Each end is found at itself.
fn begin(alloc: Global, users: &[Items<usize>], ends: &[usize]) -> Result<Flow, AllocError>
    requires { All (λ node. node < length users.now) ends.now }
    ensures { IfOk result (λ flow. Holds users.now ends.now ends.now flow) }
{
    let mut flow = Flow {
        found: nothing(alloc, users)?,
        todo: Items::new(alloc),
    };
    for end in ends {
        flow.raise(*end, Found::One(*end))?;
    }
    Ok(flow)
}

/// Nothing is found at any node.
fn nothing(alloc: Global, users: &[Items<usize>]) -> Result<Items<Found>, AllocError>
    ensures { IfOk result (λ found. found ≡ map (λ list. Nothing) users.now) }
{
    let mut found = Items::new(alloc);
    for _list in users {
        found.push(Found::Nothing)?;
    }
    Ok(found)
}
