//! The order of a graph.

ghost use Rattle.std.specs.Prelude.{◌≡◌, IfOk};
ghost use Rattle.module_order.specs.Order.{evaluation_order};

use crate::walk::{Evaluation, Walk};
use sqlite_items::Items;
use std::alloc::{AllocError, Global};

/// The modules that are reached from the entry, in the order in which they are evaluated: `graph` has for each module the modules
/// that it requests, in the order of its requests.
pub fn evaluation_order(
    alloc: Global,
    graph: &[Items<u32>],
    entry: u32,
) -> Result<Items<u32>, AllocError>
    ensures { IfOk result (λ order. order ≡ evaluation_order graph.now entry) }
{
    let mut walk = Walk::begun(alloc, graph.len())?;
    walk.enter(entry)?;
    while let Some(frame) = walk.stack.pop() {
        walk.go_on(graph, frame)?;
    }
    let Evaluation { order, .. } = walk.evaluation;
    Ok(order)
}
