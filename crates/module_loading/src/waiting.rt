//! The requests that wait.

ghost use Rattle.std.specs.Prelude.{◌≡◌, ◌++◌, reverse, OnOk};
ghost use Rattle.module_loading.specs.Requests.{waits};

use sqlite_items::Items;
use std::alloc::AllocError;

/// A request that waits, by the number of its module and its own number there.
#[derive(Clone, Copy, Debug)]
pub(crate) struct Wait {
    pub(crate) importer: usize,
    pub(crate) index: usize,
}

/// Adds the requests of a module, so many, to those that wait, of which the last one comes first.
pub(crate) fn wait_for(
    waiting: &mut Items<Wait>,
    importer: usize,
    count: usize,
) -> Result<(), AllocError>
    ensures { OnOk result (reverse waiting.new ≡ waits importer count ++ reverse waiting.old) }
{
    let mut index = count;
    while index > 0 {
        index -= 1;
        waiting.push(Wait { importer, index })?;
    }
    Ok(())
}
