//! The pass, and what is taken away again once scopes are flattened.

ghost use Rattle.std.specs.Prelude.{◌≡◌, IfOk};
ghost use Rattle.shared_cells.specs.Cells.{fronts, shared, without_holder};

use crate::cells::parts_shared;
use crate::foreign::foreign_by;
use crate::tables::{homes, marks};
use core_ast::{Core, CorePart};
use sqlite_items::Items;
use std::alloc::{AllocError, Global};

/// The core of which each part has the names of others that it mentions. These hold cells, in the part that declares them, too. Behind
/// the parts is one more, which is the scope of all cells until scopes are flattened.
pub fn share(alloc: Global, core: Core) -> Result<Core, AllocError>
    ensures { IfOk result (λ after. after ≡ shared core) }
{
    let Core {
        functions,
        parts,
        order,
        fresh,
    } = core;
    let names = fresh.hints.len();
    let homes = homes(alloc, names, parts.as_slice())?;
    let foreign = foreign_by(
        alloc,
        homes.as_slice(),
        functions.as_slice(),
        parts.as_slice(),
    )?;
    let marks = marks(alloc, names, foreign.as_slice())?;
    let parts = parts_shared(alloc, marks.as_slice(), foreign.as_slice(), parts)?;
    Ok(Core {
        functions,
        parts,
        order,
        fresh,
    })
}

/// All parts but the last.
fn fronts(parts: Items<CorePart>) -> Items<CorePart>
    ensures { result ≡ fronts parts }
{
    let mut parts = parts;
    parts.pop();
    parts
}

/// The core without the part that was the scope of all cells.
pub fn without_holder(core: Core) -> Core
    ensures { result ≡ without_holder core }
{
    Core {
        functions: core.functions,
        parts: fronts(core.parts),
        order: core.order,
        fresh: core.fresh,
    }
}
