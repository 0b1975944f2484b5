//! The helpers of a core.

ghost use Rattle.std.specs.Prelude.{IfOk};
ghost use Rattle.core_primitives.specs.Used.{used_primitives};
ghost use Rattle.helpers.specs.Definitions.{AreDefinitions};
ghost use Rattle.helpers.specs.Wanted.{wanted};

use core_ast::Core;
use core_primitives::UsedPrimitives;
use es5_ast::Stat5;
use helpers::helper_script;
use sqlite_items::Items;
use std::alloc::{AllocError, Global};

/// The definitions that a core asks for. That their text is a script is tested and not proved; where it weren't, this would fail as
/// if memory were wanting.
pub fn helpers_of(alloc: Global, core: &Core) -> Result<Items<Stat5>, AllocError>
    ensures { IfOk result (λ helpers. AreDefinitions (wanted (used_primitives core.now)) helpers) }
{
    match helper_script(alloc, &UsedPrimitives::of_core(core)) {
        Ok(helpers) => Ok(helpers),
        Err(_) => Err(AllocError),
    }
}
