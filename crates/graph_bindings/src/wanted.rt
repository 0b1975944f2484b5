//! The modules whose namespaces are imported (ECMA-262, 6th edition, 15.2.1.18).

ghost use Rattle.std.specs.Prelude.{◌≡◌, ℕ, ◌||◌, nat_eq, map, IfOk, OnOk};
ghost use Rattle.std.specs.List.{list_any};
ghost use Rattle.indexmap.specs.IndexSet.{contains};
ghost use Rattle.graph_bindings.specs.Wanted.{are_wanted};
ghost use Rattle.module_lowering.specs.Modules.{is_module};

use crate::spaces::{Space, Spaces};
use indexmap::IndexSet;
use std::alloc::{AllocError, Global};

fn want(wanted: &mut IndexSet<u32>, home: Option<u32>) -> Result<(), AllocError>
    ensures { OnOk result ((n : ℕ) → contains nat_eq wanted.new n ≡ (contains nat_eq wanted.old n || is_module n home)) }
{
    if let Some(home) = home {
        wanted.insert(home)?;
    }
    Ok(())
}

fn want_all(wanted: &mut IndexSet<u32>, spaces: &[Space]) -> Result<(), AllocError>
    ensures { OnOk result ((n : ℕ) → contains nat_eq wanted.new n ≡ (contains nat_eq wanted.old n || list_any (λ s. is_module n s.home) spaces.now)) }
{
    for space in spaces {
        want(wanted, space.home())?;
    }
    Ok(())
}

/// The modules of which some module imports the namespace, by what each module imports.
pub(crate) fn wanted_of(alloc: Global, spaces: &[Spaces]) -> Result<IndexSet<u32>, AllocError>
    ensures { IfOk result (λ wanted. (n : ℕ) → contains nat_eq wanted n ≡ are_wanted n spaces.now) }
{
    let mut wanted = IndexSet::new(alloc);
    for one in spaces {
        want_all(&mut wanted, one.as_slice())?;
    }
    Ok(wanted)
}
