//! The bindings of modules in their order: how many there are, where those of each module begin, and their names.

ghost use Rattle.std.specs.Prelude.{◌≡◌, ◌++◌, None, Some, length, map, replicate, slice_get, IfOk, OnOk};
ghost use Rattle.graph_bindings.specs.Counts.{offsets_at};
ghost use Rattle.lower_walk.specs.lower_names.Names.{names_in};
ghost use Rattle.module_lowering.specs.Modules.{bindings_count, hints, offsets_from};

use lower_walk::lower_names::behind;
use scope_analysis::{BindingId, Scopes};
use shared_text::Name;
use sqlite_items::Items;
use std::alloc::{AllocError, Global};

/// How many bindings a module has.
fn names_count(scopes: &Scopes, home: usize) -> Result<usize, AllocError>
    ensures { IfOk result (λ n. n ≡ length (names_in (slice_get scopes.now.modules.items home))) }
{
    let mut number: usize = 0;
    while let Some(_binding) = scopes.own(BindingId::Own { home, number }) {
        let Some(next) = number.checked_add(1) else {
            return Err(AllocError);
        };
        number = next;
    }
    Ok(number)
}

/// Of each module the number of its first binding among those of all modules, and how many there are.
#[derive(Drop)]
pub(crate) struct Offsets {
    pub(crate) offsets: Items<u32>,
    pub(crate) count: u32,
}

/// The offsets of a graph of so many modules.
pub(crate) fn offsets_of(
    alloc: Global,
    scopes: &Scopes,
    modules: usize,
) -> Result<Offsets, AllocError>
    requires { modules ≡ length scopes.now.modules.items }
    ensures { IfOk result (λ o. o ≡ offsets_at scopes.now) }
{
    let mut offsets = Items::new(alloc);
    let mut count: u32 = 0;
    for home in 0..modules {
        offsets.push(count)?;
        let names = names_count(scopes, home)?;
        let end = behind(count, names)?;
        count = end.0;
    }
    Ok(Offsets { offsets, count })
}

fn push_hints(
    alloc: Global,
    scopes: &Scopes,
    home: usize,
    out: &mut Items<Option<Name>>,
) -> Result<(), AllocError>
    ensures { OnOk result (out.new ≡ out.old ++ map (λ b. Some b.name) (names_in (slice_get scopes.now.modules.items home))) }
{
    let mut number: usize = 0;
    while let Some(binding) = scopes.own(BindingId::Own { home, number }) {
        out.push(Some(binding.name.copy(alloc)?))?;
        let Some(next) = number.checked_add(1) else {
            return Err(AllocError);
        };
        number = next;
    }
    Ok(())
}

/// Each binding has its name as a hint.
pub(crate) fn hints_of(
    alloc: Global,
    scopes: &Scopes,
    modules: usize,
) -> Result<Items<Option<Name>>, AllocError>
    requires { modules ≡ length scopes.now.modules.items }
    ensures { IfOk result (λ hs. hs ≡ hints scopes.now.modules.items) }
{
    let mut out = Items::new(alloc);
    for home in 0..modules {
        push_hints(alloc, scopes, home, &mut out)?;
    }
    Ok(out)
}

/// Names without a hint.
pub(crate) fn push_unnamed(count: usize, out: &mut Items<Option<Name>>) -> Result<(), AllocError>
    ensures { OnOk result (out.new ≡ out.old ++ replicate count None) }
{
    let mut left = count;
    while left > 0 {
        left -= 1;
        out.push(None)?;
    }
    Ok(())
}
