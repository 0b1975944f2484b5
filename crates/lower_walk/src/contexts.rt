//! What is round the parts of a node, where that is more or less than what is round itself. Lists are copied: a construct that adds to
//! them costs what stands round it, and no other node does.

ghost use Rattle.std.specs.Prelude.{◌≡◌, [], ◌++◌, IfOk};
ghost use Rattle.module_lowering.specs.Functions.{in_arrow, in_function};
ghost use Rattle.module_lowering.specs.Statements.{in_subject, targeting};

use crate::copies::copied_targets;
use module_lowering::{Context, Dead, JumpForm, JumpTarget, ThisKind};
use shared_text::Name;
use sqlite_items::Items;
use std::alloc::{AllocError, Global};

/// In a parameter list or a catch parameter whose names begin at these places.
pub fn in_places(alloc: Global, places: &[u32], context: &Context) -> Result<Context, AllocError>
    ensures { IfOk result (λ c. c ≡ record context.now { heads = places.now ++ context.now.heads }) }
{
    let mut heads = Items::from_slice(alloc, places)?;
    heads.append(Items::from_slice(alloc, context.heads.as_slice())?)?;
    Ok(Context {
        home: context.home,
        this: context.this,
        heads,
        dead: Items::from_slice(alloc, context.dead.as_slice())?,
        targets: copied_targets(alloc, context.targets.as_slice())?,
    })
}

/// In a function that is no arrow.
pub fn in_function(alloc: Global, this: ThisKind, context: &Context) -> Result<Context, AllocError>
    ensures { IfOk result (λ c. c ≡ in_function this context.now) }
{
    Ok(Context {
        home: context.home,
        this,
        heads: Items::from_slice(alloc, context.heads.as_slice())?,
        dead: Items::from_slice(alloc, context.dead.as_slice())?,
        targets: Items::new(alloc),
    })
}

/// In an arrow.
pub fn in_arrow(alloc: Global, context: &Context) -> Result<Context, AllocError>
    ensures { IfOk result (λ c. c ≡ in_arrow context.now) }
{
    in_function(alloc, context.this, context)
}

/// In the subject of a for-of, where these names of its head have no value.
pub fn in_subject(alloc: Global, dead: &[Dead], context: &Context) -> Result<Context, AllocError>
    ensures { IfOk result (λ c. c ≡ in_subject dead.now context.now) }
{
    let mut all = Items::from_slice(alloc, dead)?;
    all.append(Items::from_slice(alloc, context.dead.as_slice())?)?;
    Ok(Context {
        home: context.home,
        this: context.this,
        heads: Items::from_slice(alloc, context.heads.as_slice())?,
        dead: all,
        targets: copied_targets(alloc, context.targets.as_slice())?,
    })
}

fn with_targets(
    alloc: Global,
    targets: Items<JumpTarget>,
    context: &Context,
) -> Result<Context, AllocError>
    ensures { IfOk result (λ c. c ≡ record context.now { targets = targets }) }
{
    Ok(Context {
        home: context.home,
        this: context.this,
        heads: Items::from_slice(alloc, context.heads.as_slice())?,
        dead: Items::from_slice(alloc, context.dead.as_slice())?,
        targets,
    })
}

/// In a statement that a jump may go to, with this label or with none.
pub fn targeting(
    alloc: Global,
    label: Option<Name>,
    at: u32,
    form: JumpForm,
    context: &Context,
) -> Result<Context, AllocError>
    ensures { IfOk result (λ c. c ≡ targeting label (record { at = at; form = form }) context.now) }
{
    let mut targets = Items::new(alloc);
    targets.push(JumpTarget { label, at, form })?;
    targets.append(copied_targets(alloc, context.targets.as_slice())?)?;
    with_targets(alloc, targets, context)
}
