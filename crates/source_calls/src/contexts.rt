//! Contexts that are copied (ECMA-262, 6th edition, 8.3).

ghost use Rattle.std.specs.Prelude.{◌≡◌, IfOk};
ghost use Rattle.source_calls.specs.Saved.{context_alone};
ghost use Rattle.source_moves.specs.Seen.{context_of};

use core_state::Stack;
use source_moves::PendingWork;
use source_state::{Context, Frame, Own};
use std::alloc::{AllocError, Global};

/// The same own parts of a context.
pub fn share_own(own: &Own) -> Result<Own, AllocError>
    ensures { IfOk result (λ shared. shared ≡ own.now) }
{
    let callee = own.callee.share()?;
    let home = own.home.share()?;
    let target = own.target.share()?;
    Ok(Own {
        this_record: own.this_record,
        callee,
        home,
        target,
    })
}

/// The context as it is, with this work alone.
pub(crate) fn context_with<'a, W: PendingWork<'a>>(
    alloc: Global,
    work: W,
    context: &Context<W>,
) -> Result<Context<W>, AllocError>
    ensures { IfOk result (λ saved. context_of W.seen saved ≡ context_alone (W.seen work) (context_of W.seen context.now)) }
{
    let environment = context.environment.share()?;
    let own = share_own(&context.own)?;
    let place = context.place;
    let mut frames = Stack::new(alloc);
    frames.push(Frame { place, work })?;
    Ok(Context {
        environment,
        home: context.home,
        own,
        place,
        frames,
    })
}
