//! What the arms stand on.

ghost use Rattle.std.specs.Prelude.{◌≡◌};

use lower_walk::{Around, Here};
use module_lowering::Context;

/// What is made of statements where one stands.
#[derive(Drop)]
pub struct Flow<'a, E, P, S, F> {
    pub here: Here<'a, E, P, S, F>,
}

/// The same where something else is round it.
pub(crate) fn placed<'a, E, P, S, F>(
    here: &Here<'a, E, P, S, F>,
    context: &'a Context,
) -> Flow<'a, E, P, S, F>
    ensures { result ≡ record { here = record here.now { around = record here.now.around { context = context.entry } } } }
{
    let around = Around {
        context,
        ..here.around
    };
    let here = Here { around, ..*here };
    Flow { here }
}
