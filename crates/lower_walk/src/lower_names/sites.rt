//! Places of calls, and what is met in functions.

ghost use Rattle.std.specs.Prelude.{◌≡◌};
ghost use Rattle.module_lowering.specs.Lowering.{sees_arguments, sees_this};
ghost use Rattle.module_lowering.specs.Names.{site_at};

use es_outside::Site;
use module_lowering::{Context, Lowerer};

/// The place of a call or of `new`, unless its chain has one already.
pub fn site_at(sited: bool, at: u32, context: &Context) -> Option<Site>
    ensures { result ≡ site_at sited at context.now }
{
    if sited {
        return None;
    }
    Some(Site {
        module: context.home,
        at,
    })
}

/// `this` is met.
pub fn sees_this(state: &mut Lowerer)
    ensures { state.new ≡ sees_this state.old }
{
    state.seen.this = true;
}

/// The arguments object is met.
pub fn sees_arguments(state: &mut Lowerer)
    ensures { state.new ≡ sees_arguments state.old }
{
    state.seen.arguments = true;
}
