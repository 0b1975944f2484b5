//! Code that has temporaries of its own.

ghost use Rattle.std.specs.Prelude.{◌≡◌};
ghost use Rattle.module_lowering.specs.Lowering.{entered, unseen};

use core_ast::Var;
use module_lowering::{Lowerer, Seen};
use sqlite_items::Items;
use std::alloc::Global;
use std::mem;

/// The temporaries of what is round a piece of code, and what was met in it.
#[derive(Drop)]
pub(crate) struct Outer {
    pub(crate) locals: Items<Var>,
    pub(crate) seen: Seen,
}

/// A piece of code begins that has temporaries of its own.
pub(crate) fn enter(alloc: Global, state: &mut Lowerer) -> Outer
    ensures outer { result ≡ record { locals = state.old.names.locals; seen = state.old.seen } }
    ensures inner { state.new ≡ entered unseen state.old }
{
    let locals = mem::replace(&mut state.names.locals, Items::new(alloc));
    let seen = state.seen;
    state.seen = Seen {
        this: false,
        arguments: false,
    };
    Outer { locals, seen }
}

/// It ends, with these temporaries.
pub(crate) fn leave(outer: Outer, state: &mut Lowerer) -> Items<Var>
    ensures locals { result ≡ state.old.names.locals }
    ensures outer { state.new ≡ record state.old { names = record { fresh = state.old.names.fresh; locals = outer.locals }; seen = outer.seen } }
{
    let Outer { locals, seen } = outer;
    state.seen = seen;
    mem::replace(&mut state.names.locals, locals)
}
