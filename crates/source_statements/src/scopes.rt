//! Scopes of blocks (ECMA-262, 6th edition, 13.2.14): a record where they declare names, and their functions, which are made first.

ghost use Rattle.std.specs.Prelude.{◌≡◌, OnOk};
ghost use Rattle.source_meaning.specs.Statements.{scope_entered};
ghost use Rattle.source_moves.specs.Seen.{state_of};
ghost use Rattle.source_statements.specs.Scopes.{block_entered, block_with, have_names, names_entered, scope_begun};

use crate::pending::StatementWork;
use source_functions::with_functions;
use source_moves::{enter_bindings, push};
use source_state::{Binding, State, Statements};
use source_trees::{block_bindings, functions_in};
use sqlite_items::Items;
use std::alloc::{AllocError, Global};

/// A record of these names, which is left behind what follows.
pub(crate) fn enter_names<'a, W: StatementWork<'a>>(
    alloc: Global,
    bindings: Items<Binding<'a>>,
    st: &mut State<'a, W>,
) -> Result<(), AllocError>
    ensures { OnOk result (state_of W.seen st.new ≡ names_entered bindings.entry (state_of W.seen st.old)) }
{
    let outside = st.context.environment.share()?;
    push(st, W::restore(outside))?;
    enter_bindings(alloc, bindings, st)
}

fn have_names<'a>(bindings: &Items<Binding<'a>>) -> bool
    ensures { result ≡ have_names bindings.now }
{
    match bindings.as_slice().split_first() {
        None => false,
        Some(_) => true,
    }
}

/// A record of these names, if there are any.
pub(crate) fn begin_scope<'a, W: StatementWork<'a>>(
    alloc: Global,
    bindings: Items<Binding<'a>>,
    st: &mut State<'a, W>,
) -> Result<(), AllocError>
    ensures { OnOk result (state_of W.seen st.new ≡ scope_begun bindings.entry (state_of W.seen st.old)) }
{
    if have_names(&bindings) {
        enter_names(alloc, bindings, st)
    } else {
        Ok(())
    }
}

/// A record of these names with the functions of a block.
fn enter_block<'a, W: StatementWork<'a>>(
    alloc: Global,
    bindings: Items<Binding<'a>>,
    statements: &Statements<'a>,
    st: &mut State<'a, W>,
) -> Result<(), AllocError>
    ensures { OnOk result (state_of W.seen st.new ≡ block_entered bindings.entry statements.now (state_of W.seen st.old)) }
{
    enter_names(alloc, bindings, st)?;
    let functions = functions_in(alloc, statements)?;
    with_functions(alloc, functions.as_slice(), st)
}

fn begin_block<'a, W: StatementWork<'a>>(
    alloc: Global,
    bindings: Items<Binding<'a>>,
    statements: &Statements<'a>,
    st: &mut State<'a, W>,
) -> Result<(), AllocError>
    ensures { OnOk result (state_of W.seen st.new ≡ block_with bindings.entry statements.now (state_of W.seen st.old)) }
{
    if have_names(&bindings) {
        enter_block(alloc, bindings, statements, st)
    } else {
        Ok(())
    }
}

/// The scope of these statements.
#[tactic(auto, using(crate::proofs::Entered::block_scope))]
pub fn scope_entered<'a, W: StatementWork<'a>>(
    alloc: Global,
    statements: &Statements<'a>,
    st: &mut State<'a, W>,
) -> Result<(), AllocError>
    ensures { OnOk result (state_of W.seen st.new ≡ scope_entered statements.now (state_of W.seen st.old)) }
{
    let bindings = block_bindings(alloc, statements)?;
    begin_block(alloc, bindings, statements, st)
}
