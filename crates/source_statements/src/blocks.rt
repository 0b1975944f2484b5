//! Blocks, and `try` (ECMA-262, 6th edition, 13.2.13, 13.15.7, 13.15.8).

ghost use Rattle.std.specs.Prelude.{◌≡◌, OnOk};
ghost use Rattle.source_meaning.specs.Statements.{catch_begun, catches, finish, run_block, try_block, try_statement};
ghost use Rattle.source_moves.specs.Moves.{Steps};
ghost use Rattle.source_moves.specs.Seen.{state_of};

use crate::pending::StatementWork;
use crate::scopes::{enter_names, scope_entered};
use es_value::Value;
use es6_ast::{Block, Catch, VariableKind};
use source_moves::{Move, Moved, push};
use source_state::{Binds, Completion, Control, Node, State, Statements};
use source_trees::pattern_bindings;
use sqlite_items::Boxed;
use std::alloc::{AllocError, Global};

/// A block.
pub fn run_block<'a, W: StatementWork<'a>>(
    alloc: Global,
    block: &'a Block,
    st: &mut State<'a, W>,
) -> Moved<'a>
    ensures { Steps W.seen result st.new (run_block block.now (state_of W.seen st.old)) }
{
    let statements = Statements::of(&block.statements);
    scope_entered(alloc, &statements, st)?;
    Ok(Move::Goes(Control::Run(statements)))
}

/// A block, with a catch where there is one.
fn try_block<'a, W: StatementWork<'a>>(
    alloc: Global,
    block: &'a Block,
    catch: &'a Option<Boxed<Catch>>,
    st: &mut State<'a, W>,
) -> Moved<'a>
    ensures { Steps W.seen result st.new (try_block block.now catch.now (state_of W.seen st.old)) }
{
    match catch {
        None => run_block(alloc, block, st),
        Some(catch) => {
            push(st, W::catching(Node::of(catch.get())))?;
            run_block(alloc, block, st)
        }
    }
}

/// `try`, with a finally where there is one.
pub fn try_statement<'a, W: StatementWork<'a>>(
    alloc: Global,
    block: &'a Block,
    catch: &'a Option<Boxed<Catch>>,
    last: &'a Option<Block>,
    st: &mut State<'a, W>,
) -> Moved<'a>
    ensures { Steps W.seen result st.new (try_statement block.now catch.now last.now (state_of W.seen st.old)) }
{
    match last {
        None => try_block(alloc, block, catch, st),
        Some(last) => {
            push(st, W::finishing(Node::of(last)))?;
            try_block(alloc, block, catch, st)
        }
    }
}

/// The names of a catch's parameter have a record, in which its block runs.
fn catch_begun<'a, W: StatementWork<'a>>(
    alloc: Global,
    catch: &'a Catch,
    st: &mut State<'a, W>,
) -> Result<(), AllocError>
    ensures { OnOk result (state_of W.seen st.new ≡ catch_begun catch.now (state_of W.seen st.old)) }
{
    let bindings = pattern_bindings(alloc, VariableKind::Let, &catch.parameter)?;
    enter_names(alloc, bindings, st)?;
    push(st, W::catch_block(Node::of(&catch.body)))
}

/// A catch takes what was thrown.
pub fn catches<'a, W: StatementWork<'a>>(
    alloc: Global,
    catch: &'a Catch,
    value: Value,
    st: &mut State<'a, W>,
) -> Moved<'a>
    ensures { Steps W.seen result st.new (catches catch.now (state_of W.seen st.old) value) }
{
    catch_begun(alloc, catch, st)?;
    let parameter = Node::of(&catch.parameter);
    Ok(Move::Goes(Control::Destructure(Binds::Initializes, parameter, value)))
}

/// A finally runs, and behind it the completion that it stands in the way of is handed on.
pub fn finish<'a, W: StatementWork<'a>>(
    alloc: Global,
    last: &'a Block,
    completion: Completion<'a>,
    st: &mut State<'a, W>,
) -> Moved<'a>
    ensures { Steps W.seen result st.new (finish last.now completion.entry (state_of W.seen st.old)) }
{
    push(st, W::pending(completion))?;
    run_block(alloc, last, st)
}
