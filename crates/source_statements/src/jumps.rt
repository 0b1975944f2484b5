//! Jumps and `return` (ECMA-262, 6th edition, 13.8 to 13.10, 13.13).

ghost use Rattle.std.specs.List.{list_any};
ghost use Rattle.std.specs.Prelude.{◌≡◌};
ghost use Rattle.std.specs.Str.{bytes_eq};
ghost use Rattle.source_meaning.specs.Loops.{is_for};
ghost use Rattle.source_meaning.specs.Statements.{broken, broken_at, is_label, return_value};
ghost use Rattle.source_moves.specs.Moves.{Steps};
ghost use Rattle.source_moves.specs.Seen.{state_of};

use crate::pending::StatementWork;
use es_value::Value;
use es6_ast::Expression;
use source_moves::{Move, Moved, PendingWork, begin};
use source_state::{BorrowedName, Completion, Labels, Node, State};
use source_trees::has_name;

fn is_label<'a>(label: &BorrowedName<'a>, target: &Option<BorrowedName<'a>>) -> bool
    ensures { result ≡ is_label label.now target.now }
{
    match target {
        None => false,
        Some(target) => label.is(target.bytes()),
    }
}

/// A jump out of a statement with this label.
pub fn broken_at<'a, W: PendingWork<'a>>(
    label: &BorrowedName<'a>,
    target: Option<BorrowedName<'a>>,
    st: &State<'a, W>,
) -> Moved<'a>
    ensures { Steps W.seen result st.now (broken_at label.now (state_of W.seen st.now) target.entry) }
{
    if is_label(label, &target) {
        Ok(Move::hand(Completion::Done))
    } else {
        Ok(Move::hand(Completion::Breaks(target)))
    }
}

/// A jump out of a switch or a loop: without a label it ends the innermost one.
pub fn broken<'a, W: PendingWork<'a>>(
    target: Option<BorrowedName<'a>>,
    st: &State<'a, W>,
) -> Moved<'a>
    ensures { Steps W.seen result st.now (broken (state_of W.seen st.now) target.entry) }
{
    match target {
        None => Ok(Move::hand(Completion::Done)),
        Some(label) => Ok(Move::hand(Completion::Breaks(Some(label)))),
    }
}

#[tactic(auto, using(crate::proofs::Labels::any_reversed))]
fn is_among<'a>(labels: &Labels<'a>, label: &BorrowedName<'a>) -> bool
    ensures { result ≡ list_any (bytes_eq label.now) labels.now }
{
    has_name(labels.as_slice(), label.bytes())
}

/// LoopContinues (13.7.1.2): whether a jump to this label is the loop's own.
pub(crate) fn is_for<'a>(labels: &Labels<'a>, label: &Option<BorrowedName<'a>>) -> bool
    ensures { result ≡ is_for labels.now label.now }
{
    match label {
        None => true,
        Some(label) => is_among(labels, label),
    }
}

/// `return`.
pub fn return_value<'a, W: StatementWork<'a>>(
    value: Option<Node<'a, Expression>>,
    st: &mut State<'a, W>,
) -> Moved<'a>
    ensures { Steps W.seen result st.new (return_value value.entry (state_of W.seen st.old)) }
{
    match value {
        None => Ok(Move::hand(Completion::Returns(Value::Undefined))),
        Some(x) => begin(W::returning(), x, st),
    }
}
