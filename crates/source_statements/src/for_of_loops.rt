//! for-of (ECMA-262, 6th edition, 13.7.5.11 to 13.7.5.13): the subject sees the names of the head without values, and each turn has new
//! ones.

ghost use Rattle.std.specs.Prelude.{◌≡◌, OnOk};
ghost use Rattle.es6_ast.specs.declared.tree.ForTarget.{out-ForTarget};
ghost use Rattle.source_meaning.specs.Loops.{bind_head, for_of, for_of_jumped, for_of_step, for_of_stepped, for_of_valued, head_names, lexical_first, subject_valued};
ghost use Rattle.source_meaning.specs.State.{Continues};
ghost use Rattle.source_meaning.specs.Trees.{lexical_of, pattern_names};
ghost use Rattle.source_moves.specs.Moves.{Steps};
ghost use Rattle.source_moves.specs.Seen.{state_of};

use crate::declarations::binds_of;
use crate::jumps::is_for;
use crate::pending::StatementWork;
use crate::scopes::begin_scope;
use es_operation_steps::Operation;
use es_value::Value;
use es6_ast::{Expression, ForTarget, Pattern, VariableKind};
use source_moves::{Move, Moved, push};
use source_patterns::{closes, operate_alone};
use source_state::{Binds, BorrowedName, Completion, Control, ForOfLoop, Node, State};
use source_trees::pattern_bindings;
use std::alloc::{AllocError, Global};

#[tactic(auto, using(crate::proofs::Entered::lexical_scope))]
fn declared_entered<'a, W: StatementWork<'a>>(
    alloc: Global,
    kind: VariableKind,
    pattern: &'a Pattern,
    st: &mut State<'a, W>,
) -> Result<(), AllocError>
    ensures { OnOk result (state_of W.seen st.new ≡ lexical_first (lexical_of kind (pattern_names pattern.now)) (state_of W.seen st.old)) }
{
    let bindings = pattern_bindings(alloc, kind, pattern)?;
    begin_scope(alloc, bindings, st)
}

/// The names of a head have a record, if it declares some.
fn head_entered<'a, W: StatementWork<'a>>(
    alloc: Global,
    target: &'a ForTarget,
    st: &mut State<'a, W>,
) -> Result<(), AllocError>
    ensures { OnOk result (state_of W.seen st.new ≡ lexical_first (head_names (out-ForTarget target.now)) (state_of W.seen st.old)) }
{
    match target {
        ForTarget::Declared { kind, pattern, .. } => declared_entered(alloc, *kind, pattern, st),
        ForTarget::Assigned(_) => Ok(()),
    }
}

/// A for-of loop as it begins.
pub fn for_of<'a, W: StatementWork<'a>>(
    alloc: Global,
    of: ForOfLoop<'a>,
    subject: &'a Expression,
    st: &mut State<'a, W>,
) -> Moved<'a>
    ensures { Steps W.seen result st.new (for_of of.entry subject.now (state_of W.seen st.old)) }
{
    let target = of.target.get();
    push(st, W::for_of_subject(of))?;
    head_entered(alloc, target, st)?;
    Ok(Move::Goes(Control::Begin(Node::of(subject))))
}

/// The subject is there: its iterator is taken.
pub fn subject_valued<'a, W: StatementWork<'a>>(
    alloc: Global,
    of: ForOfLoop<'a>,
    value: Value,
    st: &mut State<'a, W>,
) -> Moved<'a>
    ensures { Steps W.seen result st.new (subject_valued of.entry (state_of W.seen st.old) value) }
{
    operate_alone(
        alloc,
        W::for_of_iterator(of),
        Operation::GetIterator,
        value,
        st,
    )
}

/// The next turn.
pub fn for_of_step<'a, W: StatementWork<'a>>(
    alloc: Global,
    of: ForOfLoop<'a>,
    iterator: Value,
    st: &mut State<'a, W>,
) -> Moved<'a>
    ensures { Steps W.seen result st.new (for_of_step of.entry (state_of W.seen st.old) iterator) }
{
    let work = W::for_of_step(of, iterator.share()?);
    operate_alone(alloc, work, Operation::IteratorStep, iterator, st)
}

/// A step gave a result, or false at the end.
pub fn for_of_stepped<'a, W: StatementWork<'a>>(
    alloc: Global,
    of: ForOfLoop<'a>,
    iterator: Value,
    value: Value,
    st: &mut State<'a, W>,
) -> Moved<'a>
    ensures { Steps W.seen result st.new (for_of_stepped of.entry iterator (state_of W.seen st.old) value) }
{
    match value {
        Value::Object(result) => {
            let work = W::for_of_value(of, iterator);
            operate_alone(
                alloc,
                work,
                Operation::IteratorValue,
                Value::Object(result),
                st,
            )
        }
        _ => Ok(Move::hand(Completion::Done)),
    }
}

/// A head takes a value.
fn bind_head<'a, W: StatementWork<'a>>(
    value: Value,
    target: &'a ForTarget,
    st: &State<'a, W>,
) -> Moved<'a>
    ensures { Steps W.seen result st.now (bind_head value (state_of W.seen st.now) (out-ForTarget target.now)) }
{
    match target {
        ForTarget::Declared { kind, pattern, .. } => Ok(Move::Goes(Control::Destructure(
            binds_of(*kind),
            Node::of(pattern),
            value,
        ))),
        ForTarget::Assigned(pattern) => Ok(Move::Goes(Control::Destructure(
            Binds::Assigns,
            Node::of(pattern),
            value,
        ))),
    }
}

/// The value of a turn is there: its names are bound first.
pub fn for_of_valued<'a, W: StatementWork<'a>>(
    alloc: Global,
    of: ForOfLoop<'a>,
    iterator: Value,
    value: Value,
    st: &mut State<'a, W>,
) -> Moved<'a>
    ensures { Steps W.seen result st.new (for_of_valued of.entry iterator (state_of W.seen st.old) value) }
{
    let target = of.target.get();
    let body = of.body.share();
    push(st, W::for_of_body(of, iterator))?;
    head_entered(alloc, target, st)?;
    push(st, W::for_of_bound(body))?;
    bind_head(value, target, st)
}

fn for_of_continued<'a, W: StatementWork<'a>>(
    alloc: Global,
    of: ForOfLoop<'a>,
    iterator: Value,
    label: Option<BorrowedName<'a>>,
    st: &mut State<'a, W>,
) -> Moved<'a>
    ensures { Steps W.seen result st.new (for_of_jumped of.entry iterator (state_of W.seen st.old) (Continues label.entry)) }
{
    if is_for(&of.labels, &label) {
        for_of_step(alloc, of, iterator, st)
    } else {
        closes(alloc, iterator, Completion::Continues(label), st)
    }
}

/// A turn that ends otherwise closes the iterator, a jump out of the loop too.
pub fn for_of_jumped<'a, W: StatementWork<'a>>(
    alloc: Global,
    of: ForOfLoop<'a>,
    iterator: Value,
    completion: Completion<'a>,
    st: &mut State<'a, W>,
) -> Moved<'a>
    ensures { Steps W.seen result st.new (for_of_jumped of.entry iterator (state_of W.seen st.old) completion.entry) }
{
    match completion {
        Completion::Breaks(None) => closes(alloc, iterator, Completion::Done, st),
        Completion::Continues(label) => for_of_continued(alloc, of, iterator, label, st),
        completion => closes(alloc, iterator, completion, st),
    }
}
