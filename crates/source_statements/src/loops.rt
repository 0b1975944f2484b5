//! Loops as they begin (ECMA-262, 6th edition, 13.7.2, 13.7.3, 13.7.4.7): the names of `let` and `const` have a record.

ghost use Rattle.std.specs.Prelude.{◌≡◌, OnOk};
ghost use Rattle.es6_ast.specs.declared.tree.ForFirst.{out-ForFirst};
ghost use Rattle.source_meaning.specs.Loops.{for_by, for_loop, is_copied, lexical_first, names_of_kind, plain_loop};
ghost use Rattle.source_moves.specs.Moves.{Steps};
ghost use Rattle.source_moves.specs.Seen.{state_of};
ghost use Rattle.source_statements.specs.Variables.{loop_declared};

use crate::declarations::variables_on;
use crate::pending::StatementWork;
use crate::scopes::begin_scope;
use crate::turns::loop_begun;
use es6_ast::{Expression, ForFirst, Part, Statement, VariableKind};
use source_moves::{Moved, begin, push};
use source_state::{Labels, Loop, Node, Nodes, State};
use source_trees::parts_bindings;
use sqlite_items::{Boxed, Items};
use std::alloc::{AllocError, Global};

/// A loop that only tests.
pub fn plain_loop<'a>(
    labels: Labels<'a>,
    test: &'a Expression,
    body: &'a Boxed<Statement>,
) -> Loop<'a>
    ensures { result ≡ plain_loop labels.entry test.now body.now }
{
    Loop {
        labels,
        test: Some(Node::of(test)),
        update: None,
        copies: false,
        body: Node::of(body),
    }
}

/// The names that a declaration before a loop has.
#[tactic(auto, using(crate::proofs::Entered::lexical_scope))]
fn first_entered<'a, W: StatementWork<'a>>(
    alloc: Global,
    kind: VariableKind,
    parts: &'a Items<Part>,
    st: &mut State<'a, W>,
) -> Result<(), AllocError>
    ensures { OnOk result (state_of W.seen st.new ≡ lexical_first (names_of_kind kind parts.now) (state_of W.seen st.old)) }
{
    let bindings = parts_bindings(alloc, kind, parts.as_slice())?;
    begin_scope(alloc, bindings, st)
}

fn is_copied(kind: VariableKind) -> bool
    ensures { result ≡ is_copied kind }
{
    matches!(kind, VariableKind::Let)
}

fn for_variables<'a, W: StatementWork<'a>>(
    alloc: Global,
    of: Loop<'a>,
    kind: VariableKind,
    parts: &'a Items<Part>,
    st: &mut State<'a, W>,
) -> Moved<'a>
    ensures { Steps W.seen result st.new (loop_declared of.entry kind parts.now (state_of W.seen st.old)) }
{
    first_entered(alloc, kind, parts, st)?;
    let mut of = of;
    of.copies = is_copied(kind);
    push(st, W::loop_begin(of))?;
    variables_on(kind, Nodes::of(parts), st)
}

fn for_by<'a, W: StatementWork<'a>>(
    alloc: Global,
    of: Loop<'a>,
    first: &'a ForFirst,
    st: &mut State<'a, W>,
) -> Moved<'a>
    ensures { Steps W.seen result st.new (for_by of.entry (state_of W.seen st.old) (out-ForFirst first.now)) }
{
    match first {
        ForFirst::NoFirst => loop_begun(alloc, of, st),
        ForFirst::FirstExpression(x) => begin(W::loop_begin(of), Node::of(x), st),
        ForFirst::FirstVariables { kind, parts, .. } => for_variables(alloc, of, *kind, parts, st),
    }
}

fn boxed<'a>(node: &'a Option<Boxed<Expression>>) -> Option<Node<'a, Expression>>
    ensures { result ≡ node.now }
{
    match node {
        None => None,
        Some(node) => Some(Node::of(node.get())),
    }
}

/// `for` with three parts.
pub fn for_loop<'a, W: StatementWork<'a>>(
    alloc: Global,
    labels: Labels<'a>,
    first: &'a ForFirst,
    test: &'a Option<Boxed<Expression>>,
    update: &'a Option<Boxed<Expression>>,
    body: &'a Boxed<Statement>,
    st: &mut State<'a, W>,
) -> Moved<'a>
    ensures { Steps W.seen result st.new (for_loop labels.entry first.now test.now update.now body.now (state_of W.seen st.old)) }
{
    let of = Loop {
        labels,
        test: boxed(test),
        update: boxed(update),
        copies: false,
        body: Node::of(body),
    };
    for_by(alloc, of, first, st)
}
