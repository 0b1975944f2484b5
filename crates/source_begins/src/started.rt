//! Statements that begin (ECMA-262, 6th edition, 13, 14).

ghost use Rattle.std.specs.Prelude.{List, ◌≡◌, ◌∷◌, [], ℕ};
ghost use Rattle.es6_ast.specs.declared.tree.Class.{out-Class};
ghost use Rattle.source_begins.specs.Begun.{jump_started, loop_started, simple_started, statement_started};
ghost use Rattle.source_meaning.specs.Modules.{name_or_default};
ghost use Rattle.source_meaning.specs.Nodes.{declare_class, label_of, run_statements, start_statement};
ghost use Rattle.source_meaning.specs.State.{Labelling, Start};
ghost use Rattle.source_meaning.specs.Steps.{controls, pushed};
ghost use Rattle.source_meaning.specs.Trees.{optional_name};
ghost use Rattle.source_moves.specs.Moves.{Steps};
ghost use Rattle.source_moves.specs.Seen.{state_of};

use crate::pending::BeginWork;
use es6_ast::{Class, Identifier, Statement};
use source_moves::{Move, Moved, at_node, begin, push};
use source_objects::begin_class;
use source_state::{BorrowedName, Completion, Control, ForOfLoop, Labels, Node, State, Statements};
use source_statements::{
    for_loop, for_of, plain_loop, return_value, run_block, run_turn, test_condition, test_loop,
    try_statement, variables_on,
};
use source_takers::{JumpNode, LoopNode, SimpleNode, StatementNode, statement_node};
use sqlite_items::Boxed;
use std::alloc::Global;

/// The name of a class, or that of a default export which has none.
fn class_name<'a>(class: &'a Class) -> BorrowedName<'a>
    ensures { result ≡ name_or_default (optional_name (out-Class class.now).name) }
{
    match &class.name {
        None => BorrowedName::of(b"*default*"),
        Some(name) => BorrowedName::of(name.name.bytes()),
    }
}

/// A class declaration initializes its name (14.5.15).
pub(crate) fn declare_class<'a, W: BeginWork<'a>>(
    alloc: Global,
    class: Node<'a, Class>,
    st: &mut State<'a, W>,
) -> Moved<'a>
    ensures { Steps W.seen result st.new (declare_class (name_or_default (optional_name (out-Class class.entry).name)) class.entry (state_of W.seen st.old)) }
{
    push(st, W::name_given(class_name(class.get())))?;
    begin_class(alloc, class, st)
}

/// A block, a declaration or what has no jump begins.
fn start_simple<'a, W: BeginWork<'a>>(
    alloc: Global,
    node: SimpleNode<'a>,
    st: &mut State<'a, W>,
) -> Moved<'a>
    ensures { Steps W.seen result st.new (simple_started node.entry (state_of W.seen st.old)) }
{
    match node {
        SimpleNode::Block(block) => run_block(alloc, block.get(), st),
        SimpleNode::Variables(_, kind, parts) => variables_on(kind, parts, st),
        SimpleNode::Empty(_) | SimpleNode::Debugger(_) | SimpleNode::FunctionDeclaration(_) => {
            Ok(Move::hand(Completion::Done))
        }
        SimpleNode::Expression(_, x) => begin(W::ignoring(), x, st),
        SimpleNode::If(_, first, more, otherwise) => {
            test_condition(first.get(), more, otherwise, st)
        }
        SimpleNode::ClassDeclaration(class) => declare_class(alloc, class, st),
    }
}

/// A loop begins.
fn start_loop<'a, W: BeginWork<'a>>(
    alloc: Global,
    labels: Labels<'a>,
    node: LoopNode<'a>,
    st: &mut State<'a, W>,
) -> Moved<'a>
    ensures { Steps W.seen result st.new (loop_started node.entry labels.entry (state_of W.seen st.old)) }
{
    match node {
        LoopNode::DoWhile(_, body, test) => {
            run_turn(alloc, plain_loop(labels, test.get(), body.get()), st)
        }
        LoopNode::While(_, test, body) => {
            test_loop(alloc, plain_loop(labels, test.get(), body.get()), st)
        }
        LoopNode::For(_, first, test, update, body) => for_loop(
            alloc,
            labels,
            first.get(),
            test.get(),
            update.get(),
            body.get(),
            st,
        ),
        LoopNode::ForOf(_, target, subject, body) => {
            let of = ForOfLoop {
                labels,
                target,
                body,
            };
            for_of(alloc, of, subject.get(), st)
        }
    }
}

/// The label of a jump.
fn label_of<'a>(label: &'a Option<Identifier>) -> Option<BorrowedName<'a>>
    ensures { result ≡ label_of label.now }
{
    match label {
        None => None,
        Some(label) => Some(BorrowedName::of(label.name.bytes())),
    }
}

/// A labelled statement begins (13.13.14).
fn labelled<'a, W: BeginWork<'a>>(
    labels: Labels<'a>,
    label: &'a Identifier,
    body: &'a Boxed<Statement>,
    st: &mut State<'a, W>,
) -> Moved<'a>
    ensures { Steps W.seen result st.new (controls (Start (label.now.name ∷ labels.entry) body.now) (pushed (Labelling label.now.name) (state_of W.seen st.old))) }
{
    let mut labels = labels;
    labels.push(BorrowedName::of(label.name.bytes()))?;
    push(st, W::labelling(BorrowedName::of(label.name.bytes())))?;
    Ok(Move::Goes(Control::Start(labels, Node::of(body.get()))))
}

/// A jump, or where one leads, begins.
fn start_jump<'a, W: BeginWork<'a>>(
    alloc: Global,
    labels: Labels<'a>,
    node: JumpNode<'a>,
    st: &mut State<'a, W>,
) -> Moved<'a>
    ensures { Steps W.seen result st.new (jump_started node.entry labels.entry (state_of W.seen st.old)) }
{
    match node {
        JumpNode::Continue(_, label) => Ok(Move::hand(Completion::Continues(label_of(
            label.get(),
        )))),
        JumpNode::Break(_, label) => Ok(Move::hand(Completion::Breaks(label_of(label.get())))),
        JumpNode::Return(_, value) => return_value(value, st),
        JumpNode::Switch(_, subject, cases) => begin(W::subject(cases), subject, st),
        JumpNode::Labelled(_, label, body) => labelled(labels, label.get(), body.get(), st),
        JumpNode::Throw(_, value) => begin(W::throwing(), value, st),
        JumpNode::Try(_, block, catch, last) => {
            try_statement(alloc, block.get(), catch.get(), last.get(), st)
        }
    }
}

/// A statement that is taken apart begins.
fn start_open<'a, W: BeginWork<'a>>(
    alloc: Global,
    labels: Labels<'a>,
    node: StatementNode<'a>,
    st: &mut State<'a, W>,
) -> Moved<'a>
    ensures { Steps W.seen result st.new (statement_started node.entry labels.entry (state_of W.seen st.old)) }
{
    match node {
        StatementNode::Simple(node) => start_simple(alloc, node, st),
        StatementNode::Loop(node) => start_loop(alloc, labels, node, st),
        StatementNode::Jump(node) => start_jump(alloc, labels, node, st),
    }
}

/// A statement with these labels begins.
pub fn start_statement<'a, W: BeginWork<'a>>(
    alloc: Global,
    labels: Labels<'a>,
    statement: &'a Statement,
    st: &mut State<'a, W>,
) -> Moved<'a>
    ensures { Steps W.seen result st.new (start_statement labels.entry statement.now (state_of W.seen st.old)) }
{
    at_node(statement.span().begin, st);
    start_open(alloc, labels, statement_node(statement), st)
}

/// Statements begin one by one (13.2.13).
pub fn run_statements<'a, W: BeginWork<'a>>(
    alloc: Global,
    statements: &Statements<'a>,
    st: &mut State<'a, W>,
) -> Moved<'a>
    ensures { Steps W.seen result st.new (run_statements statements.now (state_of W.seen st.old)) }
{
    match statements.first() {
        None => Ok(Move::hand(Completion::Done)),
        Some((first, rest)) => {
            push(st, W::statements_rest(rest))?;
            start_statement(alloc, Labels::new(alloc), first, st)
        }
    }
}
