//! Items of a module (ECMA-262, 6th edition, 15.2.1.20, 15.2.3.11).

ghost use Rattle.std.specs.Prelude.{◌≡◌, codes};
ghost use Rattle.es6_ast.specs.declared.tree.Class.{out-Class};
ghost use Rattle.source_meaning.specs.Modules.{default_name, name_or_default};
ghost use Rattle.source_meaning.specs.Nodes.{begin_item, declare_class, export_default, run_items};
ghost use Rattle.source_meaning.specs.Steps.{at_node};
ghost use Rattle.source_meaning.specs.Trees.{optional_name};
ghost use Rattle.source_moves.specs.Moves.{Steps};
ghost use Rattle.source_moves.specs.Seen.{state_of};

use crate::pending::BeginWork;
use crate::started::{declare_class, start_statement};
use es6_ast::{Class, DefaultExport, Item};
use source_moves::{Move, Moved, at_node, begin, push};
use source_state::{BorrowedName, Completion, Labels, Node, Nodes, State};
use std::alloc::Global;

/// A class that is the default export.
fn default_class<'a, W: BeginWork<'a>>(
    alloc: Global,
    class: &'a Class,
    st: &mut State<'a, W>,
) -> Moved<'a>
    ensures { Steps W.seen result st.new (declare_class (name_or_default (optional_name (out-Class class.now).name)) class.now (at_node (out-Class class.now).span.begin (state_of W.seen st.old))) }
{
    at_node(class.span.begin, st);
    declare_class(alloc, Node::of(class), st)
}

fn export_default<'a, W: BeginWork<'a>>(
    alloc: Global,
    value: &'a DefaultExport,
    st: &mut State<'a, W>,
) -> Moved<'a>
    ensures { Steps W.seen result st.new (export_default (state_of W.seen st.old) value.now) }
{
    match value {
        DefaultExport::DefaultFunction(_) => Ok(Move::hand(Completion::Done)),
        DefaultExport::DefaultClass(class) => default_class(alloc, class.get(), st),
        DefaultExport::DefaultValue(x) => {
            let name = BorrowedName::of(b"*default*");
            begin(W::name_given(name), Node::of(x), st)
        }
    }
}

fn begin_item<'a, W: BeginWork<'a>>(
    alloc: Global,
    item: &'a Item,
    st: &mut State<'a, W>,
) -> Moved<'a>
    ensures { Steps W.seen result st.new (begin_item (state_of W.seen st.old) item.now) }
{
    match item {
        Item::Statement(statement)
        | Item::ExportDeclaration {
            declaration: statement,
            ..
        } => start_statement(alloc, Labels::new(alloc), statement, st),
        Item::ExportDefault { value, .. } => export_default(alloc, value, st),
        Item::Import { .. } | Item::ExportNames { .. } | Item::ExportAll { .. } => {
            Ok(Move::hand(Completion::Done))
        }
    }
}

/// Items begin one by one.
pub fn run_items<'a, W: BeginWork<'a>>(
    alloc: Global,
    items: &Nodes<'a, Item>,
    st: &mut State<'a, W>,
) -> Moved<'a>
    ensures { Steps W.seen result st.new (run_items items.now (state_of W.seen st.old)) }
{
    match items.first() {
        None => Ok(Move::hand(Completion::Done)),
        Some((first, rest)) => {
            push(st, W::items_rest(rest))?;
            begin_item(alloc, first, st)
        }
    }
}
