//! What a step does next.

use crate::completion::{Call, Completion};
use crate::nodes::{Node, Nodes};
use crate::partial::{Binds, Labels};
use crate::statements::Statements;
use es_calls::BuiltinCall;
use es_value::Value;
use es6_ast::{Expression, Item, Pattern, Statement};

/// It begins a node, or one of which a reference is wanted; it begins statements, items, a statement with these labels, a pattern with
/// its value; it takes a turn of an operation; it calls; or it hands a completion to the top frame.
#[derive(Drop)]
pub enum Control<'a> {
    Begin(Node<'a, Expression>),
    Refer(Node<'a, Expression>),
    Run(Statements<'a>),
    RunItems(Nodes<'a, Item>),
    Start(Labels<'a>, Node<'a, Statement>),
    Destructure(Binds, Node<'a, Pattern>, Value),
    Turn(BuiltinCall),
    Calls(Call),
    Hand(Completion<'a>),
}
