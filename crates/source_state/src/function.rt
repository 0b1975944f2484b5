//! What function objects keep beside the heap (ECMA-262, 6th edition, 9.2, table 27).

use crate::nodes::Node;
use core_state::Environment;
use es_value::Value;
use es6_ast::{Arrow, Function};

/// The code: of a function, of a method or accessor, of an arrow, and of a class: whether it is derived, and its constructor.
#[derive(Drop)]
pub enum Code<'a> {
    PlainCode(Node<'a, Function>),
    MethodCode(Node<'a, Function>),
    ArrowCode(Node<'a, Arrow>),
    ConstructorCode(bool, Option<Node<'a, Function>>),
}

/// What a context keeps of its function (8.3, 8.1.1.3): the number of the record that has its `this`, the function, its home object
/// and its `new.target`. An arrow keeps that of the context that made it; of another function the home object alone is kept.
#[derive(Drop)]
pub struct Own {
    pub this_record: usize,
    pub callee: Value,
    pub home: Value,
    pub target: Value,
}

/// What a function object keeps. `home` is the number of its module.
#[derive(Drop)]
pub struct Closure<'a> {
    pub code: Code<'a>,
    pub environment: Environment,
    pub own: Own,
    pub home: u32,
}
