//! What is still to be shown of a tree.

use crate::text::Text;
use es6_ast::{Expression, Pattern, Statement};
use std::alloc::{AllocError, Global};

/// What is still to be shown.
#[derive(Drop)]
enum Task<'a> {
    Text(Vec<u8>),
    Expression(&'a Expression),
    Statement(&'a Statement),
    Pattern(&'a Pattern),
}

/// A tree whose lines are to stand in the text at an offset.
#[derive(Drop)]
struct Inner<'a> {
    at: usize,
    tree: Task<'a>,
}

/// The lines of nodes under way. An expression, a statement or a pattern inside another node is left for later, so that no function
/// calls itself and no tree is too deep.
#[derive(Drop)]
pub(crate) struct Nodes<'a> {
    whole: Text,
    /// What follows the whole, the first of it last.
    left: Vec<Task<'a>>,
    /// The text of the node that is shown, which follows the whole before that.
    pub(crate) text: Text,
    /// The trees inside this node.
    inner: Vec<Inner<'a>>,
}

impl<'a> Nodes<'a> {
    /// No line.
    pub(crate) fn new(alloc: Global) -> Nodes<'a> {
        Nodes {
            whole: Text::new(alloc),
            left: Vec::new(alloc),
            text: Text::new(alloc),
            inner: Vec::new(alloc),
        }
    }

    /// The bytes of all lines, where memory sufficed for them.
    pub(crate) fn into_bytes(mut self) -> Result<Vec<u8>, AllocError> {
        for _ in 0..u64::MAX {
            self.turn();
            match self.left.pop() {
                Some(task) => self.show(task),
                None => return self.into_whole(),
            }
        }
        Err(AllocError)
    }

    fn into_whole(self) -> Result<Vec<u8>, AllocError> {
        let Nodes {
            whole,
            left: _,
            text: _,
            inner: _,
        } = self;
        whole.into_bytes()
    }

    /// Leaves the trees inside the node that is shown, with the text behind each.
    fn turn(&mut self) {
        for _ in 0..self.inner.len() {
            if let Some(Inner { at, tree }) = self.inner.pop() {
                let behind = self.text.take_from(at);
                self.keep(Task::Text(behind));
                self.keep(tree);
            }
        }
        let text = self.text.take_from(0);
        self.whole.add(text.as_slice());
        self.whole.note(self.text.is_whole());
    }

    fn keep(&mut self, task: Task<'a>) {
        let sufficed = self.left.push(task).is_ok();
        self.whole.note(sufficed);
    }

    fn show(&mut self, task: Task<'a>) {
        match task {
            Task::Text(text) => self.text.add(text.as_slice()),
            Task::Expression(expression) => self.show_expression(expression),
            Task::Statement(statement) => self.show_statement(statement),
            Task::Pattern(pattern) => self.show_pattern(pattern),
        }
    }

    fn leave(&mut self, tree: Task<'a>) {
        let at = self.text.len();
        let sufficed = self.inner.push(Inner { at, tree }).is_ok();
        self.whole.note(sufficed);
    }

    /// Leaves an expression.
    pub(crate) fn expression(&mut self, expression: &'a Expression) {
        self.leave(Task::Expression(expression));
    }

    /// Leaves a statement.
    pub(crate) fn statement(&mut self, statement: &'a Statement) {
        self.leave(Task::Statement(statement));
    }

    /// Leaves a pattern.
    pub(crate) fn pattern(&mut self, pattern: &'a Pattern) {
        self.leave(Task::Pattern(pattern));
    }
}
