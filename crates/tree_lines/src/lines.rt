//! Lines under way.

ghost use Rattle.std.specs.Prelude.{◌≡◌, ◌∷◌, ◌++◌, [], ℕ, List, Some, None, IfOk, OnErr};
ghost use Rattle.es_outside.specs.Sinks.{Adds};

use crate::nodes::Nodes;
use es6_ast::{Expression, Module, Parameter, Pattern, Statement};
use itoa::{Buffer, Integer};
use std::alloc::{AllocError, Global};
use std::marker::Model;

/// Lines under way. Contracts see their bytes, or none where memory was wanting for some of them: that is said once, at the end.
#[derive(Drop)]
pub struct Lines {
    alloc: Global,
    text: Vec<u8>,
    is_whole: bool,
}

impl Model for Lines {
    ghost use Rattle.std.specs.Prelude.{ℕ, List, Option, Some, None, if◌then◌else◌};

    ghost Value = { Option (List ℕ) };

    ghost view = { λ l. if l.is_whole then Some l.text.items else None };
}

impl Lines {
    /// No line.
    pub fn new(alloc: Global) -> Lines
        ensures { result ≡ Some [] }
    {
        Lines {
            alloc,
            text: Vec::new(alloc),
            is_whole: true,
        }
    }

    /// The bytes of the lines, where memory sufficed for all of them.
    pub fn into_bytes(self) -> Result<Vec<u8>, AllocError>
        ensures whole { IfOk result (λ bytes. self ≡ Some bytes.items) }
        ensures wanting { OnErr result (self ≡ None) }
    {
        let Lines {
            alloc: _,
            text,
            is_whole,
        } = self;
        if is_whole { Ok(text) } else { Err(AllocError) }
    }

    /// Adds bytes, which are to be part of a line.
    pub fn add(&mut self, bytes: &[u8])
        ensures { Adds bytes.now self.old self.new }
    {
        if self.text.extend_from_slice(bytes).is_err() {
            self.is_whole = false;
        }
    }

    /// Adds a number in decimal digits.
    pub fn number<I: Integer>(&mut self, number: I)
        ensures { Adds (I.text number) self.old self.new }
    {
        let mut buffer = Buffer::new();
        self.add(buffer.format(number).as_bytes());
    }

    /// Adds the lines of a module and of its items.
    pub fn module(&mut self, tree: &Module)
        ensures { (piece : List ℕ) × Adds piece self.old self.new }
    {
        let mut nodes = Nodes::new(self.alloc);
        nodes.module(tree);
        self.append(nodes);
    }

    /// Adds the lines of an expression.
    pub fn expression(&mut self, tree: &Expression)
        ensures { (piece : List ℕ) × Adds piece self.old self.new }
    {
        let mut nodes = Nodes::new(self.alloc);
        nodes.expression(tree);
        self.append(nodes);
    }

    /// Adds the lines of a statement.
    pub fn statement(&mut self, tree: &Statement)
        ensures { (piece : List ℕ) × Adds piece self.old self.new }
    {
        let mut nodes = Nodes::new(self.alloc);
        nodes.statement(tree);
        self.append(nodes);
    }

    /// Adds the lines of a pattern.
    pub fn pattern(&mut self, tree: &Pattern)
        ensures { (piece : List ℕ) × Adds piece self.old self.new }
    {
        let mut nodes = Nodes::new(self.alloc);
        nodes.pattern(tree);
        self.append(nodes);
    }

    /// Adds the lines of parameters.
    pub fn parameters(&mut self, trees: &[Parameter])
        ensures { (piece : List ℕ) × Adds piece self.old self.new }
    {
        let mut nodes = Nodes::new(self.alloc);
        nodes.parameters(trees);
        self.append(nodes);
    }

    /// Adds the lines of nodes. So what stood before stays as it was, whatever the walk over the tree wrote.
    fn append(&mut self, nodes: Nodes)
        ensures { (piece : List ℕ) × Adds piece self.old self.new }
    {
        match nodes.into_bytes() {
            Ok(bytes) => self.add(bytes.as_slice()),
            Err(_) => self.is_whole = false,
        }
    }
}
