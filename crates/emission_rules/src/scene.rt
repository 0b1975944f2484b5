//! What stands round what is emitted.

ghost use Rattle.std.specs.Prelude.{◌≡◌, [], ◌∷◌, ◌++◌, None, Some, OnOk};
ghost use Rattle.emission_rules.specs.Slots.{left, taken};

use es5_ast::Expr5;
use shared_text::Name;
use sqlite_items::Items;
use std::alloc::{AllocError, Global};
use std::marker::Model;
use std::mem;

/// What a function gives to what stands in it, arrows included.
#[derive(Clone, Copy, Debug, PartialEq, Eq)]
pub struct Uses {
    /// its frame, an object that has its `this`
    pub frame: bool,
    /// `new.target`, which the frame has too
    pub target: bool,
    /// the function itself
    pub own: bool,
    /// the arguments that it was passed
    pub passed: bool,
}

/// A closure's expression, and what it asks of the function round it.
#[derive(Drop)]
pub struct Closure {
    pub value: Expr5,
    pub uses: Uses,
}

/// The expression of the current value. It is hidden where it reads a property that the core knows nothing of, so that a call
/// of it has no receiver.
#[derive(Drop)]
pub struct Current {
    pub value: Expr5,
    pub hidden: bool,
}

/// The closures of the table's functions, until each is taken by the head that holds it.
#[derive(Drop)]
pub struct Slots {
    list: Vec<Option<Closure>>,
}

impl Model for Slots {
    ghost use Rattle.std.specs.Prelude.{List, Option};
    ghost use Rattle.std.specs.Coded.{codes};
    ghost use Rattle.es5_ast.specs.contracts.tree.Expr5 as expression;
    ghost use Rattle.emission_rules.specs.declared.scene.Closure.{Closure};

    ghost Value = { List (Option Closure) };

    ghost coded = { Prim.hlevel (codes, expression.the_row.coded) };

    ghost view = { λ slots. slots.list.items };
}

impl Slots {
    /// None yet.
    pub fn new(alloc: Global) -> Slots
        ensures { result ≡ [] }
    {
        Slots {
            list: Vec::new(alloc),
        }
    }

    /// The closure of the next function.
    pub fn push(&mut self, closure: Closure) -> Result<(), AllocError>
        ensures { OnOk result (self.new ≡ self.old ++ Some closure ∷ []) }
    {
        self.list.push(Some(closure))?;
        Ok(())
    }

    /// The closure of the function with this number, unless it is taken.
    pub fn take(&mut self, at: usize) -> Option<Closure>
        ensures taken { result ≡ taken self.old at }
        ensures left { self.new ≡ left self.old at }
    {
        if at >= self.list.len() {
            return None;
        }
        mem::replace(&mut self.list[at], None)
    }
}

/// What stands round a part that is emitted.
#[derive(Drop)]
pub struct Scene {
    /// the texts of the names, and those of the hosts
    pub names: Items<Name>,
    pub hosts: Items<Name>,
    pub functions: Slots,
    /// the step of the generator, until its body takes it
    pub step: Option<Expr5>,
    /// what the parts so far ask of the function
    pub uses: Uses,
    /// whether `this` is that of the frame: in arrows, constructors of derived classes and steps
    pub framed: bool,
    /// whether the arguments are kept apart: where an arguments object, which may be changed, is made of them, and in
    /// generators, whose steps have arguments of their own
    pub keeps: bool,
}
