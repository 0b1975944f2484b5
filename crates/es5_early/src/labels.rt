//! What is round a statement: the labels, loops and switches inside the innermost function.

ghost use Rattle.std.specs.Prelude.{◌≡◌, [], ◌++◌, ◌-◌, ◌+◌, true, false, length, take, drop, min, OnOk, IfOk};

use crate::names::Names;
use std::alloc::{AllocError, Global};

/// The labels round a statement, and those of loops among them (ECMA-262, 5.1 edition, 12.12).
#[derive(Drop)]
pub(crate) struct Labels {
    pub(crate) all: Names,
    pub(crate) loops: Names,
}

/// Where a statement stands: whether in a function, a loop or a switch, and how many labels stand directly before it.
#[derive(Clone, Copy)]
pub(crate) struct Place {
    pub(crate) inside: bool,
    pub(crate) in_loop: bool,
    pub(crate) in_switch: bool,
    pub(crate) before: usize,
}

impl Labels {
    pub(crate) fn new(alloc: Global) -> Labels
        ensures { result ≡ record { all = []; loops = [] } }
    {
        Labels {
            all: Names::new(alloc),
            loops: Names::new(alloc),
        }
    }

    /// Makes the labels directly before a loop the loop's. The answer is how many labels of loops there were.
    pub(crate) fn enter_loop(&mut self, before: usize) -> Result<usize, AllocError>
        ensures labels { OnOk result (self.new ≡ record self.old { loops = take before self.old.all ++ self.old.loops }) }
        ensures count { IfOk result (λ count. count ≡ length self.old.loops) }
    {
        let count = self.loops.len();
        self.loops.push_newest(&self.all, before)?;
        Ok(count)
    }

    pub(crate) fn leave_loop(&mut self, count: usize)
        ensures { self.new ≡ record self.old { loops = drop (length self.old.loops - count) self.old.loops } }
    {
        self.loops.truncate(count);
    }
}

impl Place {
    pub(crate) fn of_script() -> Place
        ensures { result ≡ record { inside = false; in_loop = false; in_switch = false; before = 0 } }
    {
        Place {
            inside: false,
            in_loop: false,
            in_switch: false,
            before: 0,
        }
    }

    pub(crate) fn of_function() -> Place
        ensures { result ≡ record { inside = true; in_loop = false; in_switch = false; before = 0 } }
    {
        Place {
            inside: true,
            ..Place::of_script()
        }
    }

    /// Of a part of a statement there.
    pub(crate) fn under(self) -> Place
        ensures { result ≡ record self { before = 0 } }
    {
        Place { before: 0, ..self }
    }

    pub(crate) fn under_loop(self) -> Place
        ensures { result ≡ record self { before = 0; in_loop = true } }
    {
        Place {
            in_loop: true,
            ..self.under()
        }
    }

    pub(crate) fn under_switch(self) -> Place
        ensures { result ≡ record self { before = 0; in_switch = true } }
    {
        Place {
            in_switch: true,
            ..self.under()
        }
    }

    /// Of the statement behind a label there, which is the newest of so many.
    pub(crate) fn under_label(self, labels: usize) -> Place
        ensures { result ≡ record self { before = min (self.before + 1) labels } }
    {
        Place {
            before: self.before.saturating_add(1).min(labels),
            ..self
        }
    }
}
