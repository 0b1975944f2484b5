//! The labels round a place, inside its function (ECMA-262, 6th edition, 13.13).

ghost use Rattle.std.specs.Prelude.{◌≡◌, ◌&&◌, [], ◌∷◌, drop, OnOk};
ghost use Rattle.std.specs.Str.{bytes_eq};
ghost use Rattle.es6_static_semantics.specs.Early.{has_label, has_loop_label};

use std::alloc::{AllocError, Global};
use std::marker::Model;

/// A label, and whether it labels a loop.
#[derive(Drop)]
pub(crate) struct Label {
    name: Vec<u8>,
    is_loop: bool,
}

impl Model for Label {
    ghost use Rattle.es6_static_semantics.specs.Early.{Label};

    ghost Value = { Label };

    ghost view = { λ l. record { name = l.name.items; is_loop = l.is_loop } };
}

/// Labels, of which contracts see the list, the innermost first.
#[derive(Drop)]
pub(crate) struct Labels {
    alloc: Global,
    list: Vec<Label>,
}

impl Model for Labels {
    ghost use Rattle.std.specs.Prelude.{List, reverse};
    ghost use Rattle.es6_static_semantics.specs.Early.{Label};

    ghost Value = { List Label };

    ghost view = { λ l. reverse l.list.items };
}

impl Labels {
    /// No labels.
    pub(crate) fn new(alloc: Global) -> Labels
        ensures { result ≡ [] }
    {
        Labels {
            alloc,
            list: Vec::new(alloc),
        }
    }

    /// Enters a statement with a label, whose name is these bytes in UTF-8.
    pub(crate) fn push(&mut self, name: &[u8], is_loop: bool) -> Result<(), AllocError>
        ensures { OnOk result (self.new ≡ record { name = name.now; is_loop = is_loop } ∷ self.old) }
    {
        let name = Vec::from_slice(self.alloc, name)?;
        self.list.push(Label { name, is_loop })?;
        Ok(())
    }

    /// Leaves it again.
    pub(crate) fn pop(&mut self)
        ensures { self.new ≡ drop 1 self.old }
    {
        let _ = self.list.pop();
    }

    /// Whether one has the name.
    #[tactic(auto, using(crate::proofs::Walking::any_reverse))]
    pub(crate) fn has(&self, name: &[u8]) -> bool
        ensures { result ≡ has_label name.now self.now }
    {
        any_label(self.list.as_slice(), name)
    }

    /// Whether one has the name and labels a loop.
    #[tactic(auto, using(crate::proofs::Walking::any_reverse))]
    pub(crate) fn has_loop(&self, name: &[u8]) -> bool
        ensures { result ≡ has_loop_label name.now self.now }
    {
        any_loop_label(self.list.as_slice(), name)
    }
}

fn any_label(labels: &[Label], name: &[u8]) -> bool
    ensures { result ≡ has_label name.now labels.now }
{
    for label in labels {
        if label.is_named(name) {
            return true;
        }
    }
    false
}

fn any_loop_label(labels: &[Label], name: &[u8]) -> bool
    ensures { result ≡ has_loop_label name.now labels.now }
{
    for label in labels {
        if label.is_loop_named(name) {
            return true;
        }
    }
    false
}

impl Label {
    fn is_named(&self, name: &[u8]) -> bool
        ensures { result ≡ bytes_eq self.now.name name.now }
    {
        self.name.as_slice() == name
    }

    fn is_loop_named(&self, name: &[u8]) -> bool
        ensures { result ≡ (self.now.is_loop && bytes_eq self.now.name name.now) }
    {
        self.is_loop & self.is_named(name)
    }
}
