//! The braces that are open, the innermost first.

ghost use Rattle.std.specs.Prelude.{◌≡◌, [], ◌∷◌, drop, OnOk};
ghost use Rattle.es6_lexer.specs.Lexes.{closes};

use std::alloc::{AllocError, Global};
use std::marker::Model;

/// For each open brace whether it is the `${` of a template. Contracts see the list of them, the
/// innermost first.
#[derive(Drop)]
pub struct Braces {
    marks: Vec<bool>,
}

impl Model for Braces {
    ghost use Rattle.std.specs.Prelude.{List, Bool, reverse};
    ghost use Rattle.std.specs.Coded.{coded_bool, coded_list};

    ghost Value = { List Bool };

    ghost coded = { coded_list coded_bool };

    ghost view = { λ b. reverse b.marks.items };
}

impl Braces {
    pub fn new(alloc: Global) -> Braces
        ensures { result ≡ [] }
    {
        Braces {
            marks: Vec::new(alloc),
        }
    }

    /// Opens a brace.
    pub fn enter(&mut self, template: bool) -> Result<(), AllocError>
        ensures { OnOk result (self.new ≡ template ∷ self.old) }
    {
        self.marks.push(template)?;
        Ok(())
    }

    /// Closes the innermost brace, if one is open.
    pub fn leave(&mut self)
        ensures { self.new ≡ drop 1 self.old }
    {
        let _ = self.marks.pop();
    }

    /// Whether a `}` goes on with a template.
    pub fn closes_template(&self) -> bool
        ensures { result ≡ closes self.now }
    {
        match self.marks.last() {
            Some(template) => *template,
            None => false,
        }
    }
}
