ghost use Rattle.std.specs.Prelude.{◌≡◌, None, ◌∷◌, []};
ghost use Rattle.std.specs.Option.{option_map};
ghost use Rattle.es5_ast.specs.Early.{when};
ghost use Rattle.es5_early.specs.Pairs.{rule_of, pair_of, least_with};

use crate::pair::{Pair, Rule};
use std::alloc::Global;
use std::marker::Model;

/// The walk through a script, seen as the least of the pairs that it has met.
#[derive(Drop)]
pub(crate) struct Finder {
    alloc: Global,
    least: Option<Pair>,
}

impl Model for Finder {
    ghost use Rattle.std.specs.Prelude.{Option};
    ghost use Rattle.es5_ast.specs.Early.{Pair5};
    ghost use Rattle.std.specs.Option.{option_map};
    ghost use Rattle.es5_early.specs.Pairs.{pair_of};

    ghost Value = { Option Pair5 };

    ghost view = { λ f. option_map pair_of f.least };
}

impl Finder {
    pub(crate) fn new(alloc: Global) -> Finder
        ensures { result ≡ None }
    {
        Finder { alloc, least: None }
    }

    pub(crate) fn alloc(&self) -> Global {
        self.alloc
    }

    pub(crate) fn least(&self) -> Option<Pair>
        ensures { option_map pair_of result ≡ self.now }
    {
        self.least
    }

    /// Meets a pair, where the test holds.
    pub(crate) fn when(&mut self, test: bool, rule: Rule, at: u32)
        ensures { self.new ≡ least_with self.old (when test (rule_of rule) at) }
    {
        if test {
            self.meet(Pair { rule, at });
        }
    }

    fn meet(&mut self, pair: Pair)
        ensures { self.new ≡ least_with self.old (pair_of pair ∷ []) }
    {
        match self.least {
            Some(least) if !pair.comes_first(least) => (),
            _ => self.least = Some(pair),
        }
    }
}
