ghost use Rattle.std.specs.Prelude.{◌≡◌, None, ◌∷◌, []};
ghost use Rattle.std.specs.Option.{option_map};
ghost use Rattle.es6_static_semantics.specs.Findings.{when};
ghost use Rattle.early_findings.specs.Pairs.{pair_of, least_with};

use crate::finding::Finding;
use std::alloc::Global;
use std::marker::Model;

/// A walk through a module, seen as the least of the findings that it has met.
#[derive(Drop)]
pub struct Finder {
    alloc: Global,
    least: Option<Finding>,
}

impl Model for Finder {
    ghost use Rattle.std.specs.Prelude.{Option};
    ghost use Rattle.es6_static_semantics.specs.Findings.{Pair};
    ghost use Rattle.std.specs.Option.{option_map};
    ghost use Rattle.early_findings.specs.Pairs.{pair_of};

    ghost Value = { Option Pair };

    ghost view = { λ f. option_map pair_of f.least };
}

impl Finder {
    /// A walk that has met nothing.
    pub fn new(alloc: Global) -> Finder
        ensures { result ≡ None }
    {
        Finder { alloc, least: None }
    }

    /// What the walk allocates with.
    pub fn alloc(&self) -> Global {
        self.alloc
    }

    /// The least finding so far.
    pub fn least(&self) -> Option<Finding>
        ensures { option_map pair_of result ≡ self.now }
    {
        self.least
    }

    /// Meets the rule at an offset in bytes, where the test holds.
    pub fn when(&mut self, test: bool, rule: u8, at: u32)
        ensures { self.new ≡ least_with self.old (when test rule at) }
    {
        if test {
            self.meet(Finding { rule, at });
        }
    }

    /// Meets a finding.
    pub fn meet(&mut self, finding: Finding)
        ensures { self.new ≡ least_with self.old (pair_of finding ∷ []) }
    {
        match self.least {
            Some(least) if !finding.comes_first(least) => (),
            _ => self.least = Some(finding),
        }
    }
}
