//! Statements that are to be run.

ghost use Rattle.std.specs.Prelude.{◌≡◌, ◌++◌, ◌∷◌, [], MatchOption};
ghost use Rattle.core_state.specs.Bodies.{bodies};

use core_ast::{CoreCase, CoreStat};
use std::marker::Model;

/// What is left of a list of statements: those here, those behind, and those of cases, where one falls through to the next. Contracts
/// see one list.
#[derive(Drop)]
pub struct Stats<'a> {
    here: &'a [CoreStat],
    behind: &'a [CoreStat],
    cases: &'a [CoreCase],
}

impl<'a> Model for Stats<'a> {
    ghost use Rattle.std.specs.Prelude.{List, ◌++◌};
    ghost use Rattle.core_ast.specs.declared.tree.CoreStat.{CoreStat};
    ghost use Rattle.core_ast.specs.contracts.tree.CoreStat as node;
    ghost use Rattle.std.specs.Coded.{codes};
    ghost use Rattle.core_state.specs.Bodies.{bodies};

    ghost Value = { List CoreStat };

    ghost coded = { Prim.hlevel (codes, node.the_row.coded) };

    ghost view = { λ s. s.here.now ++ (s.behind.now ++ bodies s.cases.now) };
}

impl<'a> Stats<'a> {
    pub fn of(here: &'a [CoreStat]) -> Stats<'a>
        ensures { result ≡ here.now }
    {
        Stats {
            here,
            behind: &[],
            cases: &[],
        }
    }

    /// One list behind another.
    pub fn both(here: &'a [CoreStat], behind: &'a [CoreStat]) -> Stats<'a>
        ensures { result ≡ here.now ++ behind.now }
    {
        Stats {
            here,
            behind,
            cases: &[],
        }
    }

    /// The statements of these cases.
    pub fn of_cases(cases: &'a [CoreCase]) -> Stats<'a>
        ensures { result ≡ bodies cases.now }
    {
        Stats {
            here: &[],
            behind: &[],
            cases,
        }
    }

    pub fn share(&self) -> Stats<'a>
        ensures { result ≡ self.now }
    {
        Stats {
            here: self.here,
            behind: self.behind,
            cases: self.cases,
        }
    }

    /// The first, and what is left behind it.
    pub fn first(&self) -> Option<(&'a CoreStat, Stats<'a>)>
        ensures { MatchOption result (self.now ≡ []) (λ p. self.now ≡ p.0.now ∷ p.1) }
    {
        if let Some((first, here)) = self.here.split_first() {
            let stats = Stats {
                here,
                behind: self.behind,
                cases: self.cases,
            };
            return Some((first, stats));
        }
        if let Some((first, here)) = self.behind.split_first() {
            let stats = Stats {
                here,
                behind: &[],
                cases: self.cases,
            };
            return Some((first, stats));
        }
        first_of(self.cases)
    }
}

/// The first statement of cases, and what is left behind it.
fn first_of<'a>(cases: &'a [CoreCase]) -> Option<(&'a CoreStat, Stats<'a>)>
    ensures { MatchOption result (bodies cases.now ≡ []) (λ p. bodies cases.now ≡ p.0.now ∷ p.1) }
{
    let mut rest = cases;
    while let Some((case, behind)) = rest.split_first() {
        if let Some((first, here)) = case.body.as_slice().split_first() {
            let stats = Stats {
                here,
                behind: &[],
                cases: behind,
            };
            return Some((first, stats));
        }
        rest = behind;
    }
    None
}
