//! Statements that are to be run.

ghost use Rattle.std.specs.Prelude.{◌≡◌, ◌++◌, ◌∷◌, [], MatchOption};
ghost use Rattle.source_state.specs.Bodies.{case_statements};

use crate::nodes::Nodes;
use es6_ast::{Case, Statement};
use sqlite_items::Items;
use std::marker::Model;

/// What is left of a list of statements: those here, and behind them those of cases, where one falls through to the next. Contracts see
/// one list.
#[derive(Drop)]
pub struct Statements<'a> {
    here: Nodes<'a, Statement>,
    cases: Nodes<'a, Case>,
}

impl<'a> Model for Statements<'a> {
    ghost use Rattle.std.specs.Prelude.{List, ◌++◌};
    ghost use Rattle.es6_ast.specs.declared.tree.Statement.{Statement};
    ghost use Rattle.es6_ast.specs.contracts.tree.Statement as node;
    ghost use Rattle.std.specs.Coded.{codes};
    ghost use Rattle.source_state.specs.Bodies.{case_statements};

    ghost Value = { List Statement };

    ghost coded = { Prim.hlevel (codes, node.the_row.coded) };

    ghost view = { λ s. s.here ++ case_statements s.cases };
}

impl<'a> Statements<'a> {
    pub fn of(here: &'a Items<Statement>) -> Statements<'a>
        ensures { result ≡ here.now }
    {
        Statements {
            here: Nodes::of(here),
            cases: Nodes::none(),
        }
    }

    /// The statements of these cases (ECMA-262, 6th edition, 13.12.9).
    pub fn of_cases(cases: Nodes<'a, Case>) -> Statements<'a>
        ensures { result ≡ case_statements cases.entry }
    {
        Statements {
            here: Nodes::none(),
            cases,
        }
    }

    pub fn share(&self) -> Statements<'a>
        ensures { result ≡ self.now }
    {
        Statements {
            here: self.here.share(),
            cases: self.cases.share(),
        }
    }

    /// The first, and what is left behind it.
    pub fn first(&self) -> Option<(&'a Statement, Statements<'a>)>
        ensures { MatchOption result (self.now ≡ []) (λ p. self.now ≡ p.0.now ∷ p.1) }
    {
        match self.here.first() {
            None => first_of(self.cases.share()),
            Some((first, here)) => {
                let cases = self.cases.share();
                Some((first, Statements { here, cases }))
            }
        }
    }
}

/// The first statement of cases, and what is left behind it.
fn first_of<'a>(cases: Nodes<'a, Case>) -> Option<(&'a Statement, Statements<'a>)>
    ensures { MatchOption result (case_statements cases.entry ≡ []) (λ p. case_statements cases.entry ≡ p.0.now ∷ p.1) }
{
    let mut rest = cases;
    while let Some((case, cases)) = rest.first() {
        if let Some((first, here)) = Nodes::of(&case.body).first() {
            return Some((first, Statements { here, cases }));
        }
        rest = cases;
    }
    None
}
