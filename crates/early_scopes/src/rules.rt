//! The rules on the lexical names of a scope and the var names in it.

ghost use Rattle.std.specs.Prelude.{◌≡◌, ◌++◌, [], drop, map, OnOk};
ghost use Rattle.es6_static_semantics.specs.Findings.{clashes, joined, repeated, shared};
ghost use Rattle.es6_static_semantics.specs.Early.{block_lexical, case_found, head_pairs, scope_pairs, statement_found};
ghost use Rattle.early_findings.specs.Pairs.{least_with};

use crate::var_names::VarNames;
use early_findings::Finder;
use early_names::{PlacedName, add_block_lexical, clashes, repeated, shared};
use es6_ast::{Case, Statement};
use std::alloc::AllocError;

/// E1 and E2, of the lexical names of a scope and the var names from an index on (13.2.1, 13.12.1, 14.1.2, 14.2.1, 15.2.1.1).
pub(crate) fn scope(
    finder: &mut Finder,
    lexical: &[PlacedName],
    vars: &VarNames,
    mark: usize,
) -> Result<(), AllocError>
    ensures { OnOk result (finder.new ≡ least_with finder.old (scope_pairs lexical.now (drop mark vars.now))) }
{
    repeated(finder, 1, lexical)?;
    clashing(finder, lexical, vars, mark)
}

/// E2.
#[tactic(auto, using(crate::proofs::None::no_clash))]
fn clashing(
    finder: &mut Finder,
    lexical: &[PlacedName],
    vars: &VarNames,
    mark: usize,
) -> Result<(), AllocError>
    ensures { OnOk result (finder.new ≡ least_with finder.old (clashes 2 lexical.now (drop mark vars.now))) }
{
    if !vars.contain_any(mark, lexical) {
        return Ok(());
    }
    clashes(finder, 2, lexical, vars.since(mark))
}

/// The rule at each var name from an index on that is one of these names.
#[tactic(auto, using(crate::proofs::None::none_shared))]
fn shared_vars(
    finder: &mut Finder,
    rule: u8,
    names: &[PlacedName],
    vars: &VarNames,
    mark: usize,
) -> Result<(), AllocError>
    ensures { OnOk result (finder.new ≡ least_with finder.old (shared rule names.now (drop mark vars.now))) }
{
    if !vars.contain_any(mark, names) {
        return Ok(());
    }
    shared(finder, rule, names, vars.since(mark))
}

/// E1 and E6, of the lexical names of a loop's head and the var names of its body, those from an index on (13.7.4.1, 13.7.5.1).
pub(crate) fn head(
    finder: &mut Finder,
    lexical: &[PlacedName],
    vars: &VarNames,
    mark: usize,
) -> Result<(), AllocError>
    ensures { OnOk result (finder.new ≡ least_with finder.old (head_pairs lexical.now (drop mark vars.now))) }
{
    repeated(finder, 1, lexical)?;
    shared_vars(finder, 6, lexical, vars, mark)
}

/// E5, of the names of a catch's parameter, the lexical names of its block and the var names in it (13.15.1).
pub(crate) fn parameter(
    finder: &mut Finder,
    names: &[PlacedName],
    lexical: &[PlacedName],
    vars: &VarNames,
    mark: usize,
) -> Result<(), AllocError>
    ensures { OnOk result (finder.new ≡ least_with finder.old (repeated 5 [] names.now ++ shared 5 names.now (lexical.now ++ drop mark vars.now))) }
{
    repeated(finder, 5, names)?;
    shared(finder, 5, names, lexical)?;
    shared_vars(finder, 5, names, vars, mark)
}

/// E1 and E2, of a block whose var names are those from an index on.
pub(crate) fn block(
    finder: &mut Finder,
    statements: &[Statement],
    vars: &VarNames,
    mark: usize,
) -> Result<(), AllocError>
    ensures { OnOk result (finder.new ≡ least_with finder.old (scope_pairs (block_lexical (map statement_found statements.now)) (drop mark vars.now))) }
{
    let mut lexical = Vec::new(finder.alloc());
    add_block_lexical(&mut lexical, statements)?;
    scope(finder, lexical.as_slice(), vars, mark)
}

/// E1 and E2, of the clauses of a switch.
pub(crate) fn cases(
    finder: &mut Finder,
    cases: &[Case],
    vars: &VarNames,
    mark: usize,
) -> Result<(), AllocError>
    ensures { OnOk result (finder.new ≡ least_with finder.old (scope_pairs (block_lexical (joined (λ c. c.body) (map case_found cases.now))) (drop mark vars.now))) }
{
    let mut lexical = Vec::new(finder.alloc());
    add_case_lexical(&mut lexical, cases)?;
    scope(finder, lexical.as_slice(), vars, mark)
}

fn add_case_lexical<'a>(
    names: &mut Vec<PlacedName<'a>>,
    cases: &'a [Case],
) -> Result<(), AllocError>
    ensures { OnOk result (names.new.items ≡ names.old.items ++ block_lexical (joined (λ c. c.body) (map case_found cases.now))) }
{
    for case in cases {
        add_block_lexical(names, case.body.as_slice())?;
    }
    Ok(())
}
