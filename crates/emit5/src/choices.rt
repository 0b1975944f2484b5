//! `if` statements (ECMA-262, 5.1 edition, 12.5).

ghost use Rattle.std.specs.Prelude.{◌≡◌, ◌++◌, ◌∷◌, IfOk, OnOk};
ghost use Rattle.emission_rules.specs.Emission.{chosen, condition, conditions, otherwise, then};
ghost use Rattle.emission_rules.specs.Nodes.{nowhere};

use crate::statements::boxed_block;
use emit_expressions::{block, nowhere};
use es5_ast::{Case5, Condition5, Expr5, Stat5};
use es5_nodes::lists::push;
use es5_nodes::{parts, statements};
use sqlite_items::{Boxed, Items};
use std::alloc::{AllocError, Global};
use std::collections::VecDeque;

fn condition(
    alloc: Global,
    test: Boxed<Expr5>,
    body: Items<Stat5>,
) -> Result<Boxed<Condition5>, AllocError>
    ensures { IfOk result (λ c. c ≡ condition test body) }
{
    let body = boxed_block(alloc, body)?;
    parts::condition(alloc, nowhere(), test, body)
}

/// The test is boxed before anything else can fail.
fn tested(alloc: Global, test: Expr5, body: Items<Stat5>) -> Result<Boxed<Condition5>, AllocError>
    ensures { IfOk result (λ c. c ≡ condition test body) }
{
    let test = Boxed::new(alloc, test)?;
    condition(alloc, test, body)
}

/// The tests up to the first case without one, which is the else.
fn conditions(
    alloc: Global,
    cases: VecDeque<Case5>,
    out: &mut Items<Condition5>,
) -> Result<Option<Boxed<Stat5>>, AllocError>
    ensures tests { OnOk result (out.new ≡ out.old ++ conditions cases.items) }
    ensures rest { IfOk result (λ x. x ≡ otherwise cases.items) }
{
    let mut left = cases;
    while let Some(case) = left.pop_front() {
        let Case5 { test, body, .. } = case;
        match test {
            Some(test) => push(out, tested(alloc, test, body)?)?,
            None => return Ok(Some(boxed_block(alloc, body)?)),
        }
    }
    Ok(None)
}

/// An `if` that begins with this test, and goes on with these cases.
fn push_tested(
    alloc: Global,
    test: Expr5,
    body: Items<Stat5>,
    left: VecDeque<Case5>,
    out: &mut Items<Stat5>,
) -> Result<(), AllocError>
    ensures { OnOk result (out.new ≡ then out.old (Stat5.If nowhere (condition test body) (conditions left.items) (otherwise left.items))) }
{
    let first = tested(alloc, test, body)?;
    let mut more = Items::new(alloc);
    let otherwise = conditions(alloc, left, &mut more)?;
    push(
        out,
        statements::if_statement(alloc, nowhere(), first, more, otherwise)?,
    )
}

/// What begins without a test is a block.
#[tactic(auto, unfolding(emission_rules::specs::Emission::chosen))]
fn push_first(
    alloc: Global,
    case: Case5,
    left: VecDeque<Case5>,
    out: &mut Items<Stat5>,
) -> Result<(), AllocError>
    ensures { OnOk result (out.new ≡ chosen (case ∷ left.items) out.old) }
{
    let Case5 { test, body, .. } = case;
    match test {
        Some(test) => push_tested(alloc, test, body, left, out),
        None => out.push(Stat5::Block(block(body))),
    }
}

/// An `if` with these cases, of which one without a test is the else.
#[tactic(auto, unfolding(emission_rules::specs::Emission::chosen))]
pub(crate) fn push_if(
    alloc: Global,
    cases: Vec<Case5>,
    out: &mut Items<Stat5>,
) -> Result<(), AllocError>
    ensures { OnOk result (out.new ≡ chosen cases.items out.old) }
{
    let mut left = VecDeque::from_vec(cases);
    match left.pop_front() {
        Some(case) => push_first(alloc, case, left, out),
        None => Ok(()),
    }
}
