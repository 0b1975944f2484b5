//! Cases: an `if` and a `switch`, of which tests may have statements.

ghost use Rattle.std.specs.Prelude.{◌≡◌, [], ◌∷◌, ◌++◌, Some, IfOk, OnOk};
ghost use Rattle.pass_rules.specs.yield_rules.Yields.{all_matched, all_tested, any_case_has, case_has, case_of, cased, cases_before, cases_left, chosen, default_number, later_has, match_case, matched_test, no_match, number, switched, switched_late, tested};

use crate::build::{in_slot, is_same, keep, leave, number, when};
use crate::places::{deeper, label, next};
use core_ast::{CoreCase, CoreExpr, CoreStat};
use pass_rules::yield_rules::{Matching, Place, Spilled, SpilledCase};
use sqlite_items::Items;
use std::alloc::{AllocError, Global};
use std::collections::VecDeque;

/// A case, whose test is done.
pub fn cased(alloc: Global, test: Option<Spilled>, body: Items<CoreStat>) -> SpilledCase
    ensures { result ≡ cased test body }
{
    match test {
        Some(Spilled { before, rest }) => SpilledCase {
            before,
            test: Some(rest),
            body,
        },
        None => SpilledCase {
            before: Items::new(alloc),
            test: None,
            body,
        },
    }
}

fn case_has(case: &SpilledCase) -> bool
    ensures { result ≡ case_has case.now }
{
    case.before.len() != 0
}

fn any_case_has(cases: &[SpilledCase]) -> bool
    ensures { result ≡ any_case_has cases.now }
{
    for case in cases {
        if case_has(case) {
            return true;
        }
    }
    false
}

fn later_has(cases: &[SpilledCase]) -> bool
    ensures { result ≡ later_has cases.now }
{
    match cases.split_first() {
        Some((_, rest)) => any_case_has(rest),
        None => false,
    }
}

/// The cases as they are, with what stands before their tests.
fn cases_left(
    alloc: Global,
    cases: Vec<SpilledCase>,
    out: &mut Items<CoreStat>,
) -> Result<Items<CoreCase>, AllocError>
    ensures cases { IfOk result (λ cs. cs ≡ cases_left cases.items) }
    ensures before { OnOk result (out.new ≡ cases_before cases.items out.old) }
{
    let mut left = VecDeque::from_vec(cases);
    let mut made = Items::new(alloc);
    while let Some(case) = left.pop_front() {
        let SpilledCase { before, test, body } = case;
        out.append(before)?;
        made.push(CoreCase { test, body })?;
    }
    Ok(made)
}

/// A case behind the label.
fn tested(
    alloc: Global,
    place: Place,
    case: SpilledCase,
    out: &mut Items<CoreStat>,
) -> Result<(), AllocError>
    ensures { OnOk result (out.new ≡ tested place case case.test out.old) }
{
    let SpilledCase {
        before,
        test,
        mut body,
    } = case;
    match test {
        Some(test) => {
            out.append(before)?;
            body.push(leave(place))?;
            out.push(when(alloc, test, body)?)
        }
        None => out.append(body),
    }
}

fn all_tested(
    alloc: Global,
    place: Place,
    cases: Vec<SpilledCase>,
) -> Result<Items<CoreStat>, AllocError>
    ensures { IfOk result (λ ss. ss ≡ all_tested place cases.items []) }
{
    let mut left = VecDeque::from_vec(cases);
    let mut out = Items::new(alloc);
    while let Some(case) = left.pop_front() {
        tested(alloc, place, case, &mut out)?;
    }
    Ok(out)
}

/// An `if`, whose cases are done.
pub fn push_if(
    alloc: Global,
    place: Place,
    cases: Vec<SpilledCase>,
    out: &mut Items<CoreStat>,
) -> Result<(), AllocError>
    ensures { OnOk result (out.new ≡ chosen place cases.items out.old) }
{
    if later_has(cases.as_slice()) {
        let body = all_tested(alloc, place, cases)?;
        let label = label(place);
        return out.push(CoreStat::Labelled { label, body });
    }
    let cases = cases_left(alloc, cases, out)?;
    out.push(CoreStat::If { cases })
}

/// The number of the case goes into the second slot where its test is the subject.
fn match_case(
    alloc: Global,
    place: Place,
    i: usize,
    before: Items<CoreStat>,
    test: CoreExpr,
    tests: &mut Items<CoreStat>,
) -> Result<(), AllocError>
    ensures { OnOk result (tests.new ≡ match_case place i before test tests.old) }
{
    tests.append(before)?;
    let mut body = Items::new(alloc);
    keep(alloc, deeper(place, 1)?, number(alloc, i as u64), &mut body)?;
    body.push(leave(place))?;
    let test = is_same(alloc, in_slot(alloc, place), test)?;
    tests.push(when(alloc, test, body)?)
}

/// The case under its number.
fn push_numbered(
    alloc: Global,
    i: usize,
    body: Items<CoreStat>,
    cases: &mut Items<CoreCase>,
) -> Result<(), AllocError>
    ensures { OnOk result (cases.new ≡ cases.old ++ case_of (Some (number i)) body ∷ []) }
{
    let test = Some(number(alloc, i as u64));
    cases.push(CoreCase { test, body })
}

fn matched(
    alloc: Global,
    place: Place,
    i: usize,
    case: SpilledCase,
    made: Matching,
) -> Result<Matching, AllocError>
    ensures { IfOk result (λ m. m ≡ matched_test place i case case.test made) }
{
    let SpilledCase { before, test, body } = case;
    let Matching {
        mut tests,
        mut cases,
        default,
    } = made;
    push_numbered(alloc, i, body, &mut cases)?;
    match test {
        Some(test) => {
            match_case(alloc, place, i, before, test, &mut tests)?;
            Ok(Matching {
                tests,
                cases,
                default,
            })
        }
        None => Ok(Matching {
            tests,
            cases,
            default: Some(i),
        }),
    }
}

fn all_matched(alloc: Global, place: Place, cases: Vec<SpilledCase>) -> Result<Matching, AllocError>
    ensures { IfOk result (λ m. m ≡ all_matched place 0 cases.items no_match) }
{
    let mut left = VecDeque::from_vec(cases);
    let mut i = 0;
    let mut made = Matching {
        tests: Items::new(alloc),
        cases: Items::new(alloc),
        default: None,
    };
    while let Some(case) = left.pop_front() {
        made = matched(alloc, place, i, case, made)?;
        i = next(i)?;
    }
    Ok(made)
}

fn default_number(none: usize, default: Option<usize>) -> usize
    ensures { result ≡ default_number none default }
{
    match default {
        Some(i) => i,
        None => none,
    }
}

/// A switch on the number of the case.
fn push_late(
    alloc: Global,
    place: Place,
    made: Matching,
    count: usize,
    out: &mut Items<CoreStat>,
) -> Result<(), AllocError>
    ensures { OnOk result (out.new ≡ out.old ++ switched_late place made count) }
{
    let Matching {
        tests: mut body,
        cases,
        default,
    } = made;
    let second = deeper(place, 1)?;
    let none = number(alloc, default_number(count, default) as u64);
    keep(alloc, second, none, &mut body)?;
    let label = label(place);
    out.push(CoreStat::Labelled { label, body })?;
    let subject = in_slot(alloc, second);
    out.push(CoreStat::Switch { subject, cases })
}

/// A `switch`, whose cases are done.
pub fn push_switch(
    alloc: Global,
    place: Place,
    subject: Spilled,
    cases: Vec<SpilledCase>,
    out: &mut Items<CoreStat>,
) -> Result<(), AllocError>
    ensures { OnOk result (out.new ≡ switched place subject cases.items out.old) }
{
    let Spilled {
        before,
        rest: subject,
    } = subject;
    out.append(before)?;
    if any_case_has(cases.as_slice()) {
        let count = cases.len();
        keep(alloc, place, subject, out)?;
        let made = all_matched(alloc, place, cases)?;
        return push_late(alloc, place, made, count, out);
    }
    let cases = cases_left(alloc, cases, out)?;
    out.push(CoreStat::Switch { subject, cases })
}
