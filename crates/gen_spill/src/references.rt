//! References to properties.

ghost use Rattle.std.specs.Prelude.{◌≡◌, [], ◌∷◌, IfOk, OnOk};
ghost use Rattle.core_ast.specs.Made.{linked};
ghost use Rattle.core_ast.specs.declared.parts.CoreOp.TheVariants as op;
ghost use Rattle.core_ast.specs.declared.tree.CoreLink.TheVariants as link;
ghost use Rattle.pass_rules.specs.yield_rules.Yields.{base_check, deeper, fixed, in_slot, key_kept, last_of, referring, target, whole};

use crate::build::{in_slot, keep};
use crate::places::deeper;
use core_ast::{CoreExpr, CoreLink, CoreOp, CoreStat, Key, Primitive, act, linked};
use es_outside::Site;
use pass_rules::yield_rules::{Place, Reference};
use shared_text::Units;
use sqlite_items::Items;
use std::alloc::{AllocError, Global};

/// The reference as a link.
pub(crate) fn referring(alloc: Global, reference: Reference) -> CoreLink
    ensures { result ≡ referring reference }
{
    match reference {
        Reference::Named { key, site } => CoreLink::Strict {
            op: CoreOp::Member(key),
            parts: Items::new(alloc),
            site,
        },
        Reference::Keyed { keys, site } => CoreLink::Strict {
            op: CoreOp::Index,
            parts: keys,
            site,
        },
    }
}

/// An expression with its reference.
pub(crate) fn whole(
    alloc: Global,
    base: CoreExpr,
    reference: Option<Reference>,
) -> Result<CoreExpr, AllocError>
    ensures { IfOk result (λ x. x ≡ whole base reference) }
{
    match reference {
        Some(reference) => linked(base, referring(alloc, reference)),
        None => Ok(base),
    }
}

fn base_check(alloc: Global, place: Place) -> Result<CoreStat, AllocError>
    ensures { IfOk result (λ s. s ≡ base_check place) }
{
    let name = Vec::from_slice(alloc, &[64, 64, 98, 97, 115, 101])?;
    let key = Key::TextKey(Units::of_units(name));
    let read = linked(in_slot(alloc, place), act(alloc, CoreOp::Member(key)))?;
    Ok(CoreStat::Do(read))
}

fn keep_key(
    alloc: Global,
    place: Place,
    key: Option<CoreExpr>,
    out: &mut Items<CoreStat>,
) -> Result<(), AllocError>
    ensures { OnOk result (out.new ≡ key_kept place key out.old) }
{
    match key {
        Some(key) => {
            let place = deeper(place, 1)?;
            let key = linked(key, act(alloc, CoreOp::Primitive(Primitive::ToText)))?;
            keep(alloc, place, key, out)
        }
        None => Ok(()),
    }
}

#[tactic(auto, using(crate::proofs::Lists::last_of_more))]
fn last_of(keys: Items<CoreExpr>) -> Option<CoreExpr>
    ensures { result ≡ last_of keys }
{
    let mut keys = keys;
    keys.pop()
}

/// A reference whose base stands in a slot is kept.
#[tactic(auto, unfolding(pass_rules::specs::yield_rules::Yields::fixed))]
pub(crate) fn fix(
    alloc: Global,
    place: Place,
    reference: Reference,
    out: &mut Items<CoreStat>,
) -> Result<(), AllocError>
    ensures { OnOk result (out.new ≡ fixed place reference out.old) }
{
    match reference {
        Reference::Named { .. } => out.push(base_check(alloc, place)?),
        Reference::Keyed { keys, .. } => {
            out.push(base_check(alloc, place)?)?;
            keep_key(alloc, place, last_of(keys), out)
        }
    }
}

fn named_target(
    alloc: Global,
    place: Place,
    key: &Key,
    site: Option<Site>,
) -> Result<CoreExpr, AllocError>
    ensures { IfOk result (λ x. x ≡ linked (in_slot place) (link.Strict (op.Member key.now) [] site)) }
{
    let op = CoreOp::Member(key.copy(alloc)?);
    let parts = Items::new(alloc);
    linked(in_slot(alloc, place), CoreLink::Strict { op, parts, site })
}

fn keyed_target(alloc: Global, place: Place, site: Option<Site>) -> Result<CoreExpr, AllocError>
    ensures { IfOk result (λ x. x ≡ linked (in_slot place) (link.Strict op.Index (in_slot (deeper 1 place) ∷ []) site)) }
{
    let mut parts = Items::new(alloc);
    parts.push(in_slot(alloc, deeper(place, 1)?))?;
    let op = CoreOp::Index;
    linked(in_slot(alloc, place), CoreLink::Strict { op, parts, site })
}

/// The reference that was kept.
#[tactic(auto, unfolding(pass_rules::specs::yield_rules::Yields::target))]
pub(crate) fn target(
    alloc: Global,
    place: Place,
    reference: &Reference,
) -> Result<CoreExpr, AllocError>
    ensures { IfOk result (λ x. x ≡ target place reference.now) }
{
    match reference {
        Reference::Named { key, site } => named_target(alloc, place, key, *site),
        Reference::Keyed { site, .. } => keyed_target(alloc, place, *site),
    }
}
