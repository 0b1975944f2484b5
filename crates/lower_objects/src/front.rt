//! The members in front that a literal of a script can hold.

ghost use Rattle.std.specs.Prelude.{◌≡◌, ◌≤◌, [], length, IfOk, OnOk};
ghost use Rattle.lowering_rules.specs.reference_rules.Objects.{fits, front, seen_with};

use crate::texts::SeenTexts;
use lowering_rules::reference_rules::{ObjectKey, ObjectMember};
use std::alloc::{AllocError, Global};

/// Whether the member may stand behind those that are seen, and then it is seen.
#[tactic(auto, unfolding(lowering_rules::specs::reference_rules::Objects::fits, lowering_rules::specs::reference_rules::Objects::seen_with))]
fn fits<'a>(seen: &mut SeenTexts<'a>, member: &'a ObjectMember) -> Result<bool, AllocError>
    ensures found { IfOk result (λ b. b ≡ fits seen.old member.now) }
    ensures kept { OnOk result (seen.new ≡ seen_with seen.old member.now) }
{
    match member {
        ObjectMember::Valued {
            key: ObjectKey::Written { text, .. },
            ..
        } => seen.add(text.units()),
        ObjectMember::Valued {
            key: ObjectKey::Evaluated(_),
            ..
        }
        | ObjectMember::Defined { .. } => Ok(false),
    }
}

/// How many such members there are.
pub(crate) fn front(alloc: Global, members: &[ObjectMember]) -> Result<usize, AllocError>
    ensures found { IfOk result (λ n. n ≡ front [] members.now) }
    ensures within { IfOk result (λ n. n ≤ length members.now) }
{
    let mut seen = SeenTexts::new(alloc);
    let mut count: usize = 0;
    for member in members {
        if !fits(&mut seen, member)? {
            return Ok(count);
        }
        count += 1;
    }
    Ok(count)
}
