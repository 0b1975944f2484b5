//! What a scene tells of names, and what is asked of the function round it.

ghost use Rattle.std.specs.Prelude.{◌≡◌};
ghost use Rattle.emission_rules.specs.Scenes.{asking, both, frame_used, guard_used, name_of, no_uses, own_used, passed_used, target_used, text_at};

use core_ast::Var;
use emission_rules::{Scene, Uses};
use shared_text::Name;
use sqlite_items::at;

/// The text at this place, which is empty where there is none.
pub(crate) fn text_at(texts: &[Name], place: usize) -> &[u8]
    ensures { result.now ≡ text_at texts.now place }
{
    match at(texts, place) {
        Some(text) => text.bytes(),
        None => b"",
    }
}

/// What the variable is called, as bytes.
pub fn name_of(scene: &Scene, var: Var) -> &[u8]
    ensures { result.now ≡ name_of scene.now var }
{
    text_at(scene.names.as_slice(), var.0 as usize)
}

/// Nothing is asked of the function.
pub fn no_uses() -> Uses
    ensures { result ≡ no_uses }
{
    Uses {
        frame: false,
        target: false,
        own: false,
        passed: false,
    }
}

pub(crate) fn frame_used() -> Uses
    ensures { result ≡ frame_used }
{
    Uses {
        frame: true,
        target: false,
        own: false,
        passed: false,
    }
}

pub(crate) fn target_used() -> Uses
    ensures { result ≡ target_used }
{
    Uses {
        frame: true,
        target: true,
        own: false,
        passed: false,
    }
}

pub(crate) fn own_used() -> Uses
    ensures { result ≡ own_used }
{
    Uses {
        frame: false,
        target: false,
        own: true,
        passed: false,
    }
}

pub(crate) fn guard_used() -> Uses
    ensures { result ≡ guard_used }
{
    Uses {
        frame: true,
        target: false,
        own: true,
        passed: false,
    }
}

pub(crate) fn passed_used() -> Uses
    ensures { result ≡ passed_used }
{
    Uses {
        frame: false,
        target: false,
        own: false,
        passed: true,
    }
}

fn both(one: Uses, other: Uses) -> Uses
    ensures { result ≡ both one other }
{
    Uses {
        frame: one.frame | other.frame,
        target: one.target | other.target,
        own: one.own | other.own,
        passed: one.passed | other.passed,
    }
}

/// These are asked of the function too.
pub fn ask(uses: Uses, scene: &mut Scene)
    ensures { scene.new ≡ asking uses scene.old }
{
    scene.uses = both(scene.uses, uses);
}
