//! Texts of names that stood before.

ghost use Rattle.std.specs.Prelude.{◌≡◌, [], not, IfOk, OnOk};
ghost use Rattle.lowering_rules.specs.reference_rules.Objects.{has_text, with_text};

use indexmap::IndexSet;
use std::alloc::{AllocError, Global};
use std::marker::Model;

/// Texts in the order in which they come first, borrowed, of which contracts see the list.
#[derive(Drop)]
pub(crate) struct SeenTexts<'a> {
    texts: IndexSet<&'a [u16]>,
}

impl<'a> Model for SeenTexts<'a> {
    ghost use Rattle.std.specs.Prelude.{ℕ, List, map};

    ghost Value = { List (List ℕ) };

    ghost view = { λ t. map (λ k. k.now) t.texts.keys };
}

impl<'a> SeenTexts<'a> {
    pub(crate) fn new(alloc: Global) -> SeenTexts<'a>
        ensures { result ≡ [] }
    {
        SeenTexts {
            texts: IndexSet::new(alloc),
        }
    }

    /// Adds a text unless it is there, and says whether it wasn't.
    pub(crate) fn add(&mut self, text: &'a [u16]) -> Result<bool, AllocError>
        ensures added { IfOk result (λ b. b ≡ not (has_text text.now self.old)) }
        ensures kept { OnOk result (self.new ≡ with_text self.old text.now) }
    {
        let added = self.texts.insert(text)?;
        Ok(added)
    }
}
