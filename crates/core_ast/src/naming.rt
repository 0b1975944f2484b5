//! The names of a core.

ghost use Rattle.std.specs.Prelude.{◌≡◌, [], None, Some, IfOk, OnErr, OnOk};
ghost use Rattle.core_ast.specs.Names.{next, with_hint};

use crate::parts::Var;
use shared_text::Name;
use sqlite_items::Items;
use std::alloc::{AllocError, Global};

/// The names of a core, each with its hint where it has one. A Var is a place in this list, which only grows, so no Var
/// is drawn twice.
#[derive(Drop)]
pub struct Fresh {
    pub hints: Items<Option<Name>>,
}

impl Fresh {
    /// No name yet.
    pub fn new(alloc: Global) -> Fresh
        ensures { result ≡ record { hints = [] } }
    {
        Fresh {
            hints: Items::new(alloc),
        }
    }

    /// A new name.
    pub fn name(&mut self) -> Result<Var, AllocError>
        ensures drawn { IfOk result (λ x. x ≡ next self.old) }
        ensures kept { OnOk result (self.new ≡ with_hint None self.old) }
        ensures failed { OnErr result (self.new ≡ self.old) }
    {
        self.add(None)
    }

    /// A new name, which is called after the hint where that is an identifier.
    pub fn named(&mut self, alloc: Global, hint: &str) -> Result<Var, AllocError>
        ensures drawn { IfOk result (λ x. x ≡ next self.old) }
        ensures kept { OnOk result (self.new ≡ with_hint (Some hint.now) self.old) }
        ensures failed { OnErr result (self.new ≡ self.old) }
    {
        let hint = Name::of_bytes(alloc, hint.as_bytes())?;
        self.add(Some(hint))
    }

    fn add(&mut self, hint: Option<Name>) -> Result<Var, AllocError>
        ensures drawn { IfOk result (λ x. x ≡ next self.old) }
        ensures kept { OnOk result (self.new ≡ with_hint hint self.old) }
        ensures failed { OnErr result (self.new ≡ self.old) }
    {
        let Ok(place) = u32::try_from(self.hints.len()) else {
            return Err(AllocError);
        };
        self.hints.push(hint)?;
        Ok(Var(place))
    }
}
