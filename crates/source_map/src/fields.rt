//! The whole fields of a segment.
ghost use Rattle.std.specs.Prelude.{◌≡◌, [], ◌∷◌, ◌++◌, length, OnOk};

use std::alloc::{AllocError, Global};
use std::marker::Model;

/// A whole field of a segment: the place of its first digit, and the number that its digits spell.
#[derive(Clone, Copy)]
pub(crate) struct Field {
    pub(crate) at: usize,
    pub(crate) number: u32,
}

/// A list of fields that is emptied without giving up its memory.
#[derive(Drop)]
pub(crate) struct Fields {
    items: Vec<Field>,
}

impl Model for Fields {
    ghost use Rattle.std.specs.Prelude.{List};
    ghost use Rattle.source_map.specs.declared.fields.Field.{Field};

    ghost Value = { List Field };

    ghost view = { λ f. f.items.items };
}

impl Fields {
    pub(crate) fn new(alloc: Global) -> Fields
        ensures { result ≡ [] }
    {
        Fields {
            items: Vec::new(alloc),
        }
    }

    pub(crate) fn push(&mut self, field: Field) -> Result<(), AllocError>
        ensures { OnOk result (self.new ≡ self.old ++ field ∷ []) }
    {
        self.items.push(field)?;
        Ok(())
    }

    pub(crate) fn clear(&mut self)
        ensures { self.new ≡ [] }
    {
        self.items.clear();
    }

    pub(crate) fn len(&self) -> usize
        ensures { result ≡ length self.now }
    {
        self.items.len()
    }

    pub(crate) fn as_slice(&self) -> &[Field]
        ensures { result.now ≡ self.now }
    {
        self.items.as_slice()
    }
}
