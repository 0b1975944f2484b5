ghost use Rattle.std.specs.Prelude.{◌≡◌, IfOk};
ghost use Rattle.std.specs.Char.Escape.{encode_utf16};
ghost use Rattle.std.specs.List.{flat_map};
ghost use Rattle.std.specs.Str.{chars};

use sqlite_items::Items;
use std::alloc::{AllocError, Global};
use std::marker::Model;

/// A text as a list of 16-bit units, in which a surrogate may stand alone (ECMA-262, 6th edition, 6.1.4).
#[derive(Debug, Drop)]
pub struct Units {
    list: Items<u16>,
}

impl Model for Units {
    ghost use Rattle.std.specs.Prelude.{ℕ, List};
    ghost use Rattle.std.specs.Coded.{coded_ℕ, coded_list};

    ghost Value = { List ℕ };

    ghost coded = { coded_list coded_ℕ };

    ghost view = { λ text. text.list };
}

impl Units {
    /// The text of these units, without memory.
    pub fn of_units(list: Vec<u16>) -> Units
        ensures { result ≡ list.items }
    {
        Units {
            list: Items::from_vec(list),
        }
    }

    /// The text of these characters.
    pub fn of(alloc: Global, text: &str) -> Result<Units, AllocError>
        ensures { IfOk result (λ units. units ≡ flat_map encode_utf16 (chars text.now)) }
    {
        let mut list = Vec::new(alloc);
        for character in text.chars() {
            let mut room = [0; 2];
            list.extend_from_slice(character.encode_utf16(&mut room))?;
        }
        Ok(Units::of_units(list))
    }

    /// The units of the text.
    pub fn units(&self) -> &[u16]
        ensures { result.now ≡ self.now }
    {
        self.list.as_slice()
    }

    /// An equal text.
    pub fn copy(&self, alloc: Global) -> Result<Units, AllocError>
        ensures { IfOk result (λ text. text ≡ self.now) }
    {
        Ok(Units {
            list: Items::from_slice(alloc, self.list.as_slice())?,
        })
    }
}
