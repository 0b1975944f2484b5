//! The file of a module.

ghost use Rattle.std.specs.Prelude.{◌≡◌, string_bytes};

use std::marker::Model;

/// The file that a module was read of: its path, and its bytes. Contracts see the pair of these lists.
#[derive(Drop)]
pub(crate) struct Source {
    path: String,
    bytes: Vec<u8>,
}

impl Model for Source {
    ghost use Rattle.std.specs.Prelude.{ℕ, List, string_bytes};
    ghost use Rattle.std.specs.Coded.{coded_ℕ, coded_list, coded×};

    ghost Value = { List ℕ × List ℕ };

    ghost coded = { coded× (coded_list coded_ℕ) (coded_list coded_ℕ) };

    ghost view = { λ s. (string_bytes s.path, s.bytes.items) };
}

impl Source {
    pub(crate) fn new(path: String, bytes: Vec<u8>) -> Source
        ensures { result ≡ (string_bytes path, bytes.items) }
    {
        Source { path, bytes }
    }

    pub(crate) fn path(&self) -> &str
        ensures { result.now ≡ self.now.0 }
    {
        self.path.as_str()
    }

    pub(crate) fn into_parts(self) -> (String, Vec<u8>)
        ensures path { string_bytes result.0 ≡ self.0 }
        ensures bytes { result.1.items ≡ self.1 }
    {
        let Source { path, bytes } = self;
        (path, bytes)
    }
}
