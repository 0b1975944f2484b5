//! A module that is kept.

ghost use Rattle.std.specs.Prelude.{◌≡◌, ◌&&◌, string_bytes};
ghost use Rattle.std.specs.Str.{bytes_eq};

use module_loading::ReadsModules;
use std::marker::Model;

/// A module that is kept as it was read of its file, of which contracts see the path and the bytes.
#[derive(Drop)]
pub(crate) struct Kept<R: ReadsModules> {
    path: String,
    bytes: Vec<u8>,
    made: R::Module,
}

impl<R: ReadsModules> Model for Kept<R> {
    ghost use Rattle.std.specs.Prelude.{ℕ, List, string_bytes};
    ghost use Rattle.std.specs.Coded.{coded_ℕ, coded_list, coded×};

    ghost Value = { List ℕ × List ℕ };

    ghost coded = { coded× (coded_list coded_ℕ) (coded_list coded_ℕ) };

    ghost view = { λ k. (string_bytes k.path, k.bytes.items) };

    ghost invariant = { λ k. R.reads (string_bytes k.path) k.bytes.items k.made };
}

impl<R: ReadsModules> Kept<R> {
    pub(crate) fn new(path: String, bytes: Vec<u8>, made: R::Module) -> Kept<R>
        requires { R.reads (string_bytes path) bytes.items made }
        ensures { result ≡ (string_bytes path, bytes.items) }
    {
        Kept { path, bytes, made }
    }

    /// Whether the file has this path and these bytes.
    pub(crate) fn is(&self, path: &str, bytes: &[u8]) -> bool
        ensures { result ≡ (bytes_eq self.now.0 path.now && bytes_eq self.now.1 bytes.now) }
    {
        self.path.as_str() == path && self.bytes.as_slice() == bytes
    }

    pub(crate) fn into_module(self) -> R::Module
        ensures { R.reads self.0 self.1 result }
    {
        let Kept { made, .. } = self;
        made
    }
}
