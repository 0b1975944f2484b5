//! What reads one module.

use crate::unread::Unread;
use es_text::Place;
use es6_ast::Request;
use sqlite_items::Items;
use std::alloc::Global;

/// What reads the modules of a graph, each from the bytes of its file.
pub trait ReadsModules {
    ghost use Rattle.std.specs.Prelude.{◌≡◌, ℕ, List};
    ghost use Rattle.es_text.specs.declared.Place.{Place};
    ghost use Rattle.es6_ast.specs.declared.graph.Request.{Request};
    ghost use Rattle.module_loading.specs.Reading.{ReadsTo};

    type Module: Drop;

    type Fault: Drop;

    /// The bytes of the file at a path are read as this module.
    ghost reads: { List ℕ → List ℕ → Self.Module → Type 0 };

    /// They have this fault.
    ghost refuses: { List ℕ → List ℕ → Self.Fault → Type 0 };

    /// What a module requests, in text order.
    ghost requests: { Self.Module → List Request };

    /// The module with these requests in place of its own.
    ghost requested: { Self.Module → List Request → Self.Module };

    /// This is the place of an offset in the module's text.
    ghost shows: { Self.Module → ℕ → Place → Type 0 };

    fn read(alloc: Global, path: &str, bytes: &[u8]) -> Result<Self::Module, Unread<Self::Fault>>
        ensures { ReadsTo (reads path.now bytes.now) (refuses path.now bytes.now) result };

    fn requests(loaded: &Self::Module) -> &[Request]
        ensures { result.now ≡ requests loaded.now };

    fn place(loaded: &Self::Module, at: u32) -> Place
        ensures { shows loaded.now at result };

    fn with_requests(loaded: Self::Module, numbered: Items<Request>) -> Self::Module
        ensures { result ≡ requested loaded numbered };
}
