//! How the files of a graph are read.

use es_outside::{FileAnswer, Files};
use std::alloc::Global;

/// A way to read files of the type `F`: by the clauses of `Files`, and with a relation that each read keeps, as that what the files
/// lend is lent still.
pub trait FindsFiles<F> {
    ghost use Rattle.std.specs.Prelude.{◌≡◌, ℕ, ◌≤◌, List, Option, IfSome};
    ghost use Rattle.es_outside.specs.Counts.{CountRose};
    ghost use Rattle.es_outside.specs.Files.{AnswersFor};

    /// The bytes of each path, if they are told.
    ghost files: { F → Option (List ℕ → Option (List ℕ)) };

    /// How often reading has failed.
    ghost faults: { F → ℕ };

    /// What a read leaves as it was.
    ghost stays: { F → F → Type 0 };

    fn read(alloc: Global, lent: &mut F, path: &str, limit: u32) -> FileAnswer
        ensures told { IfSome (files lent.old) (λ file. AnswersFor (file path.now) limit result) }
        ensures unchanged { files lent.new ≡ files lent.old }
        ensures no_fall { faults lent.old ≤ faults lent.new }
        ensures failed { result ≡ FileAnswer.Failed → CountRose (faults lent.old) (faults lent.new) }
        ensures stays { stays lent.old lent.new };

    ghost still: { (it : F) → stays it it };

    ghost and_on: { (a b c : F) → stays a b → stays b c → stays a c };
}

/// Files are read by their own clauses.
pub struct ByFiles;

impl<F: Files> FindsFiles<F> for ByFiles {
    ghost files = { F.files };

    ghost faults = { F.faults };

    ghost stays = { λ _ _. Unit {0} };

    fn read(alloc: Global, lent: &mut F, path: &str, limit: u32) -> FileAnswer {
        lent.read(alloc, path, limit)
    }

    ghost still = { λ _. tt };

    ghost and_on = { λ _ _ _ _ _. tt };
}
