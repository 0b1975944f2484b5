ghost use Rattle.std.specs.Prelude.{◌≡◌, ℕ, ◌≤◌, List, Option, IfSome};

use std::alloc::Global;

/// What a read of a file answers.
#[derive(Debug, Drop)]
pub enum FileAnswer {
    /// The file's bytes, cut off one byte past the limit where there are more.
    Found(Vec<u8>),
    /// No file has this path.
    Missing,
    /// The reading failed, and the count of faults rose.
    Failed,
    OutOfMemory,
}

/// Files by path, which reading doesn't change.
pub trait Files {
    ghost use Rattle.es_outside.specs.Counts.{CountRose};
    ghost use Rattle.es_outside.specs.Files.{AnswersFor};

    /// The bytes of each path, if they are told.
    ghost files: { Self → Option (List ℕ → Option (List ℕ)) };

    /// How often reading has failed, up to the last value of 64 bits.
    ghost faults: { Self → ℕ };

    /// The bytes of the file at this path, of which at most `limit` and one more are read.
    fn read(&mut self, alloc: Global, path: &str, limit: u32) -> FileAnswer
        ensures told { IfSome (files self.old) (λ file. AnswersFor (file path.now) limit result) }
        ensures unchanged { files self.new ≡ files self.old }
        ensures no_fall { faults self.old ≤ faults self.new }
        ensures failed { result ≡ FileAnswer.Failed → CountRose (faults self.old) (faults self.new) };
}
