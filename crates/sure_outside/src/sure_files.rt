ghost use Rattle.std.specs.Prelude.{◌≡◌, ℕ, ◌≤◌, [], List, false, IfOk};
ghost use Rattle.es_outside.specs.Counts.{CountRose};
ghost use Rattle.es_outside.specs.Files.{AnswersExactly, file_of};
ghost use Rattle.es_outside.specs.Stores.{calls_of};

use es_outside::{FileAnswer, Files, MemoryFiles};
use std::alloc::{AllocError, Global};

/// Files in memory, of which no call fails.
#[derive(Drop)]
pub struct SureFiles {
    store: MemoryFiles,
    ghost none_listed: { (calls_of store).failing ≡ [] },
}

impl SureFiles {
    ghost use Rattle.sure_outside.specs.SureStores.{sure_file_at};

    /// Files with these paths and bytes, where a later pair takes the place of an earlier one.
    pub fn new(alloc: Global, list: Vec<(String, Vec<u8>)>) -> Result<SureFiles, AllocError>
        ensures { IfOk result
            (λ files. (path : List ℕ) → sure_file_at files path ≡ file_of list.items path) }
    {
        Ok(SureFiles {
            store: MemoryFiles::new(alloc, list, Vec::new(alloc))?,
        })
    }
}

impl Files for SureFiles {
    ghost use Rattle.std.specs.Prelude.{Some};
    ghost use Rattle.sure_outside.specs.SureStores.{sure_file_at};

    ghost files = { λ files. Some (sure_file_at files) };

    ghost faults = { λ _. 0 };

    fn read(&mut self, alloc: Global, path: &str, limit: u32) -> FileAnswer
        ensures answer { AnswersExactly false (sure_file_at self.old path.now) limit result }
        ensures files { sure_file_at self.new ≡ sure_file_at self.old }
    {
        self.store.read(alloc, path, limit)
    }
}
