ghost use Rattle.std.specs.Prelude.{◌≡◌, ℕ, ◌≤◌, List, if◌then◌else◌, IfOk};
ghost use Rattle.es_outside.specs.Files.{read_of};

use crate::calls::Calls;
use crate::{FileAnswer, Files};
use std::alloc::{AllocError, Global};
use std::collections::BTreeMap;

/// Files in memory. A call fails exactly where its number, from 0, is listed.
#[derive(Drop)]
pub struct MemoryFiles {
    files: BTreeMap<String, Vec<u8>>,
    calls: Calls,
}

impl MemoryFiles {
    ghost use Rattle.es_outside.specs.Calls.{calls_before};
    ghost use Rattle.es_outside.specs.Files.{file_of};
    ghost use Rattle.es_outside.specs.Stores.{file_at, calls_of};

    /// Files with these paths and bytes, where a later pair takes the place of an earlier one, of which the
    /// calls with these numbers are to fail.
    pub fn new(
        alloc: Global,
        list: Vec<(String, Vec<u8>)>,
        failing: Vec<u32>,
    ) -> Result<MemoryFiles, AllocError>
        ensures files { IfOk result (λ store. (path : List ℕ) → file_at store path ≡ file_of list.items path) }
        ensures calls { IfOk result (λ store. calls_of store ≡ calls_before failing.items) }
    {
        let mut files = BTreeMap::new(alloc);
        for (path, bytes) in list {
            files.insert(path, bytes)?;
        }
        Ok(MemoryFiles {
            files,
            calls: Calls::new(failing),
        })
    }
}

impl Files for MemoryFiles {
    ghost use Rattle.std.specs.Prelude.{Some};
    ghost use Rattle.es_outside.specs.Calls.{fails_by_number, after_call, after_fault};
    ghost use Rattle.es_outside.specs.Counts.{CountRose};
    ghost use Rattle.es_outside.specs.Files.{AnswersExactly};
    ghost use Rattle.es_outside.specs.Stores.{file_at, calls_of};

    ghost files = { λ store. Some (file_at store) };

    ghost faults = { λ store. (calls_of store).faults };

    fn read(&mut self, alloc: Global, path: &str, limit: u32) -> FileAnswer
        ensures answer { AnswersExactly (fails_by_number (calls_of self.old)) (file_at self.old path.now) limit result }
        ensures files { file_at self.new ≡ file_at self.old }
        ensures calls { calls_of self.new ≡ (if fails_by_number (calls_of self.old) then after_fault (calls_of self.old) else after_call (calls_of self.old)) }
        ensures no_fall { (calls_of self.old).faults ≤ (calls_of self.new).faults }
        ensures failed { result ≡ FileAnswer.Failed → CountRose (calls_of self.old).faults (calls_of self.new).faults }
    {
        if self.calls.next_fails() {
            self.calls.fault();
            return FileAnswer::Failed;
        }
        match self.files.get(path) {
            None => FileAnswer::Missing,
            Some(bytes) => match front(alloc, bytes, limit) {
                Ok(read) => FileAnswer::Found(read),
                Err(_) => FileAnswer::OutOfMemory,
            },
        }
    }
}

/// The bytes, or the first `limit` of them and one more.
fn front(alloc: Global, bytes: &[u8], limit: u32) -> Result<Vec<u8>, AllocError>
    ensures { IfOk result (λ read. read.items ≡ read_of limit bytes.now) }
{
    let count = bytes.len().min(limit as usize + 1);
    Vec::from_slice(alloc, &bytes[..count])
}
