ghost use Rattle.std.specs.Prelude.{◌≡◌, ◌≢◌, ◌≤◌, ℕ, List, Option, Some, None, string_bytes, OnErr, OnOk};
ghost use Rattle.es_outside.specs.Files.{AnswersFor};

use es_outside::{FileAnswer, Files};
use std::alloc::{AllocError, Global};
use std::collections::BTreeMap;

/// Files that are lent, with edits by path: an edited path has what the last edit of it says, and each other path what it has in the
/// files that are lent. The count of faults is theirs.
#[derive(Drop)]
pub struct EditedFiles<'a, F: Files> {
    base: &'a mut F,
    /// The bytes that were put at a path, or that it was dropped.
    edits: BTreeMap<String, Option<Vec<u8>>>,
}

impl<'a, F: Files> EditedFiles<'a, F> {
    ghost use Rattle.edited_files.specs.Edits.{with_edit};
    ghost use Rattle.edited_files.specs.EditedFiles.{base_of, edit_of};

    /// These files without an edit. It takes no memory.
    pub fn new(alloc: Global, base: &'a mut F) -> EditedFiles<'a, F>
        ensures edits { (path : List ℕ) → edit_of result path ≡ None }
        ensures base { (base_of result).now ≡ base.old }
        ensures same_base { (base_of result).ghost_name ≡ base.entry.ghost_name }
    {
        EditedFiles {
            base,
            edits: BTreeMap::new(alloc),
        }
    }

    /// Puts these bytes at a path. Where memory runs out, nothing is edited.
    pub fn put(&mut self, path: String, bytes: Vec<u8>) -> Result<(), AllocError>
        ensures put { let edit = Some bytes.items in OnOk result ((other : List ℕ) →
            edit_of self.new other ≡ with_edit (string_bytes path) edit (edit_of self.old) other) }
        ensures err { OnErr result ((other : List ℕ) →
            edit_of self.new other ≡ edit_of self.old other) }
        ensures base { (base_of self.new).now ≡ (base_of self.old).now }
        ensures same_base { (base_of self.new).ghost_name ≡ (base_of self.old).ghost_name }
    {
        self.edits.insert(path, Some(bytes))?;
        Ok(())
    }

    /// Lets nothing stand at a path. Where memory runs out, nothing is edited.
    pub fn drop_path(&mut self, path: String) -> Result<(), AllocError>
        ensures dropped { OnOk result ((other : List ℕ) →
            edit_of self.new other ≡ with_edit (string_bytes path) None (edit_of self.old) other) }
        ensures err { OnErr result ((other : List ℕ) →
            edit_of self.new other ≡ edit_of self.old other) }
        ensures base { (base_of self.new).now ≡ (base_of self.old).now }
        ensures same_base { (base_of self.new).ghost_name ≡ (base_of self.old).ghost_name }
    {
        self.edits.insert(path, None)?;
        Ok(())
    }

    /// Ends the loan: the files that are lent.
    pub fn into_base(self) -> &'a mut F
        ensures now { result.now ≡ (base_of self.entry).now }
        ensures same_base { result.ghost_name ≡ (base_of self.entry).ghost_name }
    {
        let EditedFiles { base, .. } = self;
        base
    }
}

impl<'a, F: Files> Files for EditedFiles<'a, F> {
    ghost use Rattle.std.specs.Prelude.{IfSome};
    ghost use Rattle.es_outside.specs.Counts.{CountRose};
    ghost use Rattle.edited_files.specs.EditedFiles.{StillLends, faults_of, told_of};

    ghost files = { told_of F.files };

    ghost faults = { faults_of F.faults };

    fn read(&mut self, alloc: Global, path: &str, limit: u32) -> FileAnswer
        ensures told { IfSome (told_of F.files self.old) (λ file. AnswersFor (file path.now) limit result) }
        ensures unchanged { told_of F.files self.new ≡ told_of F.files self.old }
        ensures no_fall { faults_of F.faults self.old ≤ faults_of F.faults self.new }
        ensures failed { result ≡ FileAnswer.Failed →
            CountRose (faults_of F.faults self.old) (faults_of F.faults self.new) }
        ensures lends { StillLends F.files F.faults self.old self.new }
    {
        match self.edits.get(path) {
            None => self.base.read(alloc, path, limit),
            Some(None) => FileAnswer::Missing,
            Some(Some(bytes)) => front(alloc, bytes, limit),
        }
    }
}

/// The bytes, or the first `limit` of them and one more.
fn front(alloc: Global, bytes: &[u8], limit: u32) -> FileAnswer
    ensures answer { AnswersFor (Some bytes.now) limit result }
    ensures never_fails { result ≢ FileAnswer.Failed }
{
    let count = bytes.len().min(limit as usize + 1);
    match Vec::from_slice(alloc, &bytes[..count]) {
        Ok(read) => FileAnswer::Found(read),
        Err(_) => FileAnswer::OutOfMemory,
    }
}
