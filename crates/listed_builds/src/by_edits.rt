//! Reading files with edits, of which the files that are lent learn that they are lent still.

use edited_files::EditedFiles;
use es_outside::{FileAnswer, Files};
use module_loading::FindsFiles;
use std::alloc::Global;

/// Files with edits are read by their own clauses, and keep what they lend.
pub struct ByEdits;

impl<'a, F: Files> FindsFiles<EditedFiles<'a, F>> for ByEdits {
    ghost use Rattle.edited_files.specs.EditedFiles.{StillLends, faults_of, told_of};
    ghost use Rattle.listed_builds.specs.Lends.{lends_on, lends_still};

    ghost files = { told_of F.files };

    ghost faults = { faults_of F.faults };

    ghost stays = { StillLends F.files F.faults };

    fn read(alloc: Global, lent: &mut EditedFiles<'a, F>, path: &str, limit: u32) -> FileAnswer {
        lent.read(alloc, path, limit)
    }

    ghost still = { lends_still F.files F.faults };

    ghost and_on = { lends_on F.files F.faults };
}
